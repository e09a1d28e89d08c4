ghost use Rattle.std.specs.Prelude.{⊤, ◌≡◌, ◌≤◌, IfOk, length, All};
ghost use Rattle.yds_model.specs.Event.{stretches as job_stretches};
ghost use Rattle.yds_model.specs.Policy.{HasRunDenominators};
ghost use Rattle.yds_model.specs.OptimalAvailable.{IsOptimalAvailableRun};
ghost use Rattle.yds_model.specs.Within.{AreSlotsOf};
ghost use Rattle.yds_timetable.specs.Timetable.{slots_of};
ghost use Rattle.yds_timetable.specs.Room.{CanLay};
ghost use Rattle.yds_edf.specs.PolicyRun.{AreRowsOf};
ghost use Rattle.yds_oa.specs.Asked.{most_asked, most_rounds};

use crate::walk::greatest_quotient;
use std::alloc::Global;
use yds_edf::{Policy, PolicyRun, PolicyTimetable, Queue, Setting, serve_policy};
use yds_events::{Stretch, stretches};
use yds_model::limits::{MAX_GRID, MAX_JOBS, MAX_ROUNDED};
use yds_model::{JobRow, Memory};

/// The run of Optimal Available on the grid: a stretch serves the greatest number of units that the deadline of a pending job
/// asks of it, rounded up to a whole unit of `1/grid`. A deadline asks the pending units that are due by it, times the
/// stretch's length, divided by the time until the deadline. After FOCS 1995 and J. ACM 2007.
///
/// `rounded` is the number of event points at which the greatest number wasn't whole.
pub fn oa(alloc: Global, rows: &[JobRow], grid: u32) -> Result<PolicyRun, Memory>
    requires few { length rows.now ≤ MAX_JOBS }
    requires some_grid { 1 ≤ grid }
    requires grid_in_range { grid ≤ MAX_GRID }
    ensures run { IfOk result (λ run. IsOptimalAvailableRun rows.now grid run.rounded run.schedule.slots) }
    ensures denominators { IfOk result (λ run. All (HasRunDenominators rows.now grid) run.schedule.slots) }
    ensures jobs { IfOk result (λ run. run.schedule.jobs ≡ length rows.now) }
    ensures limits { IfOk result (λ run. AreSlotsOf (length rows.now) run.schedule.slots) }
    ensures count_in_range { IfOk result (λ run. run.rounded ≤ MAX_ROUNDED) }
{
    let timeline = stretches(alloc, rows)?;
    let served = oa_timetable(alloc, rows, &timeline, grid)?;
    served.laid(alloc, rows.len() as u32)
}

/// The same before its slots are laid: what each stretch serves. The stretches are those of the jobs.
pub fn oa_timetable(
    alloc: Global,
    rows: &[JobRow],
    stretches: &[Stretch],
    grid: u32,
) -> Result<PolicyTimetable, Memory>
    requires few { length rows.now ≤ MAX_JOBS }
    requires stretches { stretches.now ≡ job_stretches rows.now }
    requires some_grid { 1 ≤ grid }
    requires grid_in_range { grid ≤ MAX_GRID }
    ensures run { IfOk result (λ run. IsOptimalAvailableRun rows.now grid run.rounded (slots_of run.timetable)) }
    ensures denominators { IfOk result (λ run. All (HasRunDenominators rows.now grid) (slots_of run.timetable)) }
    ensures stretches { IfOk result (λ run. AreRowsOf rows.now grid run.timetable) }
    ensures room { IfOk result (λ run. CanLay (length rows.now) run.timetable) }
    ensures count_in_range { IfOk result (λ run. run.rounded ≤ MAX_ROUNDED) }
{
    let mut policy = OptimalAvailable { last: 0 };
    serve_policy(alloc, rows, stretches, grid, &mut policy)
}

/// Optimal Available.
#[derive(Drop)]
struct OptimalAvailable {
    /// The place of the deadline that had the greatest quotient in the last stretch: it mostly has it again.
    last: usize,
}

impl Policy for OptimalAvailable {
    ghost units = { λ policy jobs grid pending stretch. most_asked jobs pending stretch };

    ghost rounds = { λ policy jobs grid pending stretch. most_rounds jobs pending stretch };

    ghost keeps = { λ policy jobs number. ⊤ };

    fn set(&mut self, _number: u32, queue: &Queue, stretch: Stretch) -> Setting {
        let greatest = greatest_quotient(queue.in_order(), stretch.from, self.last);
        self.last = greatest.place;
        let units = u128::from(greatest.units) * u128::from(stretch.length());
        let time = u128::from(greatest.time);
        Setting {
            units: ((units + (time - 1)) / time) as u64,
            rounds: units % time != 0,
        }
    }
}

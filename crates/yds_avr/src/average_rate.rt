ghost use Rattle.std.specs.Prelude.{◌≡◌, ◌≤◌, IfOk, length, All, sum_by};
ghost use Rattle.std.specs.List.{list_any};
ghost use Rattle.yds_model.specs.Event.{stretches as job_stretches};
ghost use Rattle.yds_model.specs.Policy.{HasRunDenominators};
ghost use Rattle.yds_model.specs.AverageRate.{IsAverageRateRun, terms_of, average_rate_rounds};
ghost use Rattle.yds_model.specs.Within.{AreSlotsOf};
ghost use Rattle.yds_timetable.specs.Timetable.{slots_of};
ghost use Rattle.yds_timetable.specs.Room.{CanLay};
ghost use Rattle.yds_edf.specs.PolicyRun.{AreRowsOf};
ghost use Rattle.yds_avr.specs.Rate.{IsLive, rate_term, rate_rounds};
ghost use Rattle.yds_avr.specs.Roster.{IsRosterBefore};

use crate::rate::{Rate, rest_of, rounds};
use crate::roster::Roster;
use std::alloc::Global;
use yds_edf::{Policy, PolicyRun, PolicyTimetable, Queue, Setting, serve_policy};
use yds_events::{Stretch, stretches};
use yds_model::limits::{MAX_GRID, MAX_JOBS, MAX_ROUNDED};
use yds_model::{JobRow, Memory};

/// The run of Average Rate on the grid: a stretch serves the sum of the live jobs' parts of it, each rounded up to a whole
/// unit of `1/grid`, or all that is pending. FOCS 1995.
///
/// `rounded` is the number of event points at which some live job's part wasn't whole.
pub fn avr(alloc: Global, rows: &[JobRow], grid: u32) -> Result<PolicyRun, Memory>
    requires few { length rows.now ≤ MAX_JOBS }
    requires some_grid { 1 ≤ grid }
    requires grid_in_range { grid ≤ MAX_GRID }
    ensures run { IfOk result (λ run. IsAverageRateRun rows.now grid run.rounded run.schedule.slots) }
    ensures denominators { IfOk result (λ run. All (HasRunDenominators rows.now grid) run.schedule.slots) }
    ensures jobs { IfOk result (λ run. run.schedule.jobs ≡ length rows.now) }
    ensures limits { IfOk result (λ run. AreSlotsOf (length rows.now) run.schedule.slots) }
    ensures count_in_range { IfOk result (λ run. run.rounded ≤ MAX_ROUNDED) }
{
    let timeline = stretches(alloc, rows)?;
    let served = avr_timetable(alloc, rows, &timeline, grid)?;
    served.laid(alloc, rows.len() as u32)
}

/// The same before its slots are laid: what each stretch serves. The stretches are those of the jobs.
pub fn avr_timetable(
    alloc: Global,
    rows: &[JobRow],
    stretches: &[Stretch],
    grid: u32,
) -> Result<PolicyTimetable, Memory>
    requires few { length rows.now ≤ MAX_JOBS }
    requires stretches { stretches.now ≡ job_stretches rows.now }
    requires some_grid { 1 ≤ grid }
    requires grid_in_range { grid ≤ MAX_GRID }
    ensures run { IfOk result (λ run. IsAverageRateRun rows.now grid run.rounded (slots_of run.timetable)) }
    ensures denominators { IfOk result (λ run. All (HasRunDenominators rows.now grid) (slots_of run.timetable)) }
    ensures stretches { IfOk result (λ run. AreRowsOf rows.now grid run.timetable) }
    ensures room { IfOk result (λ run. CanLay (length rows.now) run.timetable) }
    ensures count_in_range { IfOk result (λ run. run.rounded ≤ MAX_ROUNDED) }
{
    let roster = Roster::new(alloc, rows, grid)?;
    let mut policy = AverageRate { grid, roster };
    serve_policy(alloc, rows, stretches, grid, &mut policy)
}

/// Average Rate, which looks at the windows of the jobs alone that have arrived and aren't over.
#[derive(Drop)]
struct AverageRate {
    /// The number of units in a unit of work.
    grid: u32,
    /// The jobs' rates on that grid.
    roster: Roster,
}

impl Policy for AverageRate {
    ghost units = { λ policy jobs grid pending stretch. terms_of jobs policy.grid stretch };

    ghost rounds = { λ policy jobs grid pending stretch. average_rate_rounds jobs policy.grid stretch };

    ghost keeps = { λ policy jobs number. IsRosterBefore jobs policy.grid policy.roster number };

    fn set(&mut self, _number: u32, queue: &Queue, stretch: Stretch) -> Setting {
        let _rows = queue.rows();
        self.roster.go_to(stretch.from);
        terms(&self.roster.live, self.roster.whole, stretch)
    }
}

/// The sum of the live jobs' parts of a stretch, and whether one was rounded up.
fn terms(live: &[Rate], whole: u64, stretch: Stretch) -> Setting
    requires few { length live.now ≤ MAX_JOBS }
    requires live { All (IsLive stretch) live.now }
    requires whole { whole ≡ sum_by (λ rate. rate.whole) live.now }
    ensures units { result.units ≡ sum_by (rate_term stretch) live.now }
    ensures rounds { result.rounds ≡ list_any (rate_rounds stretch) live.now }
{
    Setting {
        units: units_of(live, whole, stretch),
        rounds: is_rounded(live, stretch),
    }
}

/// The sum of the live jobs' parts of a stretch, each rounded up. The whole units of a time unit are added before.
fn units_of(live: &[Rate], whole: u64, stretch: Stretch) -> u64
    requires few { length live.now ≤ MAX_JOBS }
    requires live { All (IsLive stretch) live.now }
    requires whole { whole ≡ sum_by (λ rate. rate.whole) live.now }
    ensures { result ≡ sum_by (rate_term stretch) live.now }
{
    let length = u64::from(stretch.length());
    let mut more = 0;
    for rate in live {
        more += rest_of(rate, length);
    }
    whole * length + more
}

/// Whether some live job's part of a stretch isn't whole. It looks no further than the first.
fn is_rounded(live: &[Rate], stretch: Stretch) -> bool
    requires { All (IsLive stretch) live.now }
    ensures { result ≡ list_any (rate_rounds stretch) live.now }
{
    let length = u64::from(stretch.length());
    for rate in live {
        if rounds(rate, length) {
            return true;
        }
    }
    false
}

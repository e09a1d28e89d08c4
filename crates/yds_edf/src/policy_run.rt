ghost use Rattle.std.specs.Prelude.{◌≡◌, ◌+◌, ◌<◌, ◌≤◌, IfOk, OnOk, length, All};
ghost use Rattle.yds_model.specs.Job.{IsJob};
ghost use Rattle.yds_model.specs.Within.{AreSlotsOf};
ghost use Rattle.yds_timetable.specs.Timetable.{slots_of};
ghost use Rattle.yds_timetable.specs.Room.{CanLay};
ghost use Rattle.yds_model.specs.Event.{stretches as job_stretches};
ghost use Rattle.yds_edf.specs.Queue.{Serves};
ghost use Rattle.yds_edf.specs.PolicyRun.{AreRowsOf, IsPolicyRun, PutsRow};

use crate::limits::MAX_STRETCHES;
use crate::policy::Policy;
use crate::queue::Queue;
use std::alloc::Global;
use yds_events::{Stretch, stretches};
use yds_model::limits::{MAX_GRID, MAX_JOBS, MAX_ROUNDED};
use yds_model::{JobRow, Memory};
use yds_slots::Schedule;
use yds_timetable::{Pace, Share, Timetable, lay};

/// A run of a policy on a grid: the slots that it lays, and at how many event points it rounded.
#[derive(Drop)]
pub struct PolicyRun {
    /// The slots, of as many jobs as the run was given.
    pub schedule: Schedule,
    /// The number of event points at which the policy rounded.
    pub rounded: u32,
}

/// The same before its slots are laid: what each stretch serves.
#[derive(Drop)]
pub struct PolicyTimetable {
    /// The jobs' stretches, each with its shares.
    pub timetable: Timetable,
    /// The number of event points at which the policy rounded.
    pub rounded: u32,
}

impl PolicyTimetable {
    /// The run with its slots, of so many jobs.
    pub fn laid(&self, alloc: Global, jobs: u32) -> Result<PolicyRun, Memory>
        requires { CanLay jobs self.now.timetable }
        ensures slots { IfOk result (λ run. run.schedule.slots ≡ slots_of self.now.timetable) }
        ensures jobs { IfOk result (λ run. run.schedule.jobs ≡ jobs) }
        ensures limits { IfOk result (λ run. AreSlotsOf jobs run.schedule.slots) }
        ensures count { IfOk result (λ run. run.rounded ≡ self.now.rounded) }
    {
        let schedule = lay(alloc, jobs, &self.timetable)?;
        let _slots = schedule.slots();
        Ok(PolicyRun {
            schedule,
            rounded: self.rounded,
        })
    }
}

/// The run of a policy on a grid of one part in `grid` of a unit of work: at each event point the jobs that are released
/// arrive, and as many units as the policy sets are served until the next one, earliest deadline first, jobs of the same
/// deadline in order of their numbers. The slots of a stretch fill it at one speed.
pub fn run_policy<P: Policy>(
    alloc: Global,
    rows: &[JobRow],
    grid: u32,
    policy: &mut P,
) -> Result<PolicyRun, Memory>
    requires few { length rows.now ≤ MAX_JOBS }
    requires some_grid { 1 ≤ grid }
    requires grid_in_range { grid ≤ MAX_GRID }
    requires keeps { P.keeps policy.old rows.now 0 }
    ensures run { IfOk result (λ run.
        IsPolicyRun rows.now grid (P.units policy.old rows.now grid) (P.rounds policy.old rows.now grid) run.rounded run.schedule.slots) }
    ensures jobs { IfOk result (λ run. run.schedule.jobs ≡ length rows.now) }
    ensures count_in_range { IfOk result (λ run. run.rounded ≤ MAX_ROUNDED) }
    ensures rows { OnOk result (All IsJob rows.now) }
    ensures limits { IfOk result (λ run. AreSlotsOf (length rows.now) run.schedule.slots) }
{
    let timeline = stretches(alloc, rows)?;
    let served = serve_policy(alloc, rows, &timeline, grid, policy)?;
    served.laid(alloc, rows.len() as u32)
}

/// The same before the slots are laid, for who needs what each stretch serves and no slots. The stretches are those of the jobs.
pub fn serve_policy<P: Policy>(
    alloc: Global,
    rows: &[JobRow],
    stretches: &[Stretch],
    grid: u32,
    policy: &mut P,
) -> Result<PolicyTimetable, Memory>
    requires few { length rows.now ≤ MAX_JOBS }
    requires stretches { stretches.now ≡ job_stretches rows.now }
    requires some_grid { 1 ≤ grid }
    requires grid_in_range { grid ≤ MAX_GRID }
    requires keeps { P.keeps policy.old rows.now 0 }
    ensures run { IfOk result (λ run.
        IsPolicyRun rows.now grid (P.units policy.old rows.now grid) (P.rounds policy.old rows.now grid) run.rounded (slots_of run.timetable)) }
    ensures stretches { IfOk result (λ run. AreRowsOf rows.now grid run.timetable) }
    ensures count_in_range { IfOk result (λ run. run.rounded ≤ MAX_ROUNDED) }
    ensures rows { OnOk result (All IsJob rows.now) }
    ensures room { IfOk result (λ run. CanLay (length rows.now) run.timetable) }
{
    let mut queue = Queue::new(alloc, rows, u64::from(grid))?;
    let mut timetable = Timetable::new(alloc);
    let mut shares = Vec::new(alloc);
    let mut rounded = 0;
    for (number, stretch) in stretches.iter().enumerate() {
        queue.arrive(stretch.from);
        let number = number as u32;
        let setting = policy.set(number, &queue, *stretch);
        serve_stretch(
            &mut queue,
            *stretch,
            setting.units,
            &mut shares,
            &mut timetable,
        )?;
        rounded += u32::from(setting.rounds);
    }
    let _rows = queue.rows();
    Ok(PolicyTimetable { timetable, rounded })
}

/// Serves the next stretch, and puts it into the timetable with what it serves. The list has its shares then.
fn serve_stretch(
    queue: &mut Queue,
    stretch: Stretch,
    units: u64,
    shares: &mut Vec<Share>,
    timetable: &mut Timetable,
) -> Result<(), Memory>
    requires grid_in_range { queue.old.grain ≤ MAX_GRID }
    requires few { length timetable.old ≤ MAX_STRETCHES }
    ensures serves { OnOk result (Serves queue.old queue.new (length timetable.old) units shares.new.items) }
    ensures puts { OnOk result (PutsRow queue.old.grain stretch shares.new.items timetable.old timetable.new) }
{
    let grain = queue.grain();
    let served = units.min(queue.pending());
    queue.serve_into(timetable.len() as u32, units, shares)?;
    let pace = Pace::filling(served, stretch, grain);
    timetable.push(stretch, pace, shares)
}

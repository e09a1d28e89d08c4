ghost use Rattle.std.specs.Prelude.{◌≡◌, ◌≤◌, ℕ, List, [], length, filter, IfOk};
ghost use Rattle.base.specs.declared.limits.TheConstants.{MAX_JOBS};
ghost use Rattle.yds_model.specs.Event.{stretches};
ghost use Rattle.yds_model.specs.Plan.{IsPlan};
ghost use Rattle.yds_intensity.specs.DeadlineOrder.{IsDeadlineOrder};
ghost use Rattle.yds_plan.specs.Timetabled.{IsTimetabled};
ghost use Rattle.yds_textbook.specs.Waiting.{job_has_work};
ghost use Rattle.yds_textbook.specs.Stages.{AreStages};
ghost use Rattle.yds_textbook.specs.Theorem.{AreOfTextbook};

use crate::stage::{Stage, stage_of};
use crate::together::found_of;
use crate::waiting::{Left, jobs_with_work, next_interval, parted};
use std::alloc::Global;
use yds_contract::Contraction;
use yds_events::{Stretch, stretches};
use yds_model::{JobRow, Memory};
use yds_plan::{Planned, lay_out, read_rows};

/// The stages of the textbook's way, one for each critical interval: the jobs inside it are served at its intensity, earliest
/// deadline first, and then its time is taken away from the other jobs' windows. `timeline` are the stretches between the jobs'
/// event points.
pub fn stages(alloc: Global, rows: &[JobRow], timeline: &[Stretch]) -> Result<Vec<Stage>, Memory>
    requires few { length rows.now ≤ MAX_JOBS }
    requires timeline { timeline.now ≡ stretches rows.now }
    ensures { IfOk result (λ stages. (order : List ℕ) × IsDeadlineOrder rows.now order
        × AreStages rows.now [] (filter (job_has_work rows.now) order) stages.items) }
{
    let mut waiting = jobs_with_work(alloc, rows)?;
    let mut taken = Contraction::new(alloc);
    let mut stages = Vec::new(alloc);
    while let Some(interval) = next_interval(alloc, rows, &taken, &waiting)? {
        let (members, others) = parted(alloc, rows, &taken, &waiting, &interval)?;
        let left = Left {
            rows,
            timeline,
            taken: &taken,
            waiting: &waiting,
        };
        let stage = stage_of(alloc, &left, members, &interval)?;
        stages.push(stage)?;
        taken.remove(interval.start, interval.end)?;
        waiting = others;
    }
    Ok(stages)
}

/// The plan as Yao, Demers and Shenker tell it (FOCS 1995): critical interval after critical interval in the time that is left,
/// each at its intensity. Intervals of the same intensity make one level.
pub fn textbook(alloc: Global, rows: &[JobRow]) -> Result<Planned, Memory>
    requires { length rows.now ≤ MAX_JOBS }
    ensures stages { IfOk result (λ planned. AreOfTextbook rows.now planned.schedule.slots planned.certificate) }
    ensures plan { IfOk result (λ planned. IsPlan rows.now planned.schedule.slots planned.certificate) }
    ensures jobs { IfOk result (λ planned. planned.schedule.jobs ≡ length rows.now) }
    ensures timetable { IfOk result (λ planned. IsTimetabled rows.now planned.timetable planned.level_of_stretch.items planned.schedule.slots planned.certificate) }
{
    read_rows(rows);
    let timeline = stretches(alloc, rows)?;
    let stages = stages(alloc, rows, &timeline)?;
    let found = found_of(alloc, rows, &timeline, &stages)?;
    lay_out(alloc, rows, &timeline, &found)
}

ghost use Rattle.std.specs.Prelude.{◌≡◌, ◌≤◌, length, IfOk};
ghost use Rattle.std.specs.List.{All};
ghost use Rattle.base.specs.declared.limits.TheConstants.{MAX_JOBS};
ghost use Rattle.yds_model.specs.Job.{IsJob};
ghost use Rattle.yds_model.specs.Plan.{IsPlan};
ghost use Rattle.yds_plan.specs.PlanLevels.{AreLevelsOfPlan};
ghost use Rattle.yds_plan.specs.Timetabled.{IsTimetabled};

use crate::layout::{Planned, lay_out, levels_of_found};
use std::alloc::Global;
use yds_certificate::Certificate;
use yds_events::Timeline;
use yds_model::{JobRow, Memory};
use yds_search::find;

/// Shows that each row is a job within the limits, which is what a row keeps: reading it shows so.
pub fn read_rows(rows: &[JobRow])
    ensures { All IsJob rows.now }
{
    for row in rows {
        let _release = row.release;
    }
}

/// The offline plan of Yao, Demers and Shenker (FOCS 1995): a schedule that does, above every speed, the
/// least work that any feasible schedule does, and the certificate that shows it.
///
/// The jobs are in earliest-deadline order. Each slot lies in one stretch between event points, and there
/// is one for a job and stretch. The certificate's levels fall strictly in speed.
pub fn plan(alloc: Global, rows: &[JobRow]) -> Result<Planned, Memory>
    requires { length rows.now ≤ MAX_JOBS }
    ensures plan { IfOk result (λ planned. IsPlan rows.now planned.schedule.slots planned.certificate) }
    ensures jobs { IfOk result (λ planned. planned.schedule.jobs ≡ length rows.now) }
    ensures timetable { IfOk result (λ planned. IsTimetabled rows.now planned.timetable planned.level_of_stretch.items planned.schedule.slots planned.certificate) }
{
    read_rows(rows);
    let timeline = Timeline::new(alloc, rows)?;
    let found = find(alloc, rows, &timeline)?;
    lay_out(alloc, rows, &timeline.stretches, &found)
}

/// The levels of the offline plan, without its slots: none is laid for them.
///
/// With the slots that `plan` lays they are a plan of the jobs. By a law two plans of the same jobs have the same levels.
pub fn plan_levels(alloc: Global, rows: &[JobRow]) -> Result<Certificate, Memory>
    requires { length rows.now ≤ MAX_JOBS }
    ensures { IfOk result (AreLevelsOfPlan rows.now) }
{
    read_rows(rows);
    let timeline = Timeline::new(alloc, rows)?;
    let found = find(alloc, rows, &timeline)?;
    let (levels, _) = levels_of_found(alloc, &timeline.stretches, &found)?;
    Ok(Certificate::from_levels(levels))
}

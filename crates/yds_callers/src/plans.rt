//! Calls `yds_plan`.

ghost use Rattle.std.specs.Prelude.{◌≤◌, length, IfOk};
ghost use Rattle.yds_model.specs.Excess.{IsLeast};

use std::alloc::Global;
use yds_laws::plans_are_least;
use yds_model::limits::MAX_JOBS;
use yds_model::{JobRow, Memory};
use yds_plan::plan;
use yds_slots::Schedule;

/// A schedule of these jobs that does, above every speed, the least work that any feasible schedule does.
pub fn least_schedule(alloc: Global, rows: &[JobRow]) -> Result<Schedule, Memory>
    requires { length rows.now ≤ MAX_JOBS }
    ensures { IfOk result (λ schedule. IsLeast rows.now schedule.slots) }
{
    let planned = plan(alloc, rows)?;
    // The law of what a plan is worth.
    plans_are_least();
    Ok(planned.schedule)
}

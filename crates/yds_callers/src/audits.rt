//! Calls `yds_audit`.

ghost use Rattle.std.specs.Prelude.{◌≡◌, ◌≤◌, ◌↔◌, length, IsTrue};
ghost use Rattle.yds_model.specs.Feasible.{IsFeasible};

use yds_audit::{Verdict, audit};
use yds_model::JobRow;
use yds_model::limits::MAX_JOBS;
use yds_slots::Schedule;

/// Whether the schedule runs one job at a time, each in its window, and gives each job its work. Takes no memory.
pub fn is_feasible(rows: &[JobRow], schedule: &Schedule) -> bool
    requires jobs { schedule.now.jobs ≡ length rows.now }
    requires few { length rows.now ≤ MAX_JOBS }
    ensures { IsTrue result ↔ IsFeasible rows.now schedule.now.slots }
{
    match audit(rows, schedule, None) {
        Verdict::Feasible => true,
        _ => false,
    }
}

//! Calls `yds_oa`.

ghost use Rattle.std.specs.Prelude.{◌≡◌, ◌≤◌, ℕ, List, length, None, IfOk, IfSome};
ghost use Rattle.yds_laws.specs.RunLaws.{IsExactOptimalAvailable};
ghost use Rattle.yds_model.specs.OptimalAvailable.{IsOptimalAvailableRun};
ghost use Rattle.yds_model.specs.Slot.{WrittenSlot};

use std::alloc::Global;
use yds_laws::optimal_available_is_exact;
use yds_model::limits::{MAX_GRID, MAX_JOBS};
use yds_model::{JobRow, Memory};
use yds_oa::oa;
use yds_slots::Schedule;

/// The schedule of Optimal Available itself, or None where its run rounds on this grid: the greatest quotient of some
/// stretch isn't whole.
pub fn exact_optimal_available(
    alloc: Global,
    rows: &[JobRow],
    grid: u32,
) -> Result<Option<Schedule>, Memory>
    requires few { length rows.now ≤ MAX_JOBS }
    requires some_grid { 1 ≤ grid }
    requires grid_in_range { grid ≤ MAX_GRID }
    ensures exact { IfOk result (λ exact. IfSome exact (λ schedule. IsExactOptimalAvailable rows.now grid schedule.slots)) }
    ensures none { IfOk result (λ exact. exact ≡ None → (rounded : ℕ) × (slots : List WrittenSlot) × (1 ≤ rounded) × IsOptimalAvailableRun rows.now grid rounded slots) }
{
    let run = oa(alloc, rows, grid)?;
    if run.rounded > 0 {
        return Ok(None);
    }
    optimal_available_is_exact();
    Ok(Some(run.schedule))
}

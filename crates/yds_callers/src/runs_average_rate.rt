//! Calls `yds_avr`.

ghost use Rattle.std.specs.Prelude.{◌≡◌, ◌≤◌, ℕ, List, length, None, IfOk, IfSome};
ghost use Rattle.yds_laws.specs.RunLaws.{IsExactAverageRate};
ghost use Rattle.yds_model.specs.AverageRate.{IsAverageRateRun};
ghost use Rattle.yds_model.specs.Slot.{WrittenSlot};

use std::alloc::Global;
use yds_avr::avr;
use yds_laws::average_rate_is_exact;
use yds_model::limits::{MAX_GRID, MAX_JOBS};
use yds_model::{JobRow, Memory};
use yds_slots::Schedule;

/// The schedule of Average Rate itself, or None where its run rounds on this grid: some job's part of a stretch isn't whole.
pub fn exact_average_rate(
    alloc: Global,
    rows: &[JobRow],
    grid: u32,
) -> Result<Option<Schedule>, Memory>
    requires few { length rows.now ≤ MAX_JOBS }
    requires some_grid { 1 ≤ grid }
    requires grid_in_range { grid ≤ MAX_GRID }
    ensures exact { IfOk result (λ exact. IfSome exact (λ schedule. IsExactAverageRate rows.now grid schedule.slots)) }
    ensures none { IfOk result (λ exact. exact ≡ None → (rounded : ℕ) × (slots : List WrittenSlot) × (1 ≤ rounded) × IsAverageRateRun rows.now grid rounded slots) }
{
    let run = avr(alloc, rows, grid)?;
    if run.rounded > 0 {
        return Ok(None);
    }
    average_rate_is_exact();
    Ok(Some(run.schedule))
}

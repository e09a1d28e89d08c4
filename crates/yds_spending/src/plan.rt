ghost use Rattle.std.specs.Prelude.{◌≡◌, List, IfOk};
ghost use Rattle.std.specs.List.{All};
ghost use Rattle.yds_model.specs.Job.{IsJob};
ghost use Rattle.yds_model.specs.Slot.{WrittenSlot};
ghost use Rattle.yds_model.specs.Plan.{IsPlan};
ghost use Rattle.yds_model.specs.Rounding.{IsTooFast};
ghost use Rattle.yds_model.specs.Comparison.{IsSpent};

use crate::load::loads_of_levels;
use crate::spent::{Spent, spend};
use std::alloc::Global;
use yds_certificate::Level;
use yds_events::horizon;
use yds_model::{JobRow, Memory};
use yds_table::Table;

/// What a plan of these levels spends, level by level. All slots with which they are a plan spend the same.
///
/// The stretches of a level run at its speed and are together as long as it, so no finer parts are needed than those of the hull.
pub fn plan_spent(
    alloc: Global,
    rows: &[JobRow],
    levels: &[Level],
    table: &Table,
) -> Result<Spent, Memory>
    requires jobs { All IsJob rows.now }
    requires plan { (slots : List WrittenSlot) × IsPlan rows.now slots levels.now }
    requires fast_enough { All (λ level. ¬ (IsTooFast table.now level)) levels.now }
    ensures { IfOk result (λ spent. (slots : List WrittenSlot) → IsPlan rows.now slots levels.now → IsSpent rows.now table.now slots spent) }
{
    // Reading the hull shows that its speeds rise.
    let _hull = table.hull();
    let loads = loads_of_levels(alloc, levels, u64::from(horizon(rows)))?;
    spend(alloc, &loads, 1, table)
}

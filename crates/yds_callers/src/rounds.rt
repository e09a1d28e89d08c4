//! Calls `yds_round`.

ghost use Rattle.std.specs.Prelude.{◌≡◌, ◌≤◌, ◌⊎◌, length, List, IfOk, IfErr};
ghost use Rattle.yds_model.specs.Level.{Level};
ghost use Rattle.yds_model.specs.Plan.{IsPlan};
ghost use Rattle.yds_model.specs.Rounding.{IsRounding};
ghost use Rattle.yds_model.specs.Slot.{WrittenSlot};
ghost use Rattle.yds_round.specs.Fault.{IsCauseOfRoundFault};

use std::alloc::Global;
use yds_fraction::Amount;
use yds_model::JobRow;
use yds_model::limits::MAX_JOBS;
use yds_plan::plan;
use yds_round::{RoundFault, round};
use yds_table::Table;

/// What a plan of these jobs spends on the operating points of the table, with the idle time, in lowest terms. The fault tells
/// the level that the points are too slow for.
pub fn energy_on_points(alloc: Global, rows: &[JobRow], table: &Table) -> Result<Amount, RoundFault>
    requires { length rows.now ≤ MAX_JOBS }
    ensures energy { IfOk result (λ energy. (slots : List WrittenSlot) × (levels : List Level) × (rounded : List WrittenSlot)
        × IsPlan rows.now slots levels × IsRounding rows.now table.now slots levels rounded energy) }
    ensures cause { IfErr result (λ fault. (fault ≡ RoundFault.Memory) ⊎ ((slots : List WrittenSlot) × (levels : List Level)
        × IsPlan rows.now slots levels × IsCauseOfRoundFault levels table.now fault)) }
{
    let planned = plan(alloc, rows)?;
    let rounded = round(alloc, rows, &planned, table)?;
    Ok(rounded.energy)
}

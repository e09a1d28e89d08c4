ghost use Rattle.std.specs.Prelude.{◌≡◌, ◌≤◌, List, length, IfOk, IfErr, Err};
ghost use Rattle.base.specs.declared.limits.TheConstants.{MAX_GRID, MAX_JOBS, MAX_ROUNDED};
ghost use Rattle.yds_model.specs.Slot.{WrittenSlot};
ghost use Rattle.yds_model.specs.Plan.{IsPlan};
ghost use Rattle.yds_model.specs.Comparison.{IsSpent};
ghost use Rattle.yds_model.specs.AverageRate.{IsAverageRateRun};
ghost use Rattle.yds_model.specs.OptimalAvailable.{IsOptimalAvailableRun};
ghost use Rattle.yds_plan.specs.PlanLevels.{AreLevelsOfPlan};
ghost use Rattle.yds_round.specs.Fault.{IsCauseOfRoundFault, HasFastLevel, too_slow};
ghost use Rattle.yds_compare.specs.Side.{IsSideOfRun};

use crate::side::{Side, side_of};
use std::alloc::Global;
use yds_avr::avr_timetable;
use yds_certificate::Certificate;
use yds_events::stretches;
use yds_model::{JobRow, Memory};
use yds_oa::oa_timetable;
use yds_round::{RoundFault, fault_of};
use yds_spending::{Spent, plan_spent};
use yds_table::Table;

/// What a plan and the runs of both policies on a grid spend on the operating points of a table.
#[derive(Debug, Drop)]
pub struct Comparison {
    /// The plan's energy and times.
    pub plan: Spent,
    /// The side of Average Rate.
    pub avr: Side,
    /// The number of event points at which Average Rate rounded.
    pub avr_rounded: u32,
    /// The side of Optimal Available.
    pub oa: Side,
    /// The number of event points at which Optimal Available rounded.
    pub oa_rounded: u32,
}

/// Compares the plan of these jobs with the runs of Average Rate and of Optimal Available on the grid. Of the plan the levels are
/// enough: all slots with which they are a plan spend the same.
///
/// Each stretch between event points runs at the points of the table's lower hull around its speed, as long at each as gives that
/// speed. Where the plan's first level is faster than the last point, that is told as by `round`, before any memory is taken.
#[tactic(auto, using(yds_spending::proofs::Lengths::no_longer))]
pub fn compare(
    alloc: Global,
    rows: &[JobRow],
    certificate: &Certificate,
    table: &Table,
    grid: u32,
) -> Result<Comparison, RoundFault>
    requires few { length rows.now ≤ MAX_JOBS }
    requires plan { AreLevelsOfPlan rows.now certificate.now }
    requires some_grid { 1 ≤ grid }
    requires grid_in_range { grid ≤ MAX_GRID }
    ensures plan { IfOk result (λ compared. (slots : List WrittenSlot) → IsPlan rows.now slots certificate.now → IsSpent rows.now table.now slots compared.plan) }
    ensures average_rate { IfOk result (λ compared.
        IsSideOfRun (IsAverageRateRun rows.now grid compared.avr_rounded) rows.now table.now grid compared.avr) }
    ensures optimal_available { IfOk result (λ compared.
        IsSideOfRun (IsOptimalAvailableRun rows.now grid compared.oa_rounded) rows.now table.now grid compared.oa) }
    ensures counts_in_range { IfOk result (λ compared. (compared.avr_rounded ≤ MAX_ROUNDED) × (compared.oa_rounded ≤ MAX_ROUNDED)) }
    ensures cause { IfErr result (IsCauseOfRoundFault certificate.now table.now) }
    ensures too_slow { HasFastLevel certificate.now table.now → result ≡ Err (too_slow certificate.now table.now) }
{
    let levels = certificate.levels();
    if let Some(fault) = fault_of(table, levels) {
        return Err(fault);
    }
    let timeline = stretches(alloc, rows)?;
    let spent = plan_spent(alloc, rows, levels, table)?;
    let average = avr_timetable(alloc, rows, &timeline, grid)?;
    let optimal = oa_timetable(alloc, rows, &timeline, grid)?;
    Ok(Comparison {
        plan: spent,
        avr: side_of(alloc, rows, &average.timetable, table, grid)?,
        avr_rounded: average.rounded,
        oa: side_of(alloc, rows, &optimal.timetable, table, grid)?,
        oa_rounded: optimal.rounded,
    })
}

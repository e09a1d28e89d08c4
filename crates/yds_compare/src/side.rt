ghost use Rattle.std.specs.Prelude.{◌≡◌, ◌≤◌, IfOk, sum_by};
ghost use Rattle.base.specs.declared.limits.TheConstants.{MAX_GRID, MAX_TIME};
ghost use Rattle.yds_model.specs.Event.{stretches as job_stretches};
ghost use Rattle.yds_model.specs.Comparison.{IsSide};
ghost use Rattle.yds_events.specs.Stretch.{length_of};
ghost use Rattle.yds_timetable.specs.Timetable.{slots_of};
ghost use Rattle.yds_edf.specs.PolicyRun.{AreRowsOf};
ghost use Rattle.yds_compare.specs.Side.{side_view};

use crate::load::{first_above, loads_of};
use std::alloc::Global;
use yds_model::{JobRow, Memory};
use yds_spending::{Spent, spend};
use yds_table::Table;
use yds_timetable::Timetable;

/// What the run of a policy spends, or the first stretch for which the table's last point is too slow.
#[derive(Debug, Drop)]
pub enum Side {
    /// The run's energy and times.
    Spent(Spent),
    /// The stretch serves more than the last point can.
    TooSlow {
        /// What the stretch serves, in parts of a unit of work of which `grid` make one.
        units: u64,
        /// Where the stretch begins, in time units.
        from: u32,
        /// Where it ends, in time units.
        to: u32,
    },
}

/// The side of a run on the grid, which has this timetable.
pub(crate) fn side_of(
    alloc: Global,
    rows: &[JobRow],
    run: &Timetable,
    table: &Table,
    grid: u32,
) -> Result<Side, Memory>
    requires some_grid { 1 ≤ grid }
    requires grid_in_range { grid ≤ MAX_GRID }
    requires time_in_range { sum_by length_of (job_stretches rows.now) ≤ MAX_TIME }
    requires run { AreRowsOf rows.now grid run.now }
    ensures { IfOk result (λ side. IsSide rows.now table.now grid (slots_of run.now) (side_view side)) }
{
    let loads = loads_of(alloc, run, u64::from(grid))?;
    let Some(place) = first_above(&loads, table.top()) else {
        let spent = spend(alloc, &loads, u64::from(grid), table)?;
        return Ok(Side::Spent(spent));
    };
    let stretch = run.stretch(place);
    Ok(Side::TooSlow {
        units: loads[place].work,
        from: stretch.from,
        to: stretch.to,
    })
}

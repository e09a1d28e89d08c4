ghost use Rattle.std.specs.Prelude.{◌≡◌, ◌≤◌, length, IfOk, MatchOption};
ghost use Rattle.std.specs.List.{All};
ghost use Rattle.base.specs.declared.limits.TheConstants.{MAX_GRID};
ghost use Rattle.base.specs.Numbers.{IsFirstFailure};
ghost use Rattle.yds_compare.specs.Load.{loads_of};
ghost use Rattle.yds_spending.specs.Load.{load_at, IsHeldAt};

use std::alloc::Global;
use yds_model::Memory;
use yds_spending::Load;
use yds_timetable::Timetable;

/// What a timetable does in each of its stretches, in parts of which `grid` make a unit.
pub(crate) fn loads_of(alloc: Global, run: &Timetable, grid: u64) -> Result<Vec<Load>, Memory>
    requires grid_in_range { grid ≤ MAX_GRID }
    ensures { IfOk result (λ loads. loads.items ≡ loads_of grid run.now) }
{
    let mut loads = Vec::with_capacity(alloc, run.len())?;
    for number in 0..run.len() {
        loads.push(Load {
            time: u64::from(run.stretch(number).length()) * grid,
            work: run.units(number),
        })?;
    }
    Ok(loads)
}

/// The place of the first load that is faster than this speed, in work per time unit.
pub(crate) fn first_above(loads: &[Load], top: u32) -> Option<usize>
    ensures { MatchOption result
        (All (IsHeldAt top) loads.now)
        (IsFirstFailure (length loads.now) (λ i. IsHeldAt top (load_at loads.now i))) }
{
    for (place, load) in loads.iter().enumerate() {
        if u128::from(load.work) > u128::from(top) * u128::from(load.time) {
            return Some(place);
        }
    }
    None
}

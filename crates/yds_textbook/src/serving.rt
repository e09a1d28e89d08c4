ghost use Rattle.std.specs.Prelude.{◌≡◌, ◌*◌, ◌≤◌, length, map, IfOk};
ghost use Rattle.std.specs.List.{All, range_with_len};
ghost use Rattle.base.specs.declared.limits.TheConstants.{MAX_JOBS};
ghost use Rattle.yds_model.specs.Piece.{PiecesFrom};
ghost use Rattle.yds_edf.specs.Demand.{AreUncut, IsWithinCapacity};
ghost use Rattle.yds_edf.specs.Filled.{IsFilled};
ghost use Rattle.yds_textbook.specs.Served.{capacity_of};

use std::alloc::{AllocError, Global};
use yds_edf::fill;
use yds_events::Stretch;
use yds_fraction::Speed;
use yds_model::{JobRow, Memory};
use yds_timetable::Share;

/// The units that each stretch serves at this speed, of which a unit of work has as many as the speed's denominator.
fn capacities(alloc: Global, stretches: &[Stretch], speed: Speed) -> Result<Vec<u64>, Memory>
    ensures { IfOk result (λ capacities. capacities.items ≡ map (capacity_of speed) stretches.now) }
{
    let mut capacities = Vec::new(alloc);
    for stretch in stretches {
        capacities.push(speed.num() * u64::from(stretch.length()))?;
    }
    Ok(capacities)
}

/// The numbers below this one, in order.
fn numbers_below(alloc: Global, count: u32) -> Result<Vec<u32>, AllocError>
    ensures { IfOk result (λ numbers. numbers.items ≡ range_with_len 0 count) }
{
    (0..count).collect(alloc)
}

/// What each job gets in each of these stretches at this speed, earliest deadline first, and of jobs of the same deadline the
/// first in the list. The speed is in lowest terms, and the stretches serve at it whatever jobs demand between two times.
pub(crate) fn serve(
    alloc: Global,
    rows: &[JobRow],
    stretches: &[Stretch],
    speed: Speed,
) -> Result<Vec<Share>, Memory>
    requires few { length rows.now ≤ MAX_JOBS }
    requires few_stretches { length stretches.now ≤ 2 * MAX_JOBS }
    requires some { 1 ≤ speed.den }
    requires in_order { PiecesFrom 0 stretches.now }
    requires uncut { AreUncut rows.now stretches.now }
    requires demand { IsWithinCapacity rows.now speed.den stretches.now (map (capacity_of speed) stretches.now) }
    ensures { IfOk result (λ shares. IsFilled rows.now (range_with_len 0 (length rows.now)) speed.den stretches.now
        (map (capacity_of speed) stretches.now) shares.items) }
{
    let capacities = capacities(alloc, stretches, speed)?;
    let ties = numbers_below(alloc, rows.len() as u32)?;
    fill(alloc, rows, &ties, speed.den(), stretches, &capacities)
}

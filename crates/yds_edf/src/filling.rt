ghost use Rattle.std.specs.Prelude.{◌≡◌, ◌≤◌, IfOk, length, ◌*◌, All};
ghost use Rattle.yds_model.specs.Piece.{PiecesFrom};
ghost use Rattle.yds_edf.specs.Serving.{AreTies};
ghost use Rattle.yds_edf.specs.Demand.{AreUncut, IsWithinCapacity};
ghost use Rattle.yds_edf.specs.Filled.{IsFilled};

use crate::engine::Engine;
use crate::limits::{MAX_GRAIN, MAX_STRETCHES};
use std::alloc::Global;
use yds_events::Stretch;
use yds_model::limits::{MAX_JOBS, MAX_WORK};
use yds_model::{JobRow, Memory};
use yds_timetable::Share;

/// Fills stretches of given capacities earliest deadline first, jobs of the same deadline in order of
/// their ties. Each job has `work * grain` units.
///
/// Where the units confined between any release and any deadline are at most the capacity between them,
/// every job gets all its units inside its window.
pub fn fill(
    alloc: Global,
    rows: &[JobRow],
    ties: &[u32],
    grain: u64,
    stretches: &[Stretch],
    capacities: &[u64],
) -> Result<Vec<Share>, Memory>
    requires few_jobs { length rows.now ≤ MAX_JOBS }
    requires some_grain { 1 ≤ grain }
    requires grain_in_range { grain ≤ MAX_GRAIN }
    requires few_stretches { length stretches.now ≤ MAX_STRETCHES }
    requires in_order { PiecesFrom 0 stretches.now }
    requires all_capacities { length capacities.now ≡ length stretches.now }
    requires all_tied { length ties.now ≡ length rows.now }
    requires told_apart { AreTies ties.now }
    requires uncut { AreUncut rows.now stretches.now }
    requires demand { IsWithinCapacity rows.now grain stretches.now capacities.now }
    ensures works { IfOk result (λ shares. All (λ share. share.units ≤ MAX_WORK * grain) shares.items) }
    ensures filled { IfOk result (λ shares. IsFilled rows.now ties.now grain stretches.now capacities.now shares.items) }
{
    let ties = Vec::from_slice(alloc, ties)?;
    let mut engine = Engine::new(alloc, rows, ties, grain)?;
    let mut shares = Vec::new(alloc);
    let mut served = Vec::new(alloc);
    for (number, stretch) in stretches.iter().enumerate() {
        engine.arrive(stretch.from);
        engine.serve(number as u32, capacities[number], &mut served)?;
        shares.append(&mut served)?;
    }
    Ok(shares)
}

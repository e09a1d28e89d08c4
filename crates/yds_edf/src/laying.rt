ghost use Rattle.std.specs.Prelude.{◌≡◌, ◌*◌, ◌/◌, ◌≤◌, IfOk};
ghost use Rattle.std.specs.List.{All};
ghost use Rattle.base.specs.declared.limits.TheConstants.{MAX_DENOMINATOR, MAX_WORK};
ghost use Rattle.yds_model.specs.Divisor.{common_divisor};
ghost use Rattle.yds_events.specs.Stretch.{length_of};
ghost use Rattle.yds_timetable.specs.Shares.{total_units};
ghost use Rattle.yds_timetable.specs.Pace.{lowest_pace, slots_from};
ghost use Rattle.yds_edf.specs.Laid.{IsLaidIn, FillStretch};

use crate::limits::{MAX_CAPACITY, MAX_GRAIN};
use std::alloc::Global;
use yds_events::Stretch;
use yds_model::Memory;
use yds_model::limits::{MAX_DENOMINATOR, MAX_WORK};
use yds_slots::Slot;
use yds_timetable::{Pace, Share, slots_at};

/// Lays the shares of a stretch out as slots, in order from its start and without a gap, at the one speed
/// at which the stretch serves its capacity. Capacity and shares are in units, of which a unit of work has
/// `grain`. A policy's run goes by a timetable instead, of which all slots are laid at once.
///
/// An end that isn't whole has the denominator `capacity / gcd(capacity, length)`, and a work that isn't
/// whole has `grain`.
pub fn lay(
    alloc: Global,
    stretch: Stretch,
    capacity: u64,
    grain: u64,
    shares: &[Share],
) -> Result<Vec<Slot>, Memory>
    requires enough { total_units shares.now ≤ capacity }
    requires some_capacity { 1 ≤ capacity }
    requires capacity_in_range { capacity ≤ MAX_CAPACITY }
    requires times_in_range { capacity / common_divisor capacity (length_of stretch) ≤ MAX_DENOMINATOR }
    requires some_grain { 1 ≤ grain }
    requires grain_in_range { grain ≤ MAX_GRAIN }
    requires works_in_range { All (λ share. share.units ≤ MAX_WORK * grain) shares.now }
    ensures slots { IfOk result (λ slots. slots.items ≡ slots_from (lowest_pace capacity stretch grain) stretch.from 0 shares.now) }
    ensures runs { IfOk result (λ slots. All (IsLaidIn stretch capacity grain) slots.items) }
    ensures full { total_units shares.now ≡ capacity → IfOk result (λ slots. FillStretch stretch capacity grain slots.items) }
{
    let Some(pace) = Pace::filling(capacity, stretch, grain) else {
        unreachable!()
    };
    let slots = slots_at(alloc, pace, stretch.from, shares)?;
    Ok(slots)
}

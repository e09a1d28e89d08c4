ghost use Rattle.std.specs.Prelude.{◌≡◌, ℕ, ◌<◌, ◌≤◌, length, map, slice_get, IfOk};
ghost use Rattle.std.specs.List.{All};
ghost use Rattle.base.specs.declared.limits.TheConstants.{MAX_JOBS};
ghost use Rattle.yds_model.specs.Job.{IsJob};
ghost use Rattle.yds_model.specs.Event.{stretches};
ghost use Rattle.yds_search.specs.Found.{IsFound, group_at};
ghost use Rattle.yds_search.specs.Views.{group_view, found_view};
ghost use Rattle.yds_plan.specs.Laid.{pace_of_group, rows_found};

use std::alloc::Global;
use yds_events::Stretch;
use yds_fraction::gcd;
use yds_model::{JobRow, Memory};
use yds_search::{Found, Group};
use yds_timetable::{Pace, Timetable};

/// The group's speed in lowest terms: a unit is one part of a unit of work, and so many fill a time unit.
fn pace_of(group: &Group) -> Pace
    requires some_work { 1 ≤ group.now.work }
    requires some_length { 1 ≤ group.now.length }
    ensures { result ≡ pace_of_group (group_view group.now) }
{
    let divisor = gcd(group.work, group.length);
    Pace {
        units: group.work / divisor,
        time: 1,
        grain: group.length / divisor,
    }
}

/// The pace of each group.
fn paces_of_groups(alloc: Global, groups: &[Group]) -> Result<Vec<Pace>, Memory>
    requires { (i : ℕ) → i < length groups.now → (1 ≤ (group_at (map group_view groups.now) i).work) × (1 ≤ (group_at (map group_view groups.now) i).length) }
    ensures { IfOk result (λ paces. paces.items ≡ map (λ group. pace_of_group (group_view group)) groups.now) }
{
    let mut paces: Vec<Pace> = Vec::with_capacity(alloc, groups.len())?;
    for group in groups {
        paces.push(pace_of(group))?;
    }
    Ok(paces)
}

/// The timetable of what was found: each stretch at the pace of its group, with its shares, or idle.
pub(crate) fn timetable_of(
    alloc: Global,
    rows: &[JobRow],
    timeline: &[Stretch],
    found: &Found,
) -> Result<Timetable, Memory>
    requires found { IsFound rows.now (found_view found.now) }
    requires jobs { All IsJob rows.now }
    requires few { length rows.now ≤ MAX_JOBS }
    requires timeline { timeline.now ≡ stretches rows.now }
    ensures { IfOk result (λ timetable. timetable ≡ rows_found rows.now (found_view found.now)) }
{
    let paces = paces_of_groups(alloc, &found.groups)?;
    let places = &found.group_of_stretch;
    Timetable::of_shares(alloc, timeline, &paces, places, &found.shares)
}

/// The number of each stretch's level, by the numbers of the groups' levels, or None where it is idle.
pub(crate) fn levels_of_stretches(
    alloc: Global,
    places: &[u32],
    numbers: &[u32],
) -> Result<Vec<Option<u32>>, Memory>
    ensures { IfOk result (λ levels. levels.items ≡ map (slice_get numbers.now) places.now) }
{
    let mut levels = Vec::with_capacity(alloc, places.len())?;
    for place in places {
        levels.push(numbers.get(*place as usize).copied())?;
    }
    Ok(levels)
}

ghost use Rattle.std.specs.Prelude.{◌≡◌, ◌+◌, ◌-◌, ◌*◌, ◌<◌, ◌≤◌, length, map, nat_lt, IfOk, IsTrue};
ghost use Rattle.std.specs.List.{range_with_len};
ghost use Rattle.yds_model.specs.Level.{level_at};
ghost use Rattle.yds_search.specs.Views.{group_view};
ghost use Rattle.yds_plan.specs.Laid.{level_of};
ghost use Rattle.yds_plan.specs.Drafts.{joins_before, with_group, empty_levels, AreGroupsWithin};

use std::alloc::Global;
use yds_certificate::Level;
use yds_model::Memory;
use yds_model::limits::{MAX_LEVEL_LENGTH, MAX_LEVEL_WORK};
use yds_search::Group;

/// Whether the next group is slower than the one before it.
fn slows(before: &Group, next: &Group) -> bool
    ensures { result ≡ nat_lt (next.now.work * before.now.length) (before.now.work * next.now.length) }
{
    u128::from(next.work) * u128::from(before.length)
        < u128::from(before.work) * u128::from(next.length)
}

/// Whether the group at this place has the speed of the one before it.
fn joins(groups: &[Group], place: usize) -> bool
    requires { place < length groups.now }
    ensures { result ≡ joins_before (map group_view groups.now) place }
{
    place > 0 && !slows(&groups[place - 1], &groups[place])
}

/// The group joins the last level, or makes a level of its own.
fn add_group(
    alloc: Global,
    levels: &mut Vec<Level>,
    joins: bool,
    group: &Group,
) -> Result<(), Memory>
    requires some { IsTrue joins → 0 < length levels.old.items }
    requires some_work { 1 ≤ group.now.work }
    requires some_length { 1 ≤ group.now.length }
    requires work { (level_at levels.old.items (length levels.old.items - 1)).work + group.now.work ≤ MAX_LEVEL_WORK }
    requires length { (level_at levels.old.items (length levels.old.items - 1)).length + group.now.length ≤ MAX_LEVEL_LENGTH }
    ensures { IfOk result (λ _. levels.new.items ≡ with_group levels.old.items joins (group_view group.now)) }
{
    if joins {
        let last = levels.len() - 1;
        let level = &mut levels[last];
        level.work += group.work;
        level.length += group.length;
    } else {
        levels.push(Level {
            work: group.work,
            length: group.length,
            pieces: Vec::new(alloc),
            members: Vec::new(alloc),
        })?;
    }
    Ok(())
}

/// The groups' levels without pieces and members, and the number of each group's level.
pub(crate) fn levels_of_groups(
    alloc: Global,
    groups: &[Group],
) -> Result<(Vec<Level>, Vec<u32>), Memory>
    requires { AreGroupsWithin (map group_view groups.now) }
    ensures levels { IfOk result (λ r. r.0.items ≡ empty_levels (map group_view groups.now) (length groups.now)) }
    ensures numbers { IfOk result (λ r. r.1.items ≡ map (level_of (map group_view groups.now)) (range_with_len 0 (length groups.now))) }
{
    let mut levels: Vec<Level> = Vec::with_capacity(alloc, groups.len())?;
    let mut numbers: Vec<u32> = Vec::with_capacity(alloc, groups.len())?;
    for (i, group) in groups.iter().enumerate() {
        add_group(alloc, &mut levels, joins(groups, i), group)?;
        numbers.push(levels.len() as u32 - 1)?;
    }
    Ok((levels, numbers))
}

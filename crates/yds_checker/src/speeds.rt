ghost use Rattle.std.specs.Prelude.{◌≡◌, ◌<◌, ◌≤◌, ◌↔◌, IsTrue, length, MatchOption};
ghost use Rattle.base.specs.declared.limits.TheConstants.{MAX_WORK, MAX_SLOTS};
ghost use Rattle.base.specs.Numbers.{Each};
ghost use Rattle.yds_model.specs.Level.{all_members};
ghost use Rattle.yds_model.specs.Proper.{StandsOnce};
ghost use Rattle.yds_model.specs.Audit.{AreSlots};
ghost use Rattle.yds_model.specs.Judgement.{HasWrittenSpeed, SlotsHold};
ghost use Rattle.base.specs.Numbers.{IsFirstFailure};
ghost use Rattle.yds_checker.specs.Home.{AreHomes};
ghost use Rattle.yds_model.specs.Scale.{IsLess};
ghost use Rattle.yds_checker.specs.Speed.{HasSpeedOf};

use crate::home::Home;
use yds_certificate::Level;
use yds_model::JobRow;
use yds_slots::Slot;

/// Whether the slot has the level's speed.
fn has_speed_of(level: &Level, slot: &Slot) -> bool
    requires forward { IsLess slot.now.from slot.now.to }
    requires served { slot.now.work.whole ≤ MAX_WORK }
    ensures { IsTrue result ↔ HasSpeedOf level.now slot.now }
{
    slot.work * level.length as u32 == (slot.to - slot.from) * level.work as u32
}

/// Whether the slot has the speed of the level of which its job is a member, if there is one.
fn has_speed(rows: &[JobRow], levels: &[Level], homes: &[Home], slots: &[Slot], s: usize) -> bool
    requires within { s < length slots.now }
    requires agree { AreSlots (length rows.now) slots.now }
    requires jobs { length homes.now ≡ length rows.now }
    requires homes { AreHomes levels.now (all_members levels.now) homes.now }
    requires slots { SlotsHold rows.now slots.now }
    requires once { Each (length rows.now) (StandsOnce rows.now levels.now) }
    ensures { IsTrue result ↔ HasWrittenSpeed levels.now slots.now s }
{
    let slot = &slots[s];
    let row = &rows[slot.job as usize];
    // Since the job gets just its work, the products fit.
    prove!(slot.work.whole() <= u64::from(row.work));
    match homes[slot.job as usize] {
        Home::In(level) => has_speed_of(&levels[level as usize], slot),
        Home::Nowhere | Home::Often => true,
    }
}

/// The first slot that hasn't the speed of its job's level, if there is one.
pub(crate) fn first_wrong_speed(
    rows: &[JobRow],
    levels: &[Level],
    homes: &[Home],
    slots: &[Slot],
) -> Option<u32>
    requires few { length slots.now ≤ MAX_SLOTS }
    requires agree { AreSlots (length rows.now) slots.now }
    requires jobs { length homes.now ≡ length rows.now }
    requires homes { AreHomes levels.now (all_members levels.now) homes.now }
    requires slots { SlotsHold rows.now slots.now }
    requires once { Each (length rows.now) (StandsOnce rows.now levels.now) }
    ensures { MatchOption result
        (Each (length slots.now) (HasWrittenSpeed levels.now slots.now))
        (IsFirstFailure (length slots.now) (HasWrittenSpeed levels.now slots.now)) }
{
    for s in 0..slots.len() {
        if !has_speed(rows, levels, homes, slots, s) {
            return Some(s as u32);
        }
    }
    None
}

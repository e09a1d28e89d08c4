ghost use Rattle.std.specs.Prelude.{◌≡◌, ℕ, ◌+◌, ◌<◌, ◌≤◌, ◌↔◌, ◌⊎◌, IsTrue, length, MatchBool, MatchOption, option_copied};
ghost use Rattle.std.specs.List.{All};
ghost use Rattle.base.specs.declared.limits.TheConstants.{MAX_SLOTS};
ghost use Rattle.base.specs.Numbers.{Each};
ghost use Rattle.yds_model.specs.Scale.{IsLess, IsAtMost};
ghost use Rattle.yds_model.specs.Slot.{written_slot_at};
ghost use Rattle.yds_model.specs.Audit.{IsOnTable, IsAfterOthers, Stands, IsVerdict};
ghost use Rattle.yds_audit.specs.Verdict.{verdict_view};

use crate::point_speed::is_on_point;
use crate::verdict::Verdict;
use yds_fraction::{Moment, is_before};
use yds_hull::Point;
use yds_model::JobRow;
use yds_slots::Slot;

/// Whether the slot begins before the one before it ends.
fn overlaps(slots: &[Slot], i: usize) -> bool
    requires { i < length slots.now }
    ensures { MatchBool result
        ((before : ℕ) × (before + 1 ≡ i) × IsLess (written_slot_at slots.now i).from (written_slot_at slots.now before).to)
        (IsAfterOthers slots.now i) }
{
    if i == 0 {
        return false;
    }
    let before = &slots[i - 1];
    let slot = &slots[i];
    is_before(slot.from, before.to)
}

/// Whether the slot runs at the speed of a point, where points are given.
fn is_on_table(slot: &Slot, points: Option<&[Point]>) -> bool
    requires { IsLess slot.now.from slot.now.to }
    ensures { IsTrue result ↔ IsOnTable (option_copied points.entry) slot.now }
{
    match points {
        Some(points) => is_on_point(slot, points),
        None => true,
    }
}

/// What is wrong with a slot, if anything is: of the five causes the first.
pub(crate) fn slot_verdict(
    rows: &[JobRow],
    slots: &[Slot],
    i: usize,
    points: Option<&[Point]>,
) -> Option<Verdict>
    requires within { i < length slots.now }
    requires few { length slots.now ≤ MAX_SLOTS }
    requires known { All (λ slot. slot.job < length rows.now) slots.now }
    ensures { MatchOption result
        (Stands rows.now (option_copied points.entry) slots.now i)
        (λ verdict. Each i (Stands rows.now (option_copied points.entry) slots.now) →
        IsVerdict rows.now (option_copied points.entry) slots.now (verdict_view verdict)) }
{
    let slot = &slots[i];
    let row = &rows[slot.job as usize];
    let number = i as u32;
    if !is_before(slot.from, slot.to) {
        Some(Verdict::Backward(number))
    } else if overlaps(slots, i) {
        Some(Verdict::Overlap(number))
    } else if is_before(slot.from, Moment::from_whole(row.release.into())) {
        Some(Verdict::Early(number))
    } else if is_before(Moment::from_whole(row.deadline.into()), slot.to) {
        Some(Verdict::Late(number))
    } else if !is_on_table(slot, points) {
        Some(Verdict::OffPoint(number))
    } else {
        None
    }
}

ghost use Rattle.std.specs.Prelude.{◌≡◌, ◌≤◌, length, true, false};
ghost use Rattle.std.specs.List.Sorted.{IsPartitionedBy, IsPartitionPoint};
ghost use Rattle.yds_slots.specs.Between.{begins_before, ends_by};

use crate::slot::Slot;

/// The place of the first slot that doesn't begin before this time.
pub(crate) fn first_from(slots: &[Slot], time: u32) -> usize
    requires { IsPartitionedBy (begins_before time) slots.now }
    ensures bound { result ≤ length slots.now }
    ensures place { IsPartitionPoint (λ slot. begins_before time slot ≡ true) (λ slot. begins_before time slot ≡ false) slots.now result }
{
    slots.partition_point(|slot| slot.begins_before(time))
}

/// The place after the last slot that has ended by this time.
pub(crate) fn end_of(slots: &[Slot], time: u32) -> usize
    requires { IsPartitionedBy (ends_by time) slots.now }
    ensures bound { result ≤ length slots.now }
    ensures place { IsPartitionPoint (λ slot. ends_by time slot ≡ true) (λ slot. ends_by time slot ≡ false) slots.now result }
{
    slots.partition_point(|slot| slot.ends_by(time))
}

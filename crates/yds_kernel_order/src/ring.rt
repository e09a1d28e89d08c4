//! The lines that wait, in order of time, and the one that was given last.
ghost use Rattle.std.specs.Prelude.{◌≡◌, ◌+◌, ◌<◌, ◌≤◌, [], Some, None, length, IfOk, OnOk, MatchOption};
ghost use Rattle.yds_kernel.specs.Event.{Stamped, Lost};
ghost use Rattle.yds_kernel.specs.Views.{event_read, said_read};
ghost use Rattle.yds_kernel_order.specs.declared.limits.TheConstants.{MAX_PASSED};
ghost use Rattle.yds_kernel_order.specs.declared.ring.TheConstants.{SLOTS};
ghost use Rattle.yds_kernel_order.specs.Ring.{Gives, IsFirst, Places, wrapped, passed_in, held_from, IsMovedDown};

use crate::limits::MAX_PASSED;
use crate::slot::Slot;
use std::alloc::{AllocError, Global};
use std::marker::Model;
use yds_kernel::{Event, Said, Since};

/// How many places a ring has: for the lines that wait, for one more that comes among them, and for the one that was given last.
const SLOTS: usize = MAX_PASSED + 2;

/// The lines that wait, in order of time, and the one that was given last.
#[derive(Drop)]
pub(crate) struct Ring {
    slots: Vec<Slot>,
    // From this place on stands the line that was given last, where there is one, and behind it those that wait.
    first: usize,
    given: usize,
    waiting: usize,
}

impl Model for Ring {
    ghost use Rattle.std.specs.Prelude.{◌≡◌, ◌+◌, ◌<◌, ◌≤◌, vec_len};
    ghost use Rattle.yds_kernel_order.specs.declared.limits.TheConstants.{MAX_PASSED};
    ghost use Rattle.yds_kernel_order.specs.declared.ring.TheConstants.{SLOTS};
    ghost use Rattle.yds_kernel_order.specs.Ring.{Held, held_from, given_at};

    ghost Value = { Held };

    ghost view = { λ ring. record {
      waiting = held_from ring.slots.items (ring.first + ring.given) ring.waiting;
      given = given_at ring.slots.items ring.first ring.given;
    } };

    ghost invariant = { λ ring. (vec_len ring.slots ≡ SLOTS) × (ring.first < SLOTS) × (ring.given ≤ 1) × (ring.waiting ≤ MAX_PASSED + 1) };
}

impl Ring {
    /// A ring without a line. It takes memory for its places, and later for names that are longer than those before them.
    pub fn new(alloc: Global) -> Result<Ring, AllocError>
        ensures { IfOk result (λ ring. ring ≡ record { waiting = []; given = None }) }
    {
        let mut slots = Vec::with_capacity(alloc, SLOTS)?;
        for _count in 0..SLOTS {
            slots.push(Slot::new(alloc)?)?;
        }
        Ok(Ring {
            slots,
            first: 0,
            given: 0,
            waiting: 0,
        })
    }

    /// How many lines wait.
    pub fn waiting(&self) -> usize
        ensures { result ≡ length self.now.waiting }
    {
        self.waiting
    }

    /// The line that was given last.
    pub fn given(&self) -> Option<&Slot>
        ensures { MatchOption result (self.now.given ≡ None) (λ slot. self.now.given ≡ Some slot.now) }
    {
        if self.given == 0 {
            None
        } else {
            Some(&self.slots[self.first])
        }
    }

    /// The first line that waits.
    pub fn next(&self) -> Option<&Slot>
        ensures { MatchOption result (self.now.waiting ≡ []) (λ slot. IsFirst slot.now self.now.waiting) }
    {
        if self.waiting == 0 {
            None
        } else {
            Some(&self.slots[wrapped(self.first + self.given)])
        }
    }

    /// Gives the first line that waits, if there is one.
    pub fn give(&mut self) -> bool
        ensures { Gives result self.old self.new }
    {
        if self.waiting == 0 {
            return false;
        }
        self.first = wrapped(self.first + self.given);
        self.given = 1;
        self.waiting -= 1;
        true
    }

    /// Puts the line of this number among those that wait. One that says nothing has no place.
    pub fn place(&mut self, number: u64, said: &Said<'_>) -> Result<(), AllocError>
        requires { length self.old.waiting ≤ MAX_PASSED }
        ensures { OnOk result (Places number (said_read said.now) self.old self.new) }
    {
        match said {
            Said::Event(event) => self.place_event(number, event),
            Said::Lost { processor, since } => {
                self.place_loss(number, *processor, *since);
                Ok(())
            }
            Said::Nothing => Ok(()),
        }
    }

    /// Puts an event before those that are later, or behind all where it has no place among them.
    fn place_event(&mut self, number: u64, event: &Event<'_>) -> Result<(), AllocError>
        requires { length self.old.waiting ≤ MAX_PASSED }
        ensures { OnOk result (Places number (Stamped (event_read event.now)) self.old self.new) }
    {
        let held = self.given + self.waiting;
        let place = wrapped(self.first + held);
        let found = passed(&self.slots, self.first, held, event.time);
        let slot = &mut self.slots[place];
        slot.set_event(number, event, found.is_none())?;
        move_down(&mut self.slots, self.first, held, found.unwrap_or(0));
        self.waiting += 1;
        Ok(())
    }

    /// Puts a line that tells of lost events behind all.
    fn place_loss(&mut self, number: u64, processor: u64, since: Since)
        requires { length self.old.waiting ≤ MAX_PASSED }
        ensures { Places number (Lost processor since) self.old self.new }
    {
        let place = wrapped(self.first + (self.given + self.waiting));
        let slot = &mut self.slots[place];
        slot.set_loss(number, processor, since);
        self.waiting += 1;
    }
}

/// Which place stands so many behind the first one.
fn wrapped(place: usize) -> usize
    requires { place < SLOTS + SLOTS }
    ensures { result ≡ wrapped place }
{
    if place < SLOTS { place } else { place - SLOTS }
}

/// How many of the lines that are held an event of this time is put before. None where it has no place among them.
fn passed(slots: &[Slot], first: usize, held: usize, time: u64) -> Option<usize>
    requires slots { length slots.now ≡ SLOTS }
    requires first { first < SLOTS }
    requires held { held < SLOTS }
    ensures { result ≡ passed_in MAX_PASSED time (held_from slots.now first held) }
{
    for count in 0..held {
        let slot = &slots[wrapped(first + (held - 1 - count))];
        if slot.stands_before(time) {
            return Some(count);
        }
        if count == MAX_PASSED || slot.is_far_behind(time) {
            return None;
        }
    }
    Some(held)
}

/// Moves the line behind those that are held before so many of them.
fn move_down(slots: &mut [Slot], first: usize, held: usize, count: usize)
    requires slots { length slots.old ≡ SLOTS }
    requires first { first < SLOTS }
    requires held { held < SLOTS }
    requires count { count ≤ held }
    ensures len { length slots.new ≡ length slots.old }
    ensures moved { IsMovedDown first held count slots.old slots.new }
{
    for moved in 0..count {
        let place = first + held - moved;
        slots.swap(wrapped(place - 1), wrapped(place));
    }
}

//! A place for a line that waits, with room for its names that is used again.
ghost use Rattle.std.specs.Prelude.{◌≡◌, ◌≤◌, length, take, vec_len, true, false, IfOk, OnOk};
ghost use Rattle.yds_kernel.specs.Event.{Stamped, Lost, Nothing};
ghost use Rattle.yds_kernel.specs.Views.{event_read, said_read};
ghost use Rattle.yds_kernel_order.specs.declared.limits.TheConstants.{MAX_STEP_BACK};
ghost use Rattle.yds_kernel_order.specs.Ring.{stands_before, is_later_by};

use crate::limits::MAX_STEP_BACK;
use std::alloc::{AllocError, Global};
use std::marker::Model;
use yds_kernel::{Event, Happening, Said, Since, State, Thread};

/// How long a name is for which there is room from the begin.
const NAME_ROOM: usize = 32;

/// What a line says, without its names.
#[derive(Clone, Copy)]
pub(crate) enum What {
    Switch {
        previous: u64,
        state: State,
        next: u64,
    },
    WakeUp {
        thread: u64,
        starts: bool,
    },
    Speed {
        processor: u64,
        khz: u64,
    },
    Loss,
    Marker,
    Other,
    Lost(Since),
    Nothing,
}

/// A place for a line that waits.
#[derive(Drop)]
pub(crate) struct Slot {
    number: u64,
    stays: bool,
    processor: u64,
    time: u64,
    what: What,
    // Room for two names, and how long they are.
    first: Vec<u8>,
    first_len: usize,
    second: Vec<u8>,
    second_len: usize,
}

impl Model for Slot {
    ghost use Rattle.std.specs.Prelude.{◌≤◌, take, vec_len};
    ghost use Rattle.yds_kernel_order.specs.Order.{Placed};

    ghost Value = { Placed };

    ghost use Rattle.yds_kernel_order.specs.Held.{said_held, IsTimed};

    ghost view = { λ slot. record {
      number = slot.number;
      said = said_held slot.what slot.processor slot.time (take slot.first_len slot.first.items) (take slot.second_len slot.second.items);
      stays = slot.stays;
    } };

    ghost invariant = { λ slot. (slot.first_len ≤ vec_len slot.first) × (slot.second_len ≤ vec_len slot.second) × IsTimed slot.what slot.time };
}

impl Slot {
    /// A place with a line that says nothing, and room for names.
    pub fn new(alloc: Global) -> Result<Slot, AllocError>
        ensures { IfOk result (λ slot. slot ≡ record { number = 0; said = Nothing; stays = false }) }
    {
        Ok(Slot {
            number: 0,
            stays: false,
            processor: 0,
            time: 0,
            what: What::Nothing,
            first: vec![in alloc; 0; NAME_ROOM]?,
            first_len: 0,
            second: vec![in alloc; 0; NAME_ROOM]?,
            second_len: 0,
        })
    }

    /// Its number in the text.
    pub fn number(&self) -> u64
        ensures { result ≡ self.now.number }
    {
        self.number
    }

    /// What it says.
    pub fn said(&self) -> Said<'_>
        ensures { said_read result ≡ self.now.said }
    {
        let happening = match self.what {
            What::Switch {
                previous,
                state,
                next,
            } => Happening::Switch {
                previous: Thread {
                    name: &self.first[..self.first_len],
                    pid: previous,
                },
                state,
                next: Thread {
                    name: &self.second[..self.second_len],
                    pid: next,
                },
            },
            What::WakeUp { thread, starts } => Happening::WakeUp {
                thread: Thread {
                    name: &self.first[..self.first_len],
                    pid: thread,
                },
                starts,
            },
            What::Speed { processor, khz } => Happening::Speed { processor, khz },
            What::Loss => Happening::Loss,
            What::Marker => Happening::Marker,
            What::Other => Happening::Other,
            What::Lost(since) => {
                return Said::Lost {
                    processor: self.processor,
                    since,
                };
            }
            What::Nothing => return Said::Nothing,
        };
        Said::Event(Event {
            processor: self.processor,
            time: self.time,
            happening,
        })
    }

    /// Takes a line that tells of lost events. It stays where it stands in the text.
    pub fn set_loss(&mut self, number: u64, processor: u64, since: Since)
        ensures { self.new ≡ record { number = number; said = Lost processor since; stays = true } }
    {
        self.number = number;
        self.stays = true;
        self.processor = processor;
        self.time = 0;
        self.what = What::Lost(since);
    }

    /// Takes an event, with copies of its names, in the place of what it held.
    pub fn set_event(
        &mut self,
        number: u64,
        event: &Event<'_>,
        stays: bool,
    ) -> Result<(), AllocError>
        ensures { OnOk result (self.new ≡ record { number = number; said = Stamped (event_read event.now); stays = stays }) }
    {
        self.what = match &event.happening {
            Happening::Switch {
                previous,
                state,
                next,
            } => {
                keep_name(&mut self.first, previous.name)?;
                self.first_len = previous.name.len();
                keep_name(&mut self.second, next.name)?;
                self.second_len = next.name.len();
                What::Switch {
                    previous: previous.pid,
                    state: *state,
                    next: next.pid,
                }
            }
            Happening::WakeUp { thread, starts } => {
                keep_name(&mut self.first, thread.name)?;
                self.first_len = thread.name.len();
                What::WakeUp {
                    thread: thread.pid,
                    starts: *starts,
                }
            }
            Happening::Speed { processor, khz } => What::Speed {
                processor: *processor,
                khz: *khz,
            },
            Happening::Loss => What::Loss,
            Happening::Marker => What::Marker,
            Happening::Other => What::Other,
        };
        self.number = number;
        self.stays = stays;
        self.processor = event.processor;
        self.time = event.time;
        Ok(())
    }

    /// Whether an event of this time is put behind it.
    pub fn stands_before(&self, time: u64) -> bool
        ensures { result ≡ stands_before time self.now }
    {
        self.time <= time || self.stays
    }

    /// Whether it is an event that is later than this time by more than a millisecond.
    pub fn is_far_behind(&self, time: u64) -> bool
        ensures { result ≡ is_later_by MAX_STEP_BACK time self.now.said }
    {
        self.time > time && self.time - time > MAX_STEP_BACK
    }
}

/// Copies a name to the front of the room for it.
#[inline(always)]
fn keep_name(room: &mut Vec<u8>, name: &[u8]) -> Result<(), AllocError>
    ensures kept { OnOk result (take (length name.now) room.new.items ≡ name.now) }
    ensures fits { OnOk result (length name.now ≤ vec_len room.new) }
    ensures grows { vec_len room.old ≤ vec_len room.new }
{
    if room.len() < name.len() {
        grow(room, name.len())?;
    }
    copy_front(room, name);
    Ok(())
}

/// Copies a name to the front of its room.
#[inline(always)]
fn copy_front(room: &mut [u8], name: &[u8])
    requires { length name.now ≤ length room.old }
    ensures front { take (length name.now) room.new ≡ name.now }
    ensures len { length room.new ≡ length room.old }
{
    room[..name.len()].copy_from_slice(name);
}

/// Makes room for a name of this length.
#[cold]
#[inline(never)]
fn grow(room: &mut Vec<u8>, len: usize) -> Result<(), AllocError>
    requires { vec_len room.old ≤ len }
    ensures grown { OnOk result (len ≤ vec_len room.new) }
    ensures grows { vec_len room.old ≤ vec_len room.new }
{
    room.resize(len, 0)
}

//! The events of a trace, with names lent from its lines.

use crate::loss::Since;
use crate::state::State;

/// A thread.
#[derive(Clone, Copy, Debug, PartialEq, Eq)]
pub struct Thread<'a> {
    /// Its name, as the line has it.
    pub name: &'a [u8],
    /// Its number.
    pub pid: u64,
}

/// What an event is.
#[derive(Clone, Copy, Debug, PartialEq, Eq)]
pub enum Happening<'a> {
    /// A thread leaves the processor, in this state, and another comes.
    Switch {
        previous: Thread<'a>,
        state: State,
        next: Thread<'a>,
    },
    /// A thread is woken.
    WakeUp {
        thread: Thread<'a>,
        /// Whether this starts the wake-up, or tells that it was done.
        starts: bool,
    },
    /// A processor's new speed, in kilohertz.
    Speed {
        processor: u64,
        khz: u64,
    },
    /// Events of the processor were lost.
    Loss,
    /// What an application wrote.
    Marker,
    /// An event that doesn't matter.
    Other,
}

/// An event of a trace.
#[derive(Clone, Copy, Debug, PartialEq, Eq)]
pub struct Event<'a> {
    /// The processor on which it was.
    pub processor: u64,
    /// Its time, in nanoseconds of the trace's clock.
    pub time: u64,
    /// What it is.
    pub happening: Happening<'a>,
}

/// What a line of a trace says.
#[derive(Clone, Copy, Debug, PartialEq, Eq)]
pub enum Said<'a> {
    /// An event.
    Event(Event<'a>),
    /// Events of this processor were lost.
    Lost { processor: u64, since: Since },
    /// Nothing that is read.
    Nothing,
}

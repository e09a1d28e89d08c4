//! Why words can't be taken.
ghost use Rattle.std.specs.Prelude.{◌≡◌, codes};
ghost use Rattle.yds_trace_words.specs.declared.fault.Place.TheVariants as places;
ghost use Rattle.yds_trace_words.specs.Views.{fault_read};

use base::Memory;
use std::alloc::{AllocError, AllocFailed};

/// What is wrong with a word, or with a setting or a task that it gives.
#[derive(Clone, Copy, Debug, PartialEq, Eq)]
pub enum Reason {
    /// No word is called so.
    Unknown,
    /// It has a value and takes none.
    Needless,
    /// Its value is missing.
    NoValue,
    /// It is given twice.
    Twice,
    /// It is no number of a processor.
    Processor,
    /// It is no unit of time.
    Unit,
    /// It is no speed.
    Speed,
    /// No number of a processor stands before its speed.
    SpeedProcessor,
    /// No processor stands before the speed, in a list of speeds.
    SpeedForm,
    /// There are too many speeds.
    TooManySpeeds,
    /// A speed behind it is of the same processor.
    ProcessorTwice,
    /// It is given together with `--start`.
    WithStart,
    /// It is no time.
    Time,
    /// `--from` isn't before `--to`.
    FromNotBefore,
    /// It is no way in which jobs begin.
    Begin,
    /// It is no way to go on where events were lost.
    Lost,
    /// It is no way to tell of jobs that moved.
    Moved,
    /// It is nothing that is told of other threads.
    Others,
    /// It is told of one processor, and not of each.
    EachProcessor,
    /// It says nothing of the list of threads.
    Threads,
    /// No tasks are given.
    NoTasks,
    /// There are too many tasks.
    TooManyTasks,
    /// The task has no deadline.
    TaskForm,
    /// Its name makes no names of jobs.
    Label,
    /// It is no number of a thread.
    Pid,
    /// Its deadline is no time.
    Deadline,
    /// Its deadline is less than a unit of time.
    ShortDeadline,
    /// Its distance of wake-ups is no time.
    Apart,
    /// Its period is no time above 0.
    Period,
    /// A task behind it has the same name.
    LabelTwice,
    /// A task behind it is the same thread.
    ThreadTwice,
}

/// Where something stands in a list that a word gives, counted from 1.
#[derive(Clone, Copy, Debug, PartialEq, Eq)]
pub enum Place {
    /// A task of `--tasks`.
    Task(usize),
    /// A speed of `--start`.
    Speed(usize),
}

/// Words that can't be taken.
#[derive(Clone, Copy, Debug, PartialEq, Eq)]
pub struct WordFault<'a> {
    /// The word, or the name of what it sets.
    pub word: &'a [u8],
    /// Where it stands in the list that the word gives.
    pub place: Option<Place>,
    /// What is wrong.
    pub reason: Reason,
}

impl<'a> WordFault<'a> {
    /// Of a word, or of the name of what it sets.
    pub(crate) fn of(word: &'a [u8], reason: Reason) -> WordFault<'a>
        ensures { result ≡ record { word = word.entry; place = None; reason = reason } }
    {
        WordFault {
            word,
            place: None,
            reason,
        }
    }

    /// Of a task in `--tasks`.
    pub(crate) fn of_task(place: usize, reason: Reason) -> WordFault<'a>
        ensures { fault_read result ≡ record { word = codes "--tasks"; place = Some (places.Task place); reason = reason } }
    {
        WordFault {
            word: b"--tasks",
            place: Some(Place::Task(place)),
            reason,
        }
    }

    /// Of a speed in `--start`.
    pub(crate) fn of_speed(place: usize, reason: Reason) -> WordFault<'a>
        ensures { fault_read result ≡ record { word = codes "--start"; place = Some (places.Speed place); reason = reason } }
    {
        WordFault {
            word: b"--start",
            place: Some(Place::Speed(place)),
            reason,
        }
    }
}

/// Why nothing was made of the words.
#[derive(Clone, Copy, Debug, PartialEq, Eq)]
pub enum NoRequest<'a> {
    /// They can't be taken.
    Fault(WordFault<'a>),
    /// Want of memory.
    Memory,
}

impl From<AllocError> for NoRequest<'_> {
    ghost use Rattle.std.specs.Prelude.{◌≡◌};
    ghost use Rattle.yds_trace_words.specs.declared.fault.NoRequest.TheVariants as spec;

    ghost from_gives = { λ _ gone. gone ≡ spec.Memory };

    fn from(_error: AllocError) -> Self {
        NoRequest::Memory
    }
}

impl<T: Drop> From<AllocFailed<T>> for NoRequest<'_> {
    ghost use Rattle.std.specs.Prelude.{◌≡◌};
    ghost use Rattle.yds_trace_words.specs.declared.fault.NoRequest.TheVariants as spec;

    ghost from_gives = { λ _ gone. gone ≡ spec.Memory };

    fn from(_error: AllocFailed<T>) -> Self {
        NoRequest::Memory
    }
}

impl From<Memory> for NoRequest<'_> {
    ghost use Rattle.std.specs.Prelude.{◌≡◌};
    ghost use Rattle.yds_trace_words.specs.declared.fault.NoRequest.TheVariants as spec;

    ghost from_gives = { λ _ gone. gone ≡ spec.Memory };

    fn from(_error: Memory) -> Self {
        NoRequest::Memory
    }
}

impl<'a> From<WordFault<'a>> for NoRequest<'a> {
    ghost use Rattle.std.specs.Prelude.{◌≡◌};
    ghost use Rattle.yds_trace_words.specs.declared.fault.NoRequest.TheVariants as spec;

    ghost from_gives = { λ fault gone. gone ≡ spec.Fault fault };

    fn from(fault: WordFault<'a>) -> Self {
        NoRequest::Fault(fault)
    }
}

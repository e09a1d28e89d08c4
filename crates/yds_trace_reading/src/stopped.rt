//! Why a trace wasn't read to what is known at its end.

use crate::first::NoBegin;
use base::Memory;
use std::alloc::AllocError;
use yds_kernel::LineFault;
use yds_trace::Cause;

/// Why the reading of a trace ended before what is known at its end.
#[derive(Clone, Copy, Debug, PartialEq, Eq)]
pub enum Stopped {
    /// The line of this number in the text is refused by its form.
    InForm { number: u64, fault: LineFault },
    /// The line of this number in the text can't stand behind those before it in order of time, or the trace as a whole tells
    /// nothing, at its last line.
    AtLine { number: u64, cause: Cause },
    /// Bounds count from the first event, and the first line tells of lost events.
    NoFirst,
    /// The trace has as many bytes or lines as 64 bits count.
    TooLong,
    /// A read failed.
    ReadFault,
    /// Out of memory.
    Memory,
}

impl From<Memory> for Stopped {
    ghost use Rattle.std.specs.Prelude.{◌≡◌};
    ghost use Rattle.yds_trace_reading.specs.declared.stopped.Stopped.TheVariants as spec;

    ghost from_gives = { λ _ stopped. stopped ≡ spec.Memory };

    fn from(_error: Memory) -> Stopped {
        Stopped::Memory
    }
}

impl From<AllocError> for Stopped {
    ghost use Rattle.std.specs.Prelude.{◌≡◌};
    ghost use Rattle.yds_trace_reading.specs.declared.stopped.Stopped.TheVariants as spec;

    ghost from_gives = { λ _ stopped. stopped ≡ spec.Memory };

    fn from(_error: AllocError) -> Stopped {
        Stopped::Memory
    }
}

impl From<NoBegin> for Stopped {
    ghost use Rattle.std.specs.Prelude.{◌≡◌};
    ghost use Rattle.yds_trace_reading.specs.Begin.{stopped_for};

    ghost from_gives = { λ no_begin stopped. stopped ≡ stopped_for no_begin };

    fn from(no_begin: NoBegin) -> Stopped {
        match no_begin {
            NoBegin::Lost => Stopped::NoFirst,
            NoBegin::TooLong => Stopped::TooLong,
            NoBegin::ReadFault => Stopped::ReadFault,
            NoBegin::Memory => Stopped::Memory,
        }
    }
}

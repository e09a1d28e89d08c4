//! Why a trace's threads aren't told.

use base::Memory;
use std::alloc::AllocError;
use yds_kernel::LineFault;
use yds_port::WriteFault;
use yds_trace::Cause;

/// Why a trace's threads aren't told. Nothing of the table is written, but for a front of it where a write failed.
#[derive(Clone, Copy, Debug, PartialEq, Eq)]
pub enum Halt {
    /// The line of this number in the text is refused by its form.
    InForm { number: u64, fault: LineFault },
    /// The line of this number in the text can't stand behind those before it in order of time, or the trace as a whole tells
    /// nothing, at its last line.
    AtLine { number: u64, cause: Cause },
    /// The trace has as many bytes or lines as 64 bits count.
    Endless,
    /// A read failed.
    ReadFault,
    /// A write failed.
    WriteFault,
    /// Out of memory.
    Memory,
}

impl From<Memory> for Halt {
    ghost use Rattle.std.specs.Prelude.{◌≡◌};
    ghost use Rattle.yds_trace_threads.specs.declared.halt.Halt.TheVariants as spec;

    ghost from_gives = { λ _ halt. halt ≡ spec.Memory };

    fn from(_error: Memory) -> Halt {
        Halt::Memory
    }
}

impl From<AllocError> for Halt {
    ghost use Rattle.std.specs.Prelude.{◌≡◌};
    ghost use Rattle.yds_trace_threads.specs.declared.halt.Halt.TheVariants as spec;

    ghost from_gives = { λ _ halt. halt ≡ spec.Memory };

    fn from(_error: AllocError) -> Halt {
        Halt::Memory
    }
}

impl From<WriteFault> for Halt {
    ghost use Rattle.std.specs.Prelude.{◌≡◌};
    ghost use Rattle.yds_trace_threads.specs.declared.halt.Halt.TheVariants as spec;

    ghost from_gives = { λ _ halt. halt ≡ spec.WriteFault };

    fn from(_error: WriteFault) -> Halt {
        Halt::WriteFault
    }
}

//! Why a trace isn't told further.
ghost use Rattle.std.specs.Prelude.{◌≡◌};
ghost use Rattle.yds_trace_parts.specs.Telling.{halt_of_text, with_number};

use base::Memory;
use std::alloc::AllocError;
use yds_kernel::LineFault;
use yds_port::WriteFault;
use yds_trace::{Cause, Reason};
use yds_trace_document::DocumentFault;
use yds_trace_reading::NoBegin;
use yds_trace_text::NoText;

/// Why a trace isn't told further. The parts that were whole before that are written.
#[derive(Debug, Drop)]
pub enum Halt {
    /// The line of this number is refused by its form.
    InForm {
        number: u64,
        fault: LineFault,
    },
    /// The line of this number can't stand behind those before it in order of time, or the trace as a whole tells nothing, at its
    /// last line.
    AtLine {
        number: u64,
        cause: Cause,
    },
    /// The part of this number passes a limit of documents. It is one of this processor, where each has documents of its own.
    Limit {
        processor: Option<u64>,
        part: u64,
        fault: DocumentFault,
    },
    /// In the part of this number it isn't known of the judged job at this place, counted from 0, whether it is late: what a
    /// document would call it, and why it doesn't stand as it is, if it doesn't. It is one of this processor, where each has
    /// documents of its own.
    NotKnown {
        processor: Option<u64>,
        part: u64,
        place: usize,
        name: Vec<u8>,
        reason: Option<Reason>,
    },
    /// The text of the part of this number is longer than a document may be. It is one of this processor, where each has
    /// documents of its own.
    TooLong {
        processor: Option<u64>,
        part: u64,
    },
    /// More jobs, stretches or spans of other threads wait than may, and there is no place to cut. This job has been open
    /// longest, or is the first that waits: its begin on the trace's clock, and by how much it is known to be late, in
    /// nanoseconds.
    NoPlace {
        name: Vec<u8>,
        begin: u64,
        late: Option<u64>,
    },
    /// Bounds count from the first event, and the first line tells of lost events.
    NoFirst,
    /// The trace has as many bytes as 64 bits count, or as many lines as are told.
    Endless,
    /// A read failed.
    ReadFault,
    /// A write failed.
    WriteFault,
    /// Out of memory.
    Memory,
}

impl From<Memory> for Halt {
    ghost use Rattle.std.specs.Prelude.{◌≡◌};
    ghost use Rattle.yds_trace_parts.specs.declared.halt.Halt.TheVariants as spec;

    ghost from_gives = { λ _ halt. halt ≡ spec.Memory };

    fn from(_error: Memory) -> Halt {
        Halt::Memory
    }
}

impl From<AllocError> for Halt {
    ghost use Rattle.std.specs.Prelude.{◌≡◌};
    ghost use Rattle.yds_trace_parts.specs.declared.halt.Halt.TheVariants as spec;

    ghost from_gives = { λ _ halt. halt ≡ spec.Memory };

    fn from(_error: AllocError) -> Halt {
        Halt::Memory
    }
}

impl From<WriteFault> for Halt {
    ghost use Rattle.std.specs.Prelude.{◌≡◌};
    ghost use Rattle.yds_trace_parts.specs.declared.halt.Halt.TheVariants as spec;

    ghost from_gives = { λ _ halt. halt ≡ spec.WriteFault };

    fn from(_error: WriteFault) -> Halt {
        Halt::WriteFault
    }
}

impl From<NoBegin> for Halt {
    ghost use Rattle.std.specs.Prelude.{◌≡◌};
    ghost use Rattle.yds_trace_parts.specs.Telling.{halt_of_begin};

    ghost from_gives = { λ no_begin halt. halt ≡ halt_of_begin no_begin };

    fn from(no_begin: NoBegin) -> Halt {
        match no_begin {
            NoBegin::Lost => Halt::NoFirst,
            NoBegin::TooLong => Halt::Endless,
            NoBegin::ReadFault => Halt::ReadFault,
            NoBegin::Memory => Halt::Memory,
        }
    }
}

impl Halt {
    /// Why the text of the part of this number isn't written.
    pub(crate) fn of_text(processor: Option<u64>, part: u64, fault: NoText) -> Halt
        ensures { result ≡ halt_of_text processor part fault }
    {
        match fault {
            NoText::Limit(fault) => Halt::Limit {
                processor,
                part,
                fault,
            },
            NoText::NotKnown {
                place,
                name,
                reason,
            } => Halt::NotKnown {
                processor,
                part,
                place,
                name,
                reason,
            },
            NoText::TooLong => Halt::TooLong { processor, part },
            NoText::Memory => Halt::Memory,
        }
    }

    /// The same, with this number of the line in the text in the stead of its place in order of time.
    pub(crate) fn with_number(self, number: u64) -> Halt
        ensures { result ≡ with_number number self }
    {
        match self {
            Halt::AtLine { cause, .. } => Halt::AtLine { number, cause },
            halt => halt,
        }
    }
}

//! Why a text isn't written.
use base::Memory;
use thiserror::Error;
use yds_trace::Reason;
use yds_trace_document::DocumentFault;

/// Why the text of a document isn't written.
#[derive(Clone, Copy, Debug, PartialEq, Eq, Error)]
pub enum TextFault {
    /// It is longer than a document may be, `MAX_INPUT` bytes.
    #[error("the text is too long")]
    TooLong,
    /// Want of memory.
    #[error("out of memory")]
    Memory,
}

impl From<Memory> for TextFault {
    ghost use Rattle.std.specs.Prelude.{◌≡◌};
    ghost use Rattle.yds_trace_text.specs.declared.fault.TextFault.TheVariants as faults;

    ghost from_gives = { λ _ fault. fault ≡ faults.Memory };

    fn from(_memory: Memory) -> TextFault {
        TextFault::Memory
    }
}

/// Why a trace's document isn't written.
#[derive(Debug, Drop)]
pub enum NoText {
    /// It is beyond a limit.
    Limit(DocumentFault),
    /// Of the judged job at this place, counted from 0, it isn't known whether it is late: what a document would call it, and
    /// why it doesn't stand as it is, if it doesn't.
    NotKnown {
        place: usize,
        name: Vec<u8>,
        reason: Option<Reason>,
    },
    /// Its text is longer than a document may be, `MAX_INPUT` bytes.
    TooLong,
    /// Want of memory.
    Memory,
}

impl From<Memory> for NoText {
    ghost use Rattle.std.specs.Prelude.{◌≡◌};
    ghost use Rattle.yds_trace_text.specs.declared.fault.NoText.TheVariants as faults;

    ghost from_gives = { λ _ fault. fault ≡ faults.Memory };

    fn from(_memory: Memory) -> NoText {
        NoText::Memory
    }
}

//! Why a line of a trace is refused.

use thiserror::Error;

/// What is wrong with a line.
#[derive(Clone, Copy, Debug, PartialEq, Eq, Error)]
pub enum Reason {
    /// The number of a processor is above 4,294,967,295.
    #[error("the number of the processor is too great")]
    Processor,
    /// The time's fraction has more than nine digits, or the time takes more than 64 bits of nanoseconds.
    #[error("the time has more than nine digits behind the point, or is too great")]
    Time,
    /// A switch whose text isn't one, or was cut short.
    #[error("a switch in an unknown form, or cut short")]
    UnknownSwitch,
    /// A wake-up whose text isn't one, or was cut short.
    #[error("a wake-up in an unknown form, or cut short")]
    UnknownWakeUp,
    /// A speed whose text isn't one, or was cut short.
    #[error("a cpu_frequency line in an unknown form, or cut short")]
    UnknownSpeed,
    /// The line begins as an event that matters and has more than 65,536 bytes.
    #[error("the line is longer than 65,536 bytes")]
    Long,
    /// The last line ends within its stamp or its event's name.
    #[error("the last line is cut short")]
    Cut,
}

/// A line that is refused.
#[derive(Clone, Copy, Debug, PartialEq, Eq, Error)]
#[error("column {column}: {reason}")]
pub struct LineFault {
    /// The place in the line, counted from 1 in bytes.
    pub column: usize,
    /// What is wrong there.
    pub reason: Reason,
}

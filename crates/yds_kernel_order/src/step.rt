//! What a step of a reader of lines in order of time gives.

use yds_kernel::LineFault;

/// What a step gave.
#[derive(Clone, Copy, Debug, PartialEq, Eq)]
pub enum Step {
    /// The next line in order of time.
    Line,
    /// Nothing: each line was given.
    End,
    /// Nothing: each line before the one of this number was given, and the form of that one is refused.
    Refused { number: u64, fault: LineFault },
    /// A read failed, and the reader can't go on.
    Failed,
    /// The trace has more bytes than 64 bits count, and the reader can't go on.
    TooLong,
    /// Out of memory, and the reader can't go on.
    Memory,
}

//! What a step of a reader gives.

/// What a step of a reader gave.
#[derive(Clone, Copy, Debug, PartialEq, Eq)]
pub enum Advance {
    /// The next line.
    Line,
    /// Nothing: each line was given.
    End,
    /// A read failed, and the reader can't go on.
    Failed,
    /// The trace has more bytes than 64 bits count, and the reader can't go on.
    TooLong,
}

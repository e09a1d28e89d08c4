//! How much is kept of the tasks.

/// At most so much waits of the tasks. Beyond 64 bits none is counted.
#[derive(Clone, Copy, Debug, PartialEq, Eq)]
pub struct Kept {
    pub jobs: u64,
    pub stretches: u64,
    /// Spans of other threads.
    pub others: u64,
}

//! How far a line may stand behind its place in order of time.

/// A line may stand behind at most so many that are later.
pub const MAX_PASSED: usize = 64;

/// A line may be before one that stands before it by at most so many nanoseconds.
pub const MAX_STEP_BACK: u64 = 1_000_000;

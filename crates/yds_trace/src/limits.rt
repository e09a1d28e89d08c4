//! The limits of what is kept of a trace.

/// The greatest number of a processor: no kernel has more.
pub const MAX_PROCESSOR: u64 = 8_191;

/// The greatest time of a trace in nanoseconds, some 292 years: a deadline after it still fits 64 bits.
pub const MAX_TIME: u64 = 9_223_372_036_854_775_807;

/// The longest time from a job's begin to its deadline, in nanoseconds.
pub const MAX_DEADLINE: u64 = 9_223_372_036_854_775_807;

/// So many lines may tell of the tasks that are asked for: each may take room for a job or a stretch.
pub const MAX_TOUCHES: u64 = 250_000;

/// Behind each line of a multiple of this number it is looked whether a part is to be written.
pub const LOOK_EVERY: u64 = 1_024;

/// Where more jobs than these wait, a part is written.
pub const PART_JOBS: u64 = 2_000;

/// Where more stretches than these wait, a part is written.
pub const PART_STRETCHES: u64 = 25_000;

/// Where more spans of other threads than these wait, a part is written.
pub const PART_OTHERS: u64 = 12_500;

/// More jobs than these may not wait: a document has no more.
pub const WAITING_JOBS: u64 = 4_000;

/// More stretches than these may not wait.
pub const WAITING_STRETCHES: u64 = 50_000;

/// More spans of other threads than these may not wait.
pub const WAITING_OTHERS: u64 = 25_000;

/// So many bytes of the name of another thread are kept.
pub const MAX_OTHER_NAME: usize = 64;

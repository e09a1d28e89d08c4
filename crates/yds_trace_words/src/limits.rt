//! The limits of what is asked of a trace.

/// The longest label of a task, in bytes: the name of a job is the label, a point and the job's number of 32 bits.
pub const MAX_LABEL: usize = 53;

/// The most tasks.
pub const MAX_TASKS: usize = 1_000;

/// The most processors whose speeds are listed.
pub const MAX_SPEEDS: usize = 1_000;

/// The greatest unit of time, in microseconds.
pub const MAX_UNIT: u64 = 1_000_000_000;

//! How much of a trace is told in parts.

/// So many lines of a trace are told at most. A line begins at most two jobs of a task, so each job has a number of 64 bits.
pub const MOST_LINES: u64 = 9_223_372_036_854_775_807;

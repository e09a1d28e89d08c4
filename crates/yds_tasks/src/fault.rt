use thiserror::Error;
use yds_model::TaskReason;

/// Why bytes weren't read as tasks.
#[derive(Clone, Copy, Debug, PartialEq, Eq, Error)]
pub enum TaskFault {
    /// The first fault, in order of lines, and within a line in the order in which faults are tried.
    #[error("line {line}, column {column}: {reason}")]
    At {
        /// The number of the line, counted from 1.
        line: u32,
        /// The place in the line, counted from 1 in bytes.
        column: u32,
        /// What is wrong there.
        reason: TaskReason,
    },
    /// Out of memory.
    #[error("out of memory")]
    Memory,
}

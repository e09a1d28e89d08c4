use thiserror::Error;
use yds_model::Reason;

/// Why bytes weren't read as a document.
#[derive(Clone, Copy, Debug, PartialEq, Eq, Error)]
pub enum DocFault {
    /// The first fault, in order of lines, and within a line in the order in which faults are tried.
    #[error("line {line}, column {column}: {reason}")]
    At {
        /// The number of the line, counted from 1.
        line: u32,
        /// The place in the line, counted from 1 in bytes.
        column: u32,
        /// What is wrong there.
        reason: Reason,
    },
    /// Out of memory.
    #[error("out of memory")]
    Memory,
}

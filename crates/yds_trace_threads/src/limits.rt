//! How much is told of a trace's threads.

use yds_trace::MAX_PROCESSOR;

/// So many processors are told apart.
pub(crate) const PROCESSORS: usize = MAX_PROCESSOR as usize + 1;

/// So many threads have a row: those that the trace tells of first.
pub const MOST_THREADS: usize = 32_768;

/// So many threads are counted, those with a row among them. As many thread numbers are kept.
pub const MOST_COUNTED: usize = 1_048_576;

/// So many bytes of a thread's name are kept. The kernel gives it at most 15.
pub const MOST_NAME: usize = 64;

//! The outside of the program: where its input comes from and its output goes to, as two traits whose
//! clauses say which bytes moved, how often was flushed and when a fault was counted.
//!
//! It stands on `base`. It carries the promise that reading to the end gives all that was left,
//! and that writing a piece appends it whole or, after a counted fault, a front of it. The sources and
//! sinks in memory make chosen calls fail, for tests; the two over std's readers and writers are the
//! trusted edge: what they make of an answer is a function of it, and only the call is left to a test.
#![tactic(auto)]

mod memory_sink;
mod memory_source;
mod reading;
mod shared;
mod sink;
mod source;
mod std_sink;
mod std_source;
mod steady_source;
mod writing;

pub use memory_sink::MemorySink;
pub use memory_source::MemorySource;
pub use reading::{ReadAllFault, read_all};
pub use sink::{Flushed, Given, Sink};
pub use source::{Source, Taken};
pub use std_sink::StdSink;
pub use std_source::StdSource;
pub use steady_source::SteadySource;
pub use writing::{WriteFault, write_all};

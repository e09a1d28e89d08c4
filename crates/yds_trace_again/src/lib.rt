//! What `yds_trace` writes is read again, as laws of the definitions. Each is the contract of a call of no parameters that does nothing.
//!
//! It stands on `yds_trace_text`, whose text the laws speak of, and on `yds_texts` for how the texts of documents are read. It carries
//! the promise that a trace's document is read by the definition of documents as just its jobs and its runs. Its lemmas say what a text
//! is worth by that: one that is read as a feasible document hides no late job, and what it is read as is faithful to the trace.
#![tactic(auto)]

mod laws;

pub use laws::{late_jobs_are_named, parts_are_read_again, read_again, some_are_read_again};

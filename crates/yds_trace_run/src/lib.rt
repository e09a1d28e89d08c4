//! The run of `yds_trace`: the words, one pass over a trace, and its document or its parts.
//!
//! It stands on `yds_trace_words`, which reads the words, on `yds_trace_bounds`, which says what is asked within bounds, on
//! `yds_trace_reading`, which passes over the trace, on `yds_trace_text`, which makes the document's text, on `yds_trace_parts`, which
//! writes parts, on `yds_trace_files`, which tells what a failed read was of, and on `yds_port`, which gives and takes bytes. It
//! carries the promise that what was written is what the definitions say of the words and of all bytes of the trace, that each other
//! end has a last line `failed`, that texts which are read as feasible documents hide no late job, that no job is dropped from them, and
//! that parts are the whole.
#![tactic(auto)]

mod delivery;
mod fault_text;
mod running;

pub use running::run;

//! The parts of a trace and the whole trace: laws of the definitions. Each is the contract of a call of no parameters that does nothing.
//!
//! It stands on `yds_trace`, `yds_trace_document` and `yds_trace_text`, whose parts the laws speak of, and on `yds_trace_laws` and
//! `yds_trace_again`, whose laws hold of each part.
//! It carries the promise that what a part says of its jobs, and of other threads, is what the whole trace says of them, that feasible
//! parts hide no late job, and that each part is faithful to the trace and is read again; also where each processor has parts of its own.
//! Its lemmas say the same of the text of all parts, and of what each of theirs is read as.
#![tactic(auto)]

mod laws;
mod worth_laws;

pub use laws::{
    all_parts_are_kept, parts_are_of_processors, parts_are_the_whole, parts_make_the_document,
    spans_are_the_whole, whole_is_the_document,
};
pub use worth_laws::{
    each_part_is_read, nothing_is_late_anywhere, nothing_is_late_in_parts, parts_are_faithful,
    several_are_refused,
};

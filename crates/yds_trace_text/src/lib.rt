//! The text of a trace's document, or of one of its parts: jobs, runs, and comments that tell what the document hasn't.
//!
//! It stands on `yds_trace_document`, which settles what becomes of the jobs, and on `base` for the limits of a document and
//! for the line that fields make. It carries the promise that what is written is the text that the definitions in `specs/`
//! say, byte for byte, or that it is said to be too long for a document.
#![tactic(auto)]

mod bytes;
mod ends;
mod fault;
mod head;
mod last;
mod late;
mod laws;
mod left_out;
mod limit;
mod numbers;
mod others;
mod part;
mod rows;
mod short;
mod tally;
mod woken;
mod writing;
mod wrong_unit;

pub use fault::{NoText, TextFault};
pub use late::reason_words;
pub use laws::{every_job_has_its_place, parts_count_on};
pub use part::part_text;
pub use writing::{document_text, text};

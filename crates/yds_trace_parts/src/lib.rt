//! A trace told in parts: documents one after another, each written as soon as nothing that still comes can change its jobs.
//!
//! It stands on `yds_kernel_order`, which gives the lines in order of time, on `yds_trace_reading` and `yds_trace_bounds`, which
//! say what is asked once the first event is known, on `yds_trace`, which passes over what the lines say and forgets what was
//! written, on `yds_trace_document` and `yds_trace_text`, which make a part's document and its text, and on `yds_port`, which
//! gives and takes the bytes. It carries the promise that what is written is the text of the parts that the
//! definitions in `specs/` say, and that the first reason is told for which a trace isn't told further, a line by its number in
//! the text.
#![tactic(auto)]

mod driver;
mod halt;
mod laws;
mod limits;
mod part;
mod place;
mod processors;
mod telling;

pub use driver::tell_parts;
pub use halt::Halt;
pub use laws::{
    few_lines_are_one_part, halts_stay, halts_write_nothing, parts_end, parts_follow, told_grows,
};
pub use limits::MOST_LINES;

//! One pass over the bytes of a trace, to what is known of the tasks at its end.
//!
//! It stands on `yds_kernel_order`, which gives the lines in order of time, on `yds_trace`, which passes over what they say, on
//! `yds_trace_bounds`, which says what is asked once the first event is known, and on `yds_port`, which gives the bytes. It carries the promise that what is known at the end is what the definitions say of all
//! bytes, or that the line is told which is refused first, by its number in the text.
#![tactic(auto)]

mod first;
mod reading;
mod stopped;

pub use first::{NoBegin, begin};
pub use reading::{drain, read_trace};
pub use stopped::Stopped;

//! Answers: what a command writes, with the status of a run that wrote it, and how it is delivered to a sink.
//!
//! It stands on `text_line`, whose buffer makes a line, and on `yds_port`, whose sinks take bytes. It has the answers that several
//! commands give: a line that says yes or no, one for want of operating points, and the refusals. It carries the promise that an answer
//! that was delivered stands in the sink whole and flushed, or that the status tells the fault that came between.
#![tactic(auto)]

mod answer;
mod delivery;
mod refusal;
mod told;
mod with_points;

pub use answer::Answer;
pub use delivery::{deliver, reply};
pub use refusal::{RefusedAt, TooLong, Usage};
pub use told::Told;
pub use with_points::WithPoints;

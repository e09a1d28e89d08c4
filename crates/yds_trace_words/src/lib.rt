//! The words of the command line of `yds_trace`, what they ask for, and the texts that answer them alone.
//!
//! It stands on `yds_trace` for what may be asked of a trace, on `yds_trace_bounds` for from when to when, and on `yds_text`, which
//! reads numbers. It carries the promise that what is made of the words is what the definition of requests says of them, with
//! numbers within their limits whenever the first event was, or that the word which can't be taken is told by its name; and that
//! the trace is read from the files that the definition says. Want of memory is the only other answer.
#![tactic(auto)]

mod decimal;
mod fault;
mod letter;
mod limits;
mod request;
mod setting;
mod start;
mod tasks;
mod texts;

pub use fault::{NoRequest, Place, Reason, WordFault};
pub use limits::{MAX_LABEL, MAX_SPEEDS, MAX_TASKS, MAX_UNIT};
pub use request::{Request, read_words};
pub use setting::inputs;
pub use texts::{HELP, LINE_BYTES, VERSION, fault_line, push_shown};

//! The text of a document, printed.
//!
//! Each kind of line that is printed has a file of its own, named after it.
//!
//! It stands on `document_value` for the document, on `text_line` for the length of a line and on `yds_port` for the sink. It
//! carries the promise that what is printed is the canonical text of the definition in `yds_model`, or after a fault of the sink
//! a front of it, and that the document is within the limits, so that its text is read again as the same document. Lines are
//! made on the stack, so printing takes no memory.
#![tactic(auto)]

mod energy;
mod grid;
mod job;
mod kept_text;
mod level;
mod member;
mod piece;
mod point;
mod printing;
mod slot;
mod tail_buffer;

pub use printing::{print, write_mixed};

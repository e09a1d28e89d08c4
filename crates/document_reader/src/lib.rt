//! Documents, read from bytes.
//!
//! Each kind of line has a file of its own, named after it: how its fields are read, and what they add to the draft of the
//! document.
//!
//! It stands on `document_value` for the document, on the crates of its parts and on `yds_text` for the fields of a line. It
//! carries the promise that a document is read exactly as the definition of reading in `yds_model` says, faults with their
//! places among it, and that it is within the limits.
#![tactic(auto)]

mod dispatch;
mod draft;
mod energy;
mod fault;
mod field_fault;
mod fields;
mod grid;
mod job;
mod level;
mod line_fault;
mod line_kind;
mod member;
mod piece;
mod point;
mod reader;
mod run;
mod slot;
mod ticks;

pub use fault::DocFault;
pub use reader::read_document;

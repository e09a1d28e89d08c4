//! The lines of a trace, one after another, from a source that gives the trace in pieces.
//!
//! It stands on `yds_kernel` for what a line says, on `yds_port` for where the bytes come from, and on `memchr` for the
//! ends of lines. It keeps the promise that what the lines say that a reader gives, one after another, is what the
//! definitions say of the whole trace: none is missing, none is invented, and none depends on how the source cuts the
//! trace into pieces. A reader holds a quarter of a megabyte, whatever the trace's length and whatever that of a line.
#![tactic(auto)]

mod advance;
mod limits;
mod reader;

pub use advance::Advance;
pub use limits::ROOM;
pub use reader::TraceReader;

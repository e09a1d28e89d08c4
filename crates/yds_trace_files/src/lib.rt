//! The files that a trace comes from, read one behind the other, and what is told of one that can't be read.
//!
//! It stands on `yds_port`, whose sources it joins, and on `yds_trace_words` for how a comment shows a name. It carries the promise
//! that the bytes of the files are read one behind the other in the order of their names, that none is opened behind one that ends
//! within a line, and that a read which fails is told by the file that it failed of. What a name opens is left to a trait.
#![tactic(auto)]

mod files;
mod line;
mod unread;

pub use files::{Files, Opens};
pub use line::read_fault_line;
pub use unread::{FileFault, Input, Unread};

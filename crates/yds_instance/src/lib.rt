//! The jobs of a document with their names: rows in the order of the document, and each name's number.
//!
//! It stands on `yds_model`, whose job rows it keeps. It carries
//! the part of each promise that speaks of names: names are different, so a name means one job, and a
//! job's number is its place.
#![tactic(auto)]

mod fault;
mod instance;

pub use fault::AddFault;
pub use instance::Instance;

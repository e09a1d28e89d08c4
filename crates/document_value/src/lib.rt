//! What a document says: jobs with their names, operating points, the slots of a schedule, the levels of a
//! certificate, a grid and an energy.
//!
//! It stands on the crates of its parts. It carries the promise that every document is within the limits of `yds_model`.
//! `document_reader` makes it of bytes, and `document_text` prints it; neither stands on the other.
#![tactic(auto)]

mod document;
mod energy;
mod grid;
mod point;

pub use document::Document;
pub use grid::Grid;
pub use point::points_in;

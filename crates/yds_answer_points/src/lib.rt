//! The commands that need operating points: `round` and `compare`, each in a file.
//!
//! It stands on `yds_plan`, `yds_round` and `yds_compare`, which do the work, and on `yds_answer`, which delivers it. It carries the promise
//! that each writes the answer of the definitions to its question about the document, or that the points are too slow.
#![tactic(auto)]

mod compare;
mod round;

pub use compare::answer_compare;
pub use round::answer_round;

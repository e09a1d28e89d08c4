//! The commands that answer with other jobs than they are given: `admit` with those that fit under a top speed, `expand` with those of
//! periodic tasks.
//!
//! It stands on `yds_admit` and `yds_tasks`, which do the work, and on `yds_answer`, which delivers it. It carries the promise that each
//! writes the answer of the definitions to the document or to the tasks.
#![tactic(auto)]

mod admit;
mod admitted;
mod expand;

pub use admit::answer_admit;
pub use expand::{answer_tasks, answer_tasks_of};

//! The model of jobs on one processor of variable speed: what a job is, and the definitions that every
//! other crate's contracts cite.
//!
//! It stands on `base`, whose limits, statuses and definitions of lines it passes on. Its definitions, in
//! `specs/`, are what a reader of the proofs has to believe: what a feasible schedule is, what it means that
//! one is least, and what a certificate shows. Lemmas about them stand in `fraction_lemmas` and
//! `model_lemmas`, what follows from them in `yds_laws` and the crates of laws above it, and the worked
//! examples in `yds_examples`. None of its calls takes memory.
#![tactic(auto)]

mod job_row;
mod reason;
mod task_reason;

pub use base::{Memory, NumberFault, Status, limits};
pub use job_row::JobRow;
pub use reason::Reason;
pub use task_reason::TaskReason;

//! Admission under a top speed: in the order of the list, a job is admitted where a processor that is nowhere faster can
//! still serve it beside the jobs admitted before it, and for each other job an interval shows why not.
//!
//! It stands on `yds_model`, on `yds_laws` for the law that jobs can be served where no interval is overfull, and on
//! `yds_edf` for the schedule. Its promise is that the admitted jobs are those of the definition, that each refusal has
//! the first interval that forces it, and that the schedule serves the admitted jobs at or below the top speed, earliest
//! deadline first. `served_beside` of `yds_callers` shows how it is called.
#![tactic(auto)]

mod admission;
mod batch;
mod board;
mod candidate;
mod chain;
mod decision;
mod idle;
mod interval;
mod nearby;
mod pieces;
mod refusal;
mod room;
mod rows;
mod serving;
mod standing;
mod state;

pub use admission::{Admission, admit};
pub use refusal::Refusal;

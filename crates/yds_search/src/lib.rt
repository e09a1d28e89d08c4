//! The search for a plan: from jobs to groups of jobs and stretches of one speed each, and each job's shares of the
//! stretches. It partitions at the average speed, after Li, Yao and Yao (PNAS 2006).
//!
//! It stands on `yds_model`, `yds_fraction` and `yds_events`, and on `yds_timetable` for what a share is. Its one promise is
//! what `find` answers: groups that don't rise in speed, in which each job with work gets all its units and each stretch is
//! full, earliest deadline first.
#![tactic(auto)]

mod beginning;
mod closing;
mod filling;
mod found;
mod own;
mod search;
mod stack;

pub use found::{Found, Group, NO_GROUP};
pub use search::find;

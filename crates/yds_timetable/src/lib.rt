//! Timetables: stretches of time in their order, each with the pace at which it runs and the jobs' shares of it, or idle.
//!
//! It stands on `yds_model`, `yds_fraction`, `yds_events` and `yds_slots`, and whoever fills stretches with shares of jobs
//! stands on it. Its promise is that `lay` gives the slots of the definition: in each stretch one for each share, in order from
//! the stretch's start and without a gap, at the stretch's pace; and that `Timetable::of_shares` makes rows of a list of shares
//! in any order. Its proofs say what such slots are at each scale.
#![tactic(auto)]

mod laying;
pub mod limits;
mod pace;
mod share;
mod sorting;
mod timetable;

pub use laying::{lay, slots_at};
pub use pace::Pace;
pub use share::Share;
pub use timetable::Timetable;

#[cfg(test)]
mod tests;

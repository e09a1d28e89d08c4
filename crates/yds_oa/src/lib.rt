//! The policy Optimal Available on a grid: the speed is the greatest quotient of the pending work that is due by a deadline and
//! the time until then.
//!
//! It stands on `yds_edf`, whose loop over the event points it gives what each stretch serves. Its promise is that the run is
//! one of the definition, feasible and in order of the earliest deadline, with its exact count of the stretches in which
//! the greatest quotient wasn't whole.
#![tactic(auto)]

mod optimal_available;
mod quotient;
mod walk;

pub use optimal_available::{oa, oa_timetable};

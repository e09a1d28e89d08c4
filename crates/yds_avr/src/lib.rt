//! The policy Average Rate on a grid: the speed is the sum of work / (deadline - release) over the jobs in their windows.
//!
//! It stands on `yds_edf`, whose loop over the event points it gives what each stretch serves. Its promise is that the run is
//! one of the definition, feasible and in order of the earliest deadline, with its exact count of the stretches in which
//! some job's part was rounded up.
#![tactic(auto)]

mod average_rate;
mod rate;
mod roster;

pub use average_rate::{avr, avr_timetable};

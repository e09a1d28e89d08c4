//! A comparison on operating points: what a plan spends there, and what the runs of Average Rate and of Optimal Available on a
//! grid do.
//!
//! It stands on `yds_model`, `yds_table`, `yds_events`, `yds_timetable`, `yds_certificate`, `yds_plan`, `yds_edf`, `yds_avr`, `yds_oa`,
//! `yds_spending` and `yds_round`, and its proofs on lemmas of `yds_energy`. Its promise is that the times and the energies are those
//! of the model's definition, and that a side is too slow just where a stretch of its run is faster than the top point.
#![tactic(auto)]

mod comparison;
mod load;
mod side;

pub use comparison::{Comparison, compare};
pub use side::Side;

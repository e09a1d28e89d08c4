//! The curve of least excess: above each speed, the work that every feasible schedule of a plan's jobs has to do faster.
//! Between the speeds of the plan's levels it goes in a straight line.
//!
//! It stands on `yds_model`, `yds_fraction` and `yds_certificate`, and its proofs on the lemmas of `yds_laws` about
//! levels of falling speeds. It carries the promise that what it computes of a certificate's levels is the
//! curve of the definition, in lowest terms. That this is the least excess of all feasible schedules, where the levels
//! are a plan's, is a law of `yds_laws`.
#![tactic(auto)]

mod bends;
mod excess;

pub use bends::{Break, curve};
pub use excess::least_above;

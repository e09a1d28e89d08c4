//! What is spent on operating points: by a plan's levels, and by loads, in each of which work is done at one speed.
//!
//! It stands on `yds_model`, `yds_fraction`, `yds_hull`, `yds_table`, `yds_events`, `yds_timetable` and `yds_certificate`, and its
//! proofs on lemmas of `yds_energy`. Its promise is that the energy and the times are those of the model's definition: each load
//! runs at the points of the table's lower hull around its speed, as long at each as gives that speed.
#![tactic(auto)]

mod load;
mod plan;
mod spent;
mod time_share;

pub use load::Load;
pub use plan::plan_spent;
pub use spent::{Spent, spend};

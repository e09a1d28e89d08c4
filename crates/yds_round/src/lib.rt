//! Rounding a plan to operating points: the plan's slots on the points of a table, and what they spend.
//!
//! It stands on `yds_model`, `yds_laws`, `yds_fraction`, `yds_hull`, `yds_table`, `yds_events`, `yds_slots`, `yds_timetable`,
//! `yds_certificate`, `yds_plan` and `yds_spending`. Its one promise is that `round` answers a rounding by the model's definition, or that the table is too
//! slow just where it is; that no feasible schedule on the points spends less is a law of that definition.
#![tactic(auto)]

mod cut;
mod fault;
mod level_pace;
mod part;
mod rounding;
mod split;

pub use fault::RoundFault;
pub use rounding::{Rounded, fault_of, round};

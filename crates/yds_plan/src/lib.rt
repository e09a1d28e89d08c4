//! The offline plan: the slots and the certificate that do, above every speed, the least work that any
//! feasible schedule does.
//!
//! It stands on `yds_model`, `yds_fraction`, `yds_events`, `yds_search`, `yds_slots`, `yds_timetable` and `yds_certificate`. Its one promise is
//! that `plan` answers a plan by the model's definition, and `plan_levels` the levels of one; that it is least, for every speed and every convex power
//! function, are laws of that definition.
#![tactic(auto)]

mod layout;
mod planning;

pub use layout::{Planned, lay_out};
pub use planning::{plan, plan_levels, read_rows};

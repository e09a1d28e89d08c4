//! The laws of energy: what schedules spend by a table of operating points. Each is the contract of a call of no parameters
//! that does nothing.
//!
//! It stands on `yds_laws`, whose least schedules it prices, and on `yds_events` for stretches. It carries the promises that a
//! plan costs least by every convex table and, rounded, on the points of every table, and that no policy's run
//! spends less.
#![tactic(auto)]

mod comparison_laws;
mod energy_laws;
mod hull_laws;
mod rounding_laws;
mod split_laws;

pub use comparison_laws::{plan_spends_its_rounding, plan_spends_least};
pub use energy_laws::{
    feasible_have_a_common_scale, least_is_cheapest, least_is_cheapest_among_written,
    lines_are_at_most_energy, plans_cost_least, plans_cost_least_on_points,
    points_cost_at_least_the_hull,
};
pub use hull_laws::{hull_exists, hull_is_computed, hull_is_lowest};
pub use rounding_laws::{
    energy_is_one, levels_fit_the_horizon, one_scale_decides_energy, rounded_attains_the_hull,
    rounded_is_cheapest, rounded_is_feasible, too_slow_is_exact,
};
pub use split_laws::one_scale_decides_split;

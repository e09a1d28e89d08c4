//! A caller of each crate that others may call: some ten lines that show how the crate is called, and whose contract says what
//! a caller gets.
//!
//! It stands on the crates that it calls, and on `yds_laws` for what their answers are worth. Nothing stands on it.
#![tactic(auto)]

mod admits;
mod audits;
mod checks;
mod plans;
mod rounds;
mod runs_average_rate;
mod runs_optimal_available;

pub use admits::served_beside;
pub use audits::is_feasible;
pub use checks::is_shown_least;
pub use plans::least_schedule;
pub use rounds::energy_on_points;
pub use runs_average_rate::exact_average_rate;
pub use runs_optimal_available::exact_optimal_available;

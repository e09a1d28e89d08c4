//! The auditor of schedules: whether slots are feasible for jobs, and if not, the first cause.
//!
//! It stands on `yds_model`, `yds_fraction`, `yds_slots`, `yds_hull` and `yds_table`. Its promise is that the verdict is `Feasible` exactly
//! where the slots are a feasible schedule, and otherwise the first cause in the order of the slots and then of the
//! jobs. No call takes memory. `is_feasible` of `yds_callers` shows how it is called.
#![tactic(auto)]

mod auditor;
mod point_speed;
mod slot_verdict;
mod verdict;

pub use auditor::audit;
pub use verdict::Verdict;

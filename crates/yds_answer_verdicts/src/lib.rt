//! The commands that judge: `audit`, `check`, and `trial`, which has its own plan checked. Each stands in a file.
//!
//! It stands on `yds_audit` and `yds_checker`, which judge, on `yds_plan` for a trial, and on `yds_answer`, which delivers the answer. It
//! carries the promise that each writes the answer of the definitions to its question, and that a trial's plan is accepted.
#![tactic(auto)]

mod audit;
mod check;
mod trial;
mod verdict_line;

pub use audit::{answer_audit, answer_audit_on_points};
pub use check::answer_check;
pub use trial::answer_trial;

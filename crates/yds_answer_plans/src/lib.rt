//! The commands that answer with a schedule, and those that tell a plan's levels: `plan`, `avr` and `oa`, `curve` and `report`.
//!
//! It stands on `yds_plan`, `yds_avr`, `yds_oa`, `yds_curve` and `yds_report`, which do the work, and on `yds_answer`, which delivers it. It
//! carries the promise that each writes the answer of the definitions to its question about the document.
#![tactic(auto)]

mod curve;
mod plan;
mod policies;
mod report;
mod report_json;

pub use curve::answer_curve;
pub use plan::answer_plan;
pub use policies::{answer_average_rate, answer_optimal_available};
pub use report::answer_report;
pub use report_json::answer_report_as_json;

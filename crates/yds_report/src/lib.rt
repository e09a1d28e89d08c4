//! The report of a plan: its levels, with their works, lengths and speeds, as a table or as JSON.
//!
//! It stands on `document_value` for the document, on `text_line`, whose lines it makes on the stack, on `yds_certificate`
//! for the levels, and on `serde_json` for JSON. It carries the promise that what `report` writes is the report of the
//! definition, or after a fault of the sink a front of it, for which it takes no memory; and that the text of `json` is that
//! of the definition, and is read by `serde_json` as a value with the plan's levels.
#![tactic(auto)]

mod json_text;
mod numbers;
mod report_lines;
mod reporting;

pub use json_text::{json, reports_are_read};
pub use reporting::report;

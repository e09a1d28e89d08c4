//! Worked examples of what reports are worth: for each record a text that meets it and near misses that don't. They are proved
//! in `proofs/`, and nothing stands on this crate.
//!
//! It stands on `yds_report`, whose records it tries, and on `yds_examples` for a plan of three jobs.
#![tactic(auto)]

//! Worked examples of the definitions of a trace's jobs, and near misses.
//!
//! They are proved in `proofs/`, and nothing stands on this crate. It stands on `yds_trace`, `yds_trace_text` and
//! `yds_trace_parts`, whose definitions it tries.
#![tactic(auto)]

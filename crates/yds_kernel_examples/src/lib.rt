//! Worked examples of the definitions of a trace's lines, and near misses, as the kernel and the tools write them.
//!
//! They are proved in `proofs/`, and nothing stands on this crate. It stands on `yds_kernel`, whose definitions it tries.
#![tactic(auto)]

//! Worked examples of the laws of how much more a policy can spend: runs and plans that come near the laws' factors,
//! and near misses; and of the laws of groups' runs. They are proved in `proofs/`, and nothing stands on this crate.
//!
//! It stands on `yds_ratios` and `yds_group_runs`, whose laws it tries, and on `yds_examples` for the tests by which a
//! schedule is computed to be a run.
#![tactic(auto)]

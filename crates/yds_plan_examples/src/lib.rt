//! Worked examples of the laws of plans, and near misses. They are proved in `proofs/`, and nothing stands on this crate.
//!
//! It stands on `yds_plan_laws`, whose laws it tries, and on `yds_examples` for the tests by which slots and levels are computed to be a plan.
#![tactic(auto)]

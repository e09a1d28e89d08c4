//! Worked examples of the laws of costs on operating points of a power, and near misses. They are proved in `proofs/`, and nothing stands on this
//! crate.
//!
//! It stands on `yds_point_laws`, whose laws it tries, and on `yds_examples` for the tests by which slots are computed to be a run or a plan.
#![tactic(auto)]

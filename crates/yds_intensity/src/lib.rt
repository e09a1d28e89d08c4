//! Work confined to intervals: for each start, the sums of the works of the jobs whose windows lie between it and an end.
//! An interval's sum divided by its length is its intensity (Yao, Demers and Shenker, FOCS 1995).
//!
//! It stands on `yds_model` and its lemmas alone. Its promise is that `sums` has one sum for each deadline after the start, rising,
//! and that each is the work of just the jobs with a release at the start or later and a deadline at its end or
//! earlier. They are found in one walk over the jobs in order of their deadlines.
#![tactic(auto)]

mod deadline_order;
mod sweeping;

pub use deadline_order::order;
pub use sweeping::{Sum, sums, sweep};

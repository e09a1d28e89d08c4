//! The critical interval: the interval of time whose intensity, the work confined to it by its length, is the greatest
//! (Yao, Demers and Shenker, FOCS 1995). No processor that serves these jobs can be slower there.
//!
//! It stands on `yds_model` and `yds_intensity`. Its promise is that no interval between whole times has a greater intensity,
//! and that of all with that intensity it begins first, and of those that begin there ends last. The jobs are put in
//! order of their deadlines once, and swept over once for each release.
#![tactic(auto)]

mod interval;
mod search;

pub use interval::Interval;
pub use search::critical;

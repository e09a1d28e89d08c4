//! From what is known at a trace's end to one document: which jobs it has, with their windows, works and runs, which are late,
//! and which are left out.
//!
//! It stands on `yds_trace`, whose definitions say what a document has, and on `base` for the limits of its format. It
//! carries the promise that what is settled of the jobs is what the definitions in `specs/` say, and that each fault for which
//! a document isn't written is the first that there is.
#![tactic(auto)]

mod fault;
mod judge;
mod judged;
mod left_out;
mod limits;
mod membership;
mod name;
mod numbers;
mod other;
mod part;
mod placed;
mod plain;
mod run;
mod settlement;
mod units;
mod written;

pub use fault::{DocumentFault, LeftOut};
pub use judged::Judged;
pub use limits::{limit_fault, part_limit_fault};
pub use membership::belongs;
pub use name::Name;
pub use other::Other;
pub use part::{Part, Waiting, judge_waiting, settle_part};
pub use placed::Placed;
pub use plain::{is_plain, is_plain_shown};
pub use run::Run;
pub use settlement::{Settled, settle};
pub use units::Units;
pub use written::{Written, is_open, runs_end, written_end, written_runs};

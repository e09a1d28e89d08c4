//! Contracted time: time from which stretches are removed, as if they had never been, and back again to real time.
//! After each critical interval is served, the rest of the jobs is planned in the time that is left (Yao, Demers and Shenker,
//! FOCS 1995).
//!
//! It stands on `yds_model`, `yds_fraction`, `yds_slots` and `yds_certificate`. Contracts see a contraction as the list of the
//! removed stretches of real time. Its promise is that `place` takes from a time the removed time before it, and that `pieces`,
//! `remove` and `spread` invert it: they have just the units of time whose places were asked for and that aren't removed.
#![tactic(auto)]

mod contraction;
mod removed;
mod removing;
mod span;
mod spreading;

pub use contraction::Contraction;

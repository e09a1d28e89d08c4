//! Worked examples of the definitions: for each that has a premise, an existence or 'at each scale', something that meets it
//! and a near miss that doesn't. They are proved in `proofs/`, and nothing but other examples stands on this crate.
//! What computes is tried by a test, which `hlevel` puts together from the parts of the statement (`proofs/Tests.antt`).
//!
//! It stands on `yds_model`, whose definitions it tries, on the crates of laws for those that the laws alone have, and on `yds_events`,
//! `yds_timetable` and `yds_plan` for what they say of timelines and timetables.
#![tactic(auto)]

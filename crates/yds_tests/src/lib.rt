//! Tests of the program's crates that go by what these offer to others: what no clause says, as printed text, and each call once.
//!
//! It stands on the crates that it tests, and nothing stands on it. A crate with tests of its own is proved twice, once with them:
//! so those of the crates stand here together. Those of `yds_c`, `yds_hull`, `yds_instance`, `yds_slots`, `yds_tasks` and
//! `yds_timetable` stand in these crates: they call what is private, or have proofs of their own.
#![tactic(auto)]

#[cfg(test)]
mod admit;
#[cfg(test)]
mod avr;
#[cfg(test)]
mod certificate;
#[cfg(test)]
mod contract;
#[cfg(test)]
mod critical;
#[cfg(test)]
mod curve;
#[cfg(test)]
mod document;
#[cfg(test)]
mod edf;
#[cfg(test)]
mod events;
#[cfg(test)]
mod fraction;
#[cfg(test)]
mod intensity;
#[cfg(test)]
mod oa;
#[cfg(test)]
mod port;
#[cfg(test)]
mod report;
#[cfg(test)]
mod round;
#[cfg(test)]
mod run;
#[cfg(test)]
mod table;
#[cfg(test)]
mod text;
#[cfg(test)]
mod textbook;
#[cfg(test)]
mod worked_rows;

//! Tests of the crates that read kernel traces, by what these offer to others: what no clause says, as printed text, and each call
//! once.
//!
//! It stands on the crates that it tests, and nothing stands on it. A crate with tests of its own is proved twice, once with them:
//! so those of all these crates stand here together.
#![tactic(auto)]

#[cfg(test)]
mod kernel;
#[cfg(test)]
mod kernel_order;
#[cfg(test)]
mod kernel_text;
#[cfg(test)]
mod trace;
#[cfg(test)]
mod trace_files;
#[cfg(test)]
mod trace_parts;
#[cfg(test)]
mod trace_run;
#[cfg(test)]
mod trace_text;
#[cfg(test)]
mod trace_threads;
#[cfg(test)]
mod trace_words;

//! Lemmas about jobs, schedules, certificates, operating points and documents, that more than one crate
//! cites.
//!
//! It stands on `yds_model`, whose definitions they are about, and on `fraction_lemmas`. It has no code: that
//! the definitions stand below it, and the lemmas here, keeps crates that cite no lemma of these as they were
//! proved when one is added.
#![tactic(auto)]

//! Lemmas about fractions: their order, sums and multiples at a scale, common divisors and multiples, and
//! lowest terms.
//!
//! It stands on `yds_model`, whose definitions they are about, and has no code: a lemma that more than one
//! crate cites stands in the lowest crate that all of them can see.
#![tactic(auto)]

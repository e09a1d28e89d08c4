//! The laws of schedules on the operating points of a table, each as the contract of a call that does nothing.
//!
//! Two points around a level's speed are enough: Ishihara and Yasuura (ISLPED 1998).
ghost use Rattle.yds_texts.specs.RoundText.{RefusedIsTooSlow, RoundedHoldsLeastEnergy, RoundedIsAudited};

/// The text that `round` writes is read again as the document with slots that are feasible, each at the speed of a
/// point, and with their energy, which is the least of all feasible schedules on the points.
#[tactic(auto, using(crate::proofs::RoundText::rounded_holds_least_energy))]
pub fn rounded_holds_least_energy()
    ensures { RoundedHoldsLeastEnergy }
{}

/// `audit` answers the text that `round` writes with `feasible`, with `--points` and without.
#[tactic(auto, using(crate::proofs::RoundText::rounded_is_audited))]
pub fn rounded_is_audited()
    ensures { RoundedIsAudited }
{}

/// Where `round` refuses a table as too slow, no feasible schedule stays at or below the speed of its top point.
#[tactic(auto, using(crate::proofs::RoundText::refused_is_too_slow))]
pub fn refused_is_too_slow()
    ensures { RefusedIsTooSlow }
{}

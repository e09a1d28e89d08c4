//! The laws of what `audit` and `check` tell, each as the contract of a call that does nothing.
ghost use Rattle.yds_texts.specs.JudgedText.{JudgementsTellProper, VerdictsTellFeasible};

/// `check` is done and says `accepted` exactly where the document's levels are a proper certificate of its slots, and says
/// no exactly where they aren't. Where they are, the slots are feasible, least above every speed and, by every convex table,
/// cheapest.
pub fn judgements_tell_proper()
    ensures { JudgementsTellProper }
{}

/// `audit` is done and says `feasible` exactly where the document's slots are feasible, and says no exactly where they
/// aren't. With `--points` it is so where each also runs at the speed of a point.
#[tactic(auto, using(crate::proofs::JudgedText::verdicts_tell_feasible))]
pub fn verdicts_tell_feasible()
    ensures { VerdictsTellFeasible }
{}

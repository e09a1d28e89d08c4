//! The laws of plans, each as the contract of a call that does nothing.
ghost use Rattle.yds_texts.specs.PlanText.{PlansHoldTheHeadline, PlansAreFeasible, PlansAreAccepted};

/// The text that `plan` writes is read again as the document with its plan, whose slots are feasible and
/// least and whose levels are proper and explain them.
#[tactic(auto, using(crate::proofs::PlanText::plans_hold_the_headline))]
pub fn plans_hold_the_headline()
    ensures { PlansHoldTheHeadline }
{}

/// `audit` answers the text that `plan` writes with `feasible`.
#[tactic(auto, using(crate::proofs::PlanText::plan_texts_are_feasible))]
pub fn plan_texts_are_feasible()
    ensures { PlansAreFeasible }
{}

/// `check` answers the text that `plan` writes with `accepted`.
#[tactic(auto, using(crate::proofs::PlanText::plan_texts_are_accepted))]
pub fn plan_texts_are_accepted()
    ensures { PlansAreAccepted }
{}

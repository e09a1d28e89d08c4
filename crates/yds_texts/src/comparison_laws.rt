//! The laws of what schedules spend on the operating points of a table, stretch by stretch, each as the contract of a call that
//! does nothing.
ghost use Rattle.yds_texts.specs.CompareText.{ComparedAsRounded, ComparedIsTooSlow, ComparedPlanIsCheapest};

/// `compare` and `round` answer an input with the same status, and where they are done the plan's energy that the one tells is
/// the energy that the other tells.
#[tactic(auto, using(crate::proofs::CompareText::compared_as_rounded))]
pub fn compared_as_rounded()
    ensures { ComparedAsRounded }
{}

/// In each text of `compare` the energy of a policy, where it is told, isn't less than the plan's.
#[tactic(auto, using(crate::proofs::CompareText::compared_plan_is_cheapest))]
pub fn compared_plan_is_cheapest()
    ensures { ComparedPlanIsCheapest }
{}

/// Where `compare` says no, the table is too slow for the jobs: no feasible schedule stays at or below the speed of its top point.
pub fn compared_is_too_slow()
    ensures { ComparedIsTooSlow }
{}

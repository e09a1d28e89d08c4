//! The laws of plans, each as the contract of a call that does nothing.
ghost use Rattle.yds_laws.specs.Laws.{PlansAreLeast, PlansHaveTheSameLevels, PlansServeWork};

/// A plan's schedule is least, and the plan's levels explain it.
#[tactic(auto, using(crate::proofs::Plans::plans_are_least))]
pub fn plans_are_least()
    ensures { PlansAreLeast }
{}

/// Two plans of the same jobs have as many levels, of the same works and lengths.
#[tactic(auto, using(crate::proofs::Plans::plans_have_the_same_levels))]
pub fn plans_have_the_same_levels()
    ensures { PlansHaveTheSameLevels }
{}

/// A plan has no slot of a job without work.
#[tactic(auto, using(crate::proofs::Plans::plans_serve_work))]
pub fn plans_serve_work()
    ensures { PlansServeWork }
{}

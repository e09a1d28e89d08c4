//! What follows of plans, beside what other laws stand on. Each is the contract of a call of no parameters that does nothing.
//!
//! It stands on `yds_model`, whose definitions the laws speak of; on `yds_events` for event points and stretches; and on `yds_laws` and
//! `yds_energy` for what is known of plans and of their levels.
//! It carries the promises that a plan's levels are a proper certificate of just the least schedules, which have one speed at each instant; that
//! more jobs never slow any; that Optimal Available goes by the plan of what is pending; that jobs have at most one plan, which is rounded in one
//! way, and a policy at most one run for them, so that what goes by these has one answer; and of how many levels, pieces and slots there are at
//! most.
//! No limit of a document stands in it.
#![tactic(auto)]

ghost use Rattle.yds_plan_laws.specs.LeastLaws.{LevelsCertifyTheLeast};
ghost use Rattle.yds_plan_laws.specs.SpeedLaws.{LeastSpeedsAreOne};
ghost use Rattle.yds_plan_laws.specs.InstantLaws.{OneSpeedAtEachInstant, MoreJobsNeverSlow};
ghost use Rattle.yds_plan_laws.specs.PendingLaws.{OptimalAvailableGoesByThePlan, TheFirstLevelLasts, OptimalAvailableRunsAsPlanned};
ghost use Rattle.yds_plan_laws.specs.OneLaws.{LevelsAreOne, SlotsAreOne};
ghost use Rattle.yds_plan_laws.specs.AnswersOnce.{PlansAnswerOnce};
ghost use Rattle.yds_plan_laws.specs.RunsOnce.{RunsAreOne, RunsAnswerOnce};
ghost use Rattle.yds_plan_laws.specs.RoundOnce.{RoundingsAreOne, RoundAnswersOnce};
ghost use Rattle.yds_plan_laws.specs.CountLaws.{LevelsAreFew, PiecesAreFew, PlanSlotsAreFew, RunSlotsAreFew, RoundedSlotsAreFew};

/// A plan's levels are a proper certificate of a schedule exactly where that schedule is least.
pub fn levels_certify_the_least()
    ensures { LevelsCertifyTheLeast }
{}

/// So all least schedules run a job at one speed.
pub fn least_speeds_are_one()
    ensures { LeastSpeedsAreOne }
{}

/// And all of them run at one speed at each instant.
pub fn one_speed_at_each_instant()
    ensures { OneSpeedAtEachInstant }
{}

/// More jobs never slow any instant: the plan of some jobs is at each instant at most as fast as that of these jobs and more.
pub fn more_jobs_never_slow()
    ensures { MoreJobsNeverSlow }
{}

/// Optimal Available serves what the first level of the plan of the pending jobs does, rounded up to the grid: Yao, Demers and Shenker
/// (FOCS 1995), and Bansal, Kimbrel and Pruhs (J. ACM 2007), define it so.
pub fn optimal_available_goes_by_the_plan()
    ensures { OptimalAvailableGoesByThePlan }
{}

/// That level has all of the stretch.
pub fn the_first_level_lasts()
    ensures { TheFirstLevelLasts }
{}

/// So a run of it that never rounded has in each stretch the speed that the plan of the pending jobs has there.
pub fn optimal_available_runs_as_planned()
    ensures { OptimalAvailableRunsAsPlanned }
{}

/// Two plans of the same jobs have the same levels, with their works, lengths, pieces and members.
pub fn levels_are_one()
    ensures { LevelsAreOne }
{}

/// And the same slots, but for how their fractions are spelled.
pub fn slots_are_one()
    ensures { SlotsAreOne }
{}

/// `plan`, `report`, `report --json`, `curve`, `expand` and trials have one answer to each input.
pub fn plans_answer_once()
    ensures { PlansAnswerOnce }
{}

/// Two runs of a policy for the same jobs on the same grid rounded as often, and have the same slots.
pub fn runs_are_one()
    ensures { RunsAreOne }
{}

/// So `avr`, `oa`, `compare` and `admit` have one answer to each input.
pub fn runs_answer_once()
    ensures { RunsAnswerOnce }
{}

/// Plans of the same jobs, rounded to the same points, have the same slots and the same energy.
pub fn roundings_are_one()
    ensures { RoundingsAreOne }
{}

/// So `round` has one answer to each input.
pub fn round_answers_once()
    ensures { RoundAnswersOnce }
{}

/// A plan has no more levels than jobs with work.
pub fn levels_are_few()
    ensures { LevelsAreFew }
{}

/// A plan of some jobs has at most twice as many pieces as jobs, less one.
pub fn pieces_are_few()
    ensures { PiecesAreFew }
{}

/// A plan of some jobs has at most three times as many slots as jobs, less two.
pub fn plan_slots_are_few()
    ensures { PlanSlotsAreFew }
{}

/// So has a run of Average Rate or of Optimal Available.
pub fn run_slots_are_few()
    ensures { RunSlotsAreFew }
{}

/// Rounded to operating points, a plan of some jobs has at most five times as many slots as jobs, less three.
pub fn rounded_slots_are_few()
    ensures { RoundedSlotsAreFew }
{}

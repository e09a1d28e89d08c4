//! The laws of schedules on the operating points of a table, each as the contract of a call that does nothing.
//!
//! Two points around a level's speed are enough: Ishihara and Yasuura (ISLPED 1998).
ghost use Rattle.yds_energy.specs.RoundingLaws.{OneScaleDecidesEnergy, EnergyIsOne, LevelsFitTheHorizon, RoundedAttainsTheHull, RoundedIsCheapest, RoundedIsFeasible, TooSlowIsExact};

/// A fraction that is a written schedule's energy on the points at one of its scales is so at each.
pub fn one_scale_decides_energy()
    ensures { OneScaleDecidesEnergy }
{}

/// A feasible schedule has one energy on the points of a table.
pub fn energy_is_one()
    ensures { EnergyIsOne }
{}

/// The slots of a plan, rounded to a table's operating points, are a feasible schedule in which each slot runs at
/// the speed of a point.
#[tactic(auto, using(crate::proofs::RoundedOnPoints::rounded_is_feasible))]
pub fn rounded_is_feasible()
    ensures { RoundedIsFeasible }
{}

/// What the rounded slots of a plan spend at the points, with the idle time, is the energy of the plan's schedule
/// by the table's lower hull.
#[tactic(auto, using(crate::proofs::RoundedEnergy::rounded_attains_the_hull))]
pub fn rounded_attains_the_hull()
    ensures { RoundedAttainsTheHull }
{}

/// The lengths of a plan's levels are together at most the horizon.
#[tactic(auto, using(crate::proofs::LevelTimes::levels_fit_the_horizon))]
pub fn levels_fit_the_horizon()
    ensures { LevelsFitTheHorizon }
{}

/// The energy of a plan's rounded slots is at most that of each feasible schedule whose slots run at the speeds of
/// the table's points, whether the table is convex or not.
///
/// So it is for any table whose top speed is enough: a plan has no rounding on another.
#[tactic(auto, using(crate::proofs::RoundedCheapest::rounded_is_cheapest))]
pub fn rounded_is_cheapest()
    ensures { RoundedIsCheapest }
{}

/// The first level of a plan is faster than the table's top point exactly where no feasible schedule stays at or
/// below the top speed.
#[tactic(auto, using(crate::proofs::TooSlow::too_slow_is_exact))]
pub fn too_slow_is_exact()
    ensures { TooSlowIsExact }
{}

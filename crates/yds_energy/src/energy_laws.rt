//! The laws of energy, each as the contract of a call that does nothing.
//!
//! Energy is that of a table of operating points, after Ishihara and Yasuura (ISLPED 1998). It is compared times the
//! product of the gaps between the table's speeds, and at a common scale, so that no number is divided.
ghost use Rattle.yds_energy.specs.EnergyLaws.{FeasibleHaveACommonScale, LeastIsCheapest, LeastIsCheapestAmongWritten, LinesAreAtMostEnergy, PlansCostLeast, PlansCostLeastOnPoints, PointsCostAtLeastTheHull};

/// By a convex table of operating points, a schedule that is least above every speed has at most the energy of
/// each feasible schedule.
///
/// The table may have any size and any powers that make it convex. No schedule has to stay at or below its top
/// speed: above it the last line goes on.
#[tactic(auto, using(crate::proofs::Energy::least_is_cheapest))]
pub fn least_is_cheapest()
    ensures { LeastIsCheapest }
{}

/// A written schedule that is least above every speed has, by every convex table of any size, at most the energy of
/// each feasible written schedule, whatever denominators either has.
pub fn least_is_cheapest_among_written()
    ensures { LeastIsCheapestAmongWritten }
{}

/// Two feasible written schedules have a common scale, at which their energies can be compared.
pub fn feasible_have_a_common_scale()
    ensures { FeasibleHaveACommonScale }
{}

/// By a convex table, a plan's schedule has at most the energy of each feasible schedule.
#[tactic(auto, using(crate::proofs::PlansEnergy::plans_cost_least))]
pub fn plans_cost_least()
    ensures { PlansCostLeast }
{}

/// A schedule that runs at the speeds of a table's points spends at least its energy by the table's lower hull.
#[tactic(auto, using(crate::proofs::HullEnergy::points_cost_at_least_the_hull))]
pub fn points_cost_at_least_the_hull()
    ensures { PointsCostAtLeastTheHull }
{}

/// By the lower hull of any table, a plan's schedule has at most the energy that a feasible schedule spends at
/// the speeds of the table's points.
#[tactic(auto, using(crate::proofs::PlansEnergy::plans_cost_least_on_points))]
pub fn plans_cost_least_on_points()
    ensures { PlansCostLeastOnPoints }
{}

/// The line between any two neighbours of a table gives a slot at most the slot's energy.
///
/// So time at two neighbours, with the same work, costs no more than the interpolated energy.
#[tactic(auto, using(crate::proofs::LineEnergy::lines_are_at_most_energy))]
pub fn lines_are_at_most_energy()
    ensures { LinesAreAtMostEnergy }
{}

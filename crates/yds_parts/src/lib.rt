//! The laws of parts: a list of jobs may be cut at a time at which no window is open, and nothing is lost. Each is the contract of a
//! call of no parameters that does nothing.
//!
//! It stands on `yds_model`, whose definitions the laws speak of; on `yds_events` for event points; and on `yds_laws` and `yds_energy`
//! for what is known of plans and of parts of schedules.
//! It carries the promises that feasible slots of both parts, one after another, are feasible for all jobs, that least slots are
//! least, and that energies add, with what the first point costs between the parts; that the plans of the parts are least together and
//! cost least; and that runs of Average Rate or of Optimal Available are one run of all jobs. No limit of a document stands in it.
#![tactic(auto)]

ghost use Rattle.yds_parts.specs.PartsLaws.{FeasibleInParts, LeastInParts};
ghost use Rattle.yds_parts.specs.EnergyOfParts.{EnergyOfParts, EnergyOnPointsOfParts};
ghost use Rattle.yds_parts.specs.SpentOfParts.{TimesOfParts, StretchEnergyOfParts, SpentOfParts};
ghost use Rattle.yds_parts.specs.PlansOfParts.{PlansOfParts};
ghost use Rattle.yds_parts.specs.RunsOfParts.{AverageRateOfParts, OptimalAvailableOfParts, RunDenominatorsOfParts};

/// Slots of the first jobs and after them slots of the second give every job its work in its window exactly where each
/// part's slots do so for its jobs.
pub fn feasible_in_parts()
    ensures { FeasibleInParts }
{}

/// They do, for every speed, no more work above it than any feasible schedule of all jobs exactly where each part's slots do
/// so among those of its jobs. So the plans of both parts, one after another, are least for all jobs, and cost least by every
/// convex table.
pub fn least_in_parts()
    ensures { LeastInParts }
{}

/// By every table the interpolated energy of both parts together is the sum of theirs and of what the first point costs in the
/// time between them.
pub fn energy_of_parts()
    ensures { EnergyOfParts }
{}

/// The energy on the points of a table is so too, where each slot runs at the speed of one of them.
pub fn energy_on_points_of_parts()
    ensures { EnergyOnPointsOfParts }
{}

/// Where each stretch runs at one speed, both parts together run at each point of a table as long as each does, and the
/// first point has the time between them too.
pub fn times_of_parts()
    ensures { TimesOfParts }
{}

/// So what they spend is the sum of what each spends and of what the first point costs in the time between them.
pub fn stretch_energy_of_parts()
    ensures { StretchEnergyOfParts }
{}

/// As fractions in lowest terms, that energy and those times are what the slots of both parts spend.
pub fn spent_of_parts()
    ensures { SpentOfParts }
{}

/// The slots of a plan of each part, one after another, do the least work above every speed of all feasible schedules of all jobs,
/// and cost least by every convex table.
pub fn plans_of_parts()
    ensures { PlansOfParts }
{}

/// Runs of Average Rate of both parts, one after another, are its run of all jobs, since all jobs have the event points of both. As
/// many stretches round as in both parts.
pub fn average_rate_of_parts()
    ensures { AverageRateOfParts }
{}

/// So it is with runs of Optimal Available: nothing of the first part is pending when the second begins.
pub fn optimal_available_of_parts()
    ensures { OptimalAvailableOfParts }
{}

/// The slots of both runs keep the denominators of the stretches' units, in which runs are written.
pub fn run_denominators_of_parts()
    ensures { RunDenominatorsOfParts }
{}

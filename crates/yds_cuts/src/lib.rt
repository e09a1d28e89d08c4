//! The laws of cuts at which windows are open, and of any number of cuts. Each is the contract of a call of no parameters that does
//! nothing.
//!
//! It stands on `yds_parts`, whose laws are of one cut at which no window is open; and on `yds_model`, `yds_events`, `yds_laws` and
//! `yds_energy`, whose definitions and laws it speaks of.
//! It carries the promises that a verdict needs no closed window, only that each job has its slots on one side of a cut; that the least
//! energy lies between two bounds, each of them the parts' energies together; and that both are it, and all that is said of two parts is so
//! of any number, where no window is open. No limit of a document stands in it.
#![tactic(auto)]

ghost use Rattle.yds_cuts.specs.CutLaws.{
  OneAtATimeInEachPart,
  FeasibleInEachPart,
  OnTableInEachPart,
  EnergyInEachPart,
  EnergyOnPointsInEachPart,
};
ghost use Rattle.yds_cuts.specs.VerdictOfParts.{VerdictOfParts, VerdictWherePartsOverlap};
ghost use Rattle.yds_cuts.specs.Bounds.{
  GroupsCostAtMostAll,
  FewerJobsCostAtMostAll,
  GroupsCostAtMostAllOnPoints,
  FewerJobsCostAtMostAllOnPoints,
  LeastEnergiesAreALowerBound,
  CutsShorten,
  ShortenedIsFeasible,
  WindowsInTurnRunInTurn,
  ShortenedGroupsCost,
  AllCostAtMostShortened,
  ShortenedGroupsSpend,
  LeastEnergyIsAtMostShortened,
  BoundsMeet,
  LeastEnergyIsAtMostWritten,
};
ghost use Rattle.yds_cuts.specs.ClosedCuts.{
  LeastInEachPart,
  PlansOfEachPart,
  CheapestInEachPart,
  RoundedInEachPart,
  TimesOfEachPart,
  StretchEnergyOfEachPart,
  SpentOfEachPart,
  SidesOfParts,
};

/// Wherever jobs and slots are cut, all slots run one at a time exactly where each part's do and each part begins at or after the end
/// of the last slot before it.
pub fn one_at_a_time_in_each_part()
    ensures { OneAtATimeInEachPart }
{}

/// Where each job has all of its slots in its own part, all slots give every job its work in its window exactly where each part's do so
/// for its jobs, and each part begins at or after the end of the last slot before it. Windows may be open at the cuts.
pub fn feasible_in_each_part()
    ensures { FeasibleInEachPart }
{}

/// All slots run at speeds of a table exactly where each part's do.
pub fn on_table_in_each_part()
    ensures { OnTableInEachPart }
{}

/// The auditor's verdict on all slots is found from its verdicts on the parts: it is that of the first part whose verdict is about a
/// slot, else that of the first whose verdict is about a work, else 'feasible'. Slots and jobs are told by their numbers among all.
pub fn verdict_of_parts()
    ensures { VerdictOfParts }
{}

/// Where the first slot behind a cut begins before the last one in front of it has ended, the verdict on all slots is that of the first
/// part in front whose verdict is about a slot, else that the slot behind overlaps, or is backward where it takes no time. Nothing is
/// asked of the parts behind.
pub fn verdict_where_parts_overlap()
    ensures { VerdictWherePartsOverlap }
{}

/// Groups of jobs have each a schedule that is least for its own jobs, whatever windows overlap. By a convex table they cost together,
/// over the horizon of all jobs, at most what any feasible schedule of all jobs costs, where each job is in a group.
pub fn groups_cost_at_most_all()
    ensures { GroupsCostAtMostAll }
{}

/// So they do where jobs are left out, if no point has less power than the first: fewer jobs never cost more.
pub fn fewer_jobs_cost_at_most_all()
    ensures { FewerJobsCostAtMostAll }
{}

/// By the lower hull of any table they cost at most what any feasible schedule of all jobs spends on the table's points, where each
/// job is in a group.
pub fn groups_cost_at_most_all_on_points()
    ensures { GroupsCostAtMostAllOnPoints }
{}

/// So they do where jobs are left out, if no point of the hull has less power than the first.
pub fn fewer_jobs_cost_at_most_all_on_points()
    ensures { FewerJobsCostAtMostAllOnPoints }
{}

/// The least energies of groups on the points, as fractions, are together a lower bound of the energy of all jobs, over their horizon.
pub fn least_energies_are_a_lower_bound()
    ensures { LeastEnergiesAreALowerBound }
{}

/// The window of a job up to a cut, and that from a cut on, are windows that are shortened.
pub fn cuts_shorten()
    ensures { CutsShorten }
{}

/// Slots that are feasible for jobs with shortened windows are feasible for the jobs.
pub fn shortened_is_feasible()
    ensures { ShortenedIsFeasible }
{}

/// Where the windows of each group's jobs begin after those of the groups before have ended, feasible slots of the groups, one after
/// another, run one at a time.
pub fn windows_in_turn_run_in_turn()
    ensures { WindowsInTurnRunInTurn }
{}

/// Feasible slots of groups whose windows are shortened, one after another, are feasible for all jobs. By any table they cost together
/// what each costs, with idle time over the horizon of all jobs.
pub fn shortened_groups_cost()
    ensures { ShortenedGroupsCost }
{}

/// So a least schedule of all jobs costs at most that, by every convex table.
pub fn all_cost_at_most_shortened()
    ensures { AllCostAtMostShortened }
{}

/// On the points of any table they spend together what each does, with idle time over the horizon of all jobs.
pub fn shortened_groups_spend()
    ensures { ShortenedGroupsSpend }
{}

/// So the least energy of all jobs on the points is at most that, as fractions.
pub fn least_energy_is_at_most_shortened()
    ensures { LeastEnergyIsAtMostShortened }
{}

/// Where no window is open at a cut, both bounds are the least energy: least slots of groups whose windows are in turn, one after
/// another, are a feasible schedule of all jobs that costs what the groups do, and none costs less.
pub fn bounds_meet()
    ensures { BoundsMeet }
{}

/// Written slots and energies of groups with shortened windows bound the least energy of all jobs on the points, whatever denominators
/// they have.
pub fn least_energy_is_at_most_written()
    ensures { LeastEnergyIsAtMostWritten }
{}

/// By any table the interpolated energies of feasible parts that follow one another add, with idle time over the horizon of all jobs in
/// place of theirs. Windows may be open at the cuts.
pub fn energy_in_each_part()
    ensures { EnergyInEachPart }
{}

/// So do their energies on the points, as fractions.
pub fn energy_on_points_in_each_part()
    ensures { EnergyOnPointsInEachPart }
{}

/// At any number of cuts at which no window is open, all slots do no more work above any speed than any feasible schedule exactly where
/// each part's slots do so for its jobs.
pub fn least_in_each_part()
    ensures { LeastInEachPart }
{}

/// The slots of plans of the parts, one after another, are least for all jobs, and cost least by every convex table.
pub fn plans_of_each_part()
    ensures { PlansOfEachPart }
{}

/// Slots that spend the least energy on the points in each part do so together, and their energies add, with idle time over the horizon
/// of all jobs.
pub fn cheapest_in_each_part()
    ensures { CheapestInEachPart }
{}

/// So do the slots of plans of the parts, rounded to the points.
pub fn rounded_in_each_part()
    ensures { RoundedInEachPart }
{}

/// Where each stretch runs at one speed, the time at each point is the sum of the parts' times; the first point has besides what they
/// leave of the horizon.
pub fn times_of_each_part()
    ensures { TimesOfEachPart }
{}

/// So what all slots spend is the sum of what the parts do, with idle time over the horizon of all jobs.
pub fn stretch_energy_of_each_part()
    ensures { StretchEnergyOfEachPart }
{}

/// As fractions in lowest terms, energy and times of all slots are what the parts spend together, with idle time over the horizon of all
/// jobs.
pub fn spent_of_each_part()
    ensures { SpentOfEachPart }
{}

/// The side of a comparison for all slots is the first of the parts' sides for which the top point is too slow, with its stretch, and
/// elsewhere what all slots spend.
pub fn sides_of_parts()
    ensures { SidesOfParts }
{}

//! The laws of how much more a policy can spend than any feasible schedule, where power is speed to a whole exponent. Each is the contract
//! of a call of no parameters that does nothing.
//!
//! It stands on `yds_model`, whose definitions the laws speak of; on `yds_events` for stretches; on `yds_laws` for the confinement bound
//! and for runs that never rounded; and on `yds_energy` for slots by stretches. No limit of a document stands in it.
#![tactic(auto)]

ghost use Rattle.yds_ratios.specs.RatioLaws.{OneScaleDecidesSpending, PlansSpendLeast, OptimalAvailableAboveASpeed, OptimalAvailableOfTwoSpeeds, OptimalAvailableSpends, AverageRateSpends};

/// What slots spend at most of what others do, at one common scale, they do at each: a spending needs no scale.
pub fn one_scale_decides_spending()
    ensures { OneScaleDecidesSpending }
{}

/// A plan spends no more than any feasible schedule, where power is speed to any whole exponent of at least 1 (Yao, Demers, Shenker,
/// FOCS 1995).
pub fn plans_spend_least()
    ensures { PlansSpendLeast }
{}

/// What a run of Optimal Available that never rounded does above a speed is at most the work of the jobs in all of whose window it is
/// faster: for every speed, so for every power of speed at once.
pub fn optimal_available_above_a_speed()
    ensures { OptimalAvailableAboveASpeed }
{}

/// So what it does above a speed is at most what any feasible schedule does above any other, and that other speed times as long as the run
/// is faster than the first.
pub fn optimal_available_of_two_speeds()
    ensures { OptimalAvailableOfTwoSpeeds }
{}

/// Where power is speed to a whole exponent of at least 1, such a run spends at most the exponent to its own power times what any feasible
/// schedule does: 4 times for the square, 27 for the cube (Bansal, Kimbrel, Pruhs, J. ACM 2007).
pub fn optimal_available_spends()
    ensures { OptimalAvailableSpends }
{}

/// A run of Average Rate that never rounded spends at most 2 ^ (exponent - 1) times exponent ^ exponent times what any feasible schedule
/// of the same jobs does, for each whole exponent of at least 1: 8 times for the square, 108 times for the cube (Yao, Demers, Shenker,
/// FOCS 1995).
pub fn average_rate_spends()
    ensures { AverageRateSpends }
{}

//! The laws of the policies' runs, each as the contract of a call that does nothing.
ghost use Rattle.yds_laws.specs.RunLaws.{AverageRateIsExact, OptimalAvailableIsExact};

/// In a run of Average Rate that never rounded, each live job's part of a stretch is whole, and each stretch does just
/// their sum.
pub fn average_rate_is_exact()
    ensures { AverageRateIsExact }
{}

/// In a run of Optimal Available that never rounded, each stretch has the speed of the greatest quotient of the units
/// that are due by a pending job's deadline and the time until then.
pub fn optimal_available_is_exact()
    ensures { OptimalAvailableIsExact }
{}

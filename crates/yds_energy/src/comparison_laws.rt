//! The laws of what schedules spend on the operating points of a table, stretch by stretch, each as the contract of a call that
//! does nothing.
ghost use Rattle.yds_energy.specs.ComparisonLaws.{PlanSpendsItsRounding, PlanSpendsLeast};

/// What a plan spends, stretch by stretch, is the energy of a plan's rounded slots.
pub fn plan_spends_its_rounding()
    ensures { PlanSpendsItsRounding }
{}

/// A plan spends no more than the run of any policy for which the table's top point is fast enough.
pub fn plan_spends_least()
    ensures { PlanSpendsLeast }
{}

ghost use Rattle.yds_laws.specs.Laws.{ConfinementBound, ExplainedIsLeast, LeastAmongWritten, ProperExplains, ServedAtSpeed};

/// Different jobs that are confined to pieces of time force, in every feasible schedule and above each
/// speed, an excess of at least the work that the pieces don't take at that speed.
#[tactic(auto, using(crate::proofs::Bound::confinement_bound))]
pub fn confinement_bound()
    ensures { ConfinementBound }
{}

/// A proper certificate explains its schedule.
pub fn proper_explains()
    ensures { ProperExplains }
{}

/// A schedule that is explained is least.
pub fn explained_is_least()
    ensures { ExplainedIsLeast }
{}

/// A least schedule does no more work above any speed than any feasible written schedule, whatever the
/// denominators of either are.
pub fn least_among_written()
    ensures { LeastAmongWritten }
{}

/// A feasible schedule at or below a whole speed serves each interval: the work of the jobs whose windows lie
/// in it is at most the speed times its length.
pub fn served_at_speed()
    ensures { ServedAtSpeed }
{}

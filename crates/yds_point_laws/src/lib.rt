//! The laws of what schedules cost on operating points that lie on a power of speed, and of runs of Average Rate that round. Each is the contract of a
//! call of no parameters that does nothing.
//!
//! It stands on `yds_model`, whose definitions the laws speak of; on `yds_events` and `yds_laws` for stretches and for what slots give jobs; on
//! `yds_energy` for what a stretch costs on the points of a table; and on `yds_ratios` for what policies spend by a power. It carries the promises of
//! how far a cost on such points is from the power's, of how many times what a plan costs there a policy can cost, and of how far a run that rounds is
//! from its policy. No limit of a document stands in it.
#![tactic(auto)]

ghost use Rattle.yds_point_laws.specs.RateLaws.{RunsAreNearThePolicy, RunsSpendNearThePolicy, PolicySpendsAtMost, RunsSpendAtMost, RoundedRunsCostAtMost};
ghost use Rattle.yds_point_laws.specs.PointLaws.{PointsCostByPower, PoliciesCostAtMost, PoliciesCostTimes, SquaresCostAtMost};

/// On operating points that lie on a power of speed, plans and runs cost at least what they spend by the power.
///
/// They cost at most `(p/q)^(exponent-1)` times that, where neighbours above 0 are within the ratio `p/q`, and `slowest^(exponent-1)` for each unit of
/// work. The points of a speed are its two neighbours (Ishihara, Yasuura, ISLPED 1998).
pub fn points_cost_by_power()
    ensures { PointsCostByPower }
{}

/// So the run of a policy that never rounded costs on them at most `(p/q)^(exponent-1)` times the policy's factor times what a plan does, and
/// `slowest^(exponent-1)` for each unit of work.
///
/// The factor is `exponent^exponent` for Optimal Available (Bansal, Kimbrel, Pruhs, J. ACM 2007), and `2^(exponent-1)` times that for Average
/// Rate (Yao, Demers, Shenker, FOCS 1995).
pub fn policies_cost_at_most()
    ensures { PoliciesCostAtMost }
{}

/// On such points Optimal Available costs at most `(p/q)^(exponent-1)` times its factor times what a plan does, with nothing more; and Average Rate at
/// most that with its own factor, and what the plan does once more.
pub fn policies_cost_times()
    ensures { PoliciesCostTimes }
{}

/// On points of the square, the slowest of which is no faster than any level of a plan, the plan rounded to them costs at most `(p+q)^2/(4pq)` times
/// what it spends by the square.
pub fn squares_cost_at_most()
    ensures { SquaresCostAtMost }
{}

/// In each stretch a run of Average Rate is at most one unit of the grid faster than the policy itself for each live job whose part it rounds up, done
/// in all of the stretch (Yao, Demers, Shenker, FOCS 1995).
pub fn runs_are_near_the_policy()
    ensures { RunsAreNearThePolicy }
{}

/// So it spends at most `2^(exponent-1)` times what the policy itself and those units spend, together.
pub fn runs_spend_near_the_policy()
    ensures { RunsSpendNearThePolicy }
{}

/// The policy itself, on no grid, spends at most `2^(exponent-1)` times `exponent^exponent` times what any feasible schedule does (Yao, Demers,
/// Shenker, FOCS 1995).
pub fn policy_spends_at_most()
    ensures { PolicySpendsAtMost }
{}

/// So a run of Average Rate, whether it rounds or not, spends at most `2^(exponent-1)` times that and what the units that it rounds up would spend alone.
pub fn runs_spend_at_most()
    ensures { RunsSpendAtMost }
{}

/// And on operating points of a power it costs at most so many times, and so much for each unit of work, whether it rounds or not.
pub fn rounded_runs_cost_at_most()
    ensures { RoundedRunsCostAtMost }
{}

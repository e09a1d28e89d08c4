//! The numbers of a report: sums of jobs and levels, and the speed of a level.

ghost use Rattle.std.specs.Prelude.{◌≡◌, ◌-◌, ◌≤◌, length, sum_by};
ghost use Rattle.std.specs.List.{All};
ghost use Rattle.base.specs.declared.limits.TheConstants.{MAX_JOBS, MAX_LEVELS};
ghost use Rattle.yds_model.specs.Job.{IsJob};
ghost use Rattle.yds_model.specs.Divisor.{in_lowest_terms};
ghost use Rattle.yds_model.specs.Energy.{horizon};
ghost use Rattle.yds_model.specs.Within.{IsLevel};

use yds_certificate::Level;
use yds_events::horizon;
use yds_fraction::Amount;
use yds_model::JobRow;

/// The works of the jobs together, in units of work.
pub(crate) fn total_work(rows: &[JobRow]) -> u64
    requires few { length rows.now ≤ MAX_JOBS }
    requires jobs { All IsJob rows.now }
    ensures { result ≡ sum_by (λ job. job.work) rows.now }
{
    rows.iter().map(|row| u64::from(row.work)).sum()
}

/// The lengths of the levels together, in time units.
pub(crate) fn total_length(levels: &[Level]) -> u64
    requires few { length levels.now ≤ MAX_LEVELS }
    requires levels { All IsLevel levels.now }
    ensures { result ≡ sum_by (λ level. level.length) levels.now }
{
    levels.iter().map(|level| level.length).sum()
}

/// The length of the horizon less the lengths of the levels, in time units. A plan's levels are no longer than the horizon.
pub(crate) fn idle_time(rows: &[JobRow], levels: &[Level]) -> u64
    requires few { length levels.now ≤ MAX_LEVELS }
    requires levels { All IsLevel levels.now }
    ensures { result ≡ horizon rows.now - sum_by (λ level. level.length) levels.now }
{
    u64::from(horizon(rows)).saturating_sub(total_length(levels))
}

/// The speed of a level in lowest terms, in work per time unit.
pub(crate) fn speed_of(level: &Level) -> Amount
    requires { IsLevel level.now }
    ensures { result ≡ in_lowest_terms level.now.work level.now.length }
{
    let speed = level.speed().reduced();
    Amount::of_parts(u128::from(speed.num()), speed.den())
}

ghost use Rattle.std.specs.Prelude.{◌≡◌, ◌<◌, ◌≤◌, length, IfOk, IfSome};
ghost use Rattle.std.specs.List.{All};
ghost use Rattle.base.specs.declared.limits.TheConstants.{MAX_JOBS};
ghost use Rattle.yds_critical.specs.Critical.{IsCriticalOf};
ghost use Rattle.yds_critical.specs.Choice.{TakesTime, AreLater, IsPreferred, IsFoundAmongAll};

use crate::interval::Interval;
use std::alloc::Global;
use yds_intensity::{Sum, order, sweep};
use yds_model::{JobRow, Memory};

/// The one of the two intervals that goes before the other.
fn preferred(best: Option<Interval>, other: Interval) -> Interval
    requires forward { IfSome best TakesTime }
    requires other_forward { TakesTime other }
    ensures { IsPreferred best other result }
{
    match best {
        Some(first) => { if first.leads(&other) { first } else { other } }
        None => other,
    }
}

/// The best interval so far, or a better one of those that begin at this time and have these sums.
fn best_from(best: Option<Interval>, start: u32, sums: &[Sum]) -> Option<Interval>
    requires forward { IfSome best TakesTime }
    requires later { AreLater start sums.now }
    ensures { IsFoundAmongAll best start sums.now result }
{
    let mut found = best;
    for sum in sums {
        let other = Interval {
            start,
            end: sum.end,
            work: sum.work,
        };
        found = Some(preferred(found, other));
    }
    found
}

/// The critical interval of rows that have work: it begins at a release and ends at a deadline, no interval of time has a
/// greater intensity, and among the greatest it has the least start and then the greatest end. None exactly for no rows.
pub fn critical(alloc: Global, rows: &[JobRow]) -> Result<Option<Interval>, Memory>
    requires few { length rows.now ≤ MAX_JOBS }
    requires work { All (λ job. 1 ≤ job.work) rows.now }
    ensures { IfOk result (IsCriticalOf rows.now) }
{
    let order = order(alloc, rows)?;
    let mut best = None;
    for row in rows {
        let sums = sweep(alloc, rows, &order, row.release)?;
        best = best_from(best, row.release, &sums);
    }
    Ok(best)
}

ghost use Rattle.std.specs.Prelude.{◌≡◌, IfOk, OnOk};
ghost use Rattle.std.specs.List.{All};
ghost use Rattle.yds_model.specs.Job.{IsJob};
ghost use Rattle.yds_model.specs.Event.{event_points};
ghost use Rattle.yds_events.specs.Keys.{ends_of};

use std::alloc::Global;
use yds_model::{JobRow, Memory};

/// The event points of the jobs, in time units: their releases and deadlines, rising, without repeats.
pub fn events(alloc: Global, rows: &[JobRow]) -> Result<Vec<u32>, Memory>
    ensures { IfOk result (λ times. times.items ≡ event_points rows.now) }
{
    rising_times(alloc, rows)
}

/// The event points. That it reads each row shows that each is a job within the limits.
pub(crate) fn rising_times(alloc: Global, rows: &[JobRow]) -> Result<Vec<u32>, Memory>
    ensures times { IfOk result (λ times. times.items ≡ event_points rows.now) }
    ensures jobs { OnOk result (All IsJob rows.now) }
{
    let mut times = ends(alloc, rows)?;
    times.sort_unstable();
    times.dedup();
    Ok(times)
}

/// The jobs' releases and deadlines, in time units, in the jobs' order.
pub(crate) fn ends(alloc: Global, rows: &[JobRow]) -> Result<Vec<u32>, Memory>
    ensures ends { IfOk result (λ ends. ends.items ≡ ends_of rows.now) }
    ensures jobs { OnOk result (All IsJob rows.now) }
{
    let mut ends = Vec::with_capacity(alloc, 2 * rows.len())?;
    for row in rows {
        ends.push(row.release)?;
        ends.push(row.deadline)?;
    }
    Ok(ends)
}

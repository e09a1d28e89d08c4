ghost use Rattle.std.specs.Prelude.{◌≡◌, ◌≤◌, length, IfOk, OnOk};
ghost use Rattle.base.specs.declared.limits.TheConstants.{MAX_JOBS};
ghost use Rattle.yds_intensity.specs.DeadlineOrder.{IsDeadlineOrder};
ghost use Rattle.yds_intensity.specs.Sums.{AreSums};
ghost use Rattle.yds_intensity.specs.Put.{IsPut};

use crate::deadline_order::order;
use std::alloc::Global;
use yds_model::{JobRow, Memory};

/// The work confined to an interval that begins at a given start.
#[derive(Clone, Copy, Debug, PartialEq, Eq)]
pub struct Sum {
    /// Where the interval ends, in time units: a deadline.
    pub end: u32,
    /// The work of the rows whose windows lie in the interval, in units of work.
    pub work: u64,
}

/// Puts the sum last. It takes the place of the last one where both have the same end.
fn put(sums: &mut Vec<Sum>, sum: Sum) -> Result<(), Memory>
    ensures { OnOk result (IsPut sums.old.items sum sums.new.items) }
{
    let ends_there = match sums.last() {
        Some(last) => last.end == sum.end,
        None => false,
    };
    if ends_there {
        let _last = sums.pop();
    }
    sums.push(sum)?;
    Ok(())
}

/// One sum for each deadline of the rows after `start` (in time units), in order of deadline: the work of the rows
/// with a release at least `start` and a deadline at most its end. `order` is that of `order`.
pub fn sweep(alloc: Global, rows: &[JobRow], order: &[u32], start: u32) -> Result<Vec<Sum>, Memory>
    requires few { length rows.now ≤ MAX_JOBS }
    requires order { IsDeadlineOrder rows.now order.now }
    ensures { IfOk result (λ sums. AreSums rows.now start sums.items) }
{
    let mut sums = Vec::new(alloc);
    let mut work = 0;
    for number in order {
        let row = &rows[*number as usize];
        if row.release >= start {
            work += u64::from(row.work);
        }
        if row.deadline > start {
            put(
                &mut sums,
                Sum {
                    end: row.deadline,
                    work,
                },
            )?;
        }
    }
    Ok(sums)
}

/// One sum for each deadline of the rows after `start` (in time units), in order of deadline: the work of the rows
/// with a release at least `start` and a deadline at most its end.
pub fn sums(alloc: Global, rows: &[JobRow], start: u32) -> Result<Vec<Sum>, Memory>
    requires few { length rows.now ≤ MAX_JOBS }
    ensures { IfOk result (λ sums. AreSums rows.now start sums.items) }
{
    let order = order(alloc, rows)?;
    sweep(alloc, rows, &order, start)
}

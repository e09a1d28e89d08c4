ghost use Rattle.std.specs.Prelude.{◌≡◌, ◌≤◌, length, map, IfOk};
ghost use Rattle.std.specs.List.{range_with_len};
ghost use Rattle.std.specs.List.Sorted.{IsPermutation, IsNonDecreasingBy};
ghost use Rattle.base.specs.declared.limits.TheConstants.{MAX_JOBS};
ghost use Rattle.yds_intensity.specs.DeadlineOrder.{IsDeadlineOrder};
ghost use Rattle.yds_intensity.specs.Due.{due_of, AreByDeadline};

use std::alloc::Global;
use yds_model::{JobRow, Memory};

/// A row by its deadline.
#[derive(Clone, Copy, Debug)]
struct Due {
    /// The row's deadline, in time units.
    deadline: u32,
    /// The row's number, from 0.
    number: u32,
}

/// The rows' deadlines with their numbers, in order of number.
fn dues(alloc: Global, rows: &[JobRow]) -> Result<Vec<Due>, Memory>
    requires few { length rows.now ≤ MAX_JOBS }
    ensures { IfOk result (λ dues. dues.items ≡ map (due_of rows.now) (range_with_len 0 (length rows.now))) }
{
    let mut dues = Vec::new(alloc);
    for (number, row) in rows.iter().enumerate() {
        dues.push(Due {
            deadline: row.deadline,
            number: number as u32,
        })?;
    }
    Ok(dues)
}

/// The numbers of the rows in order of their deadlines, those with the same deadline in order of number.
pub fn order(alloc: Global, rows: &[JobRow]) -> Result<Vec<u32>, Memory>
    requires few { length rows.now ≤ MAX_JOBS }
    ensures { IfOk result (λ order. IsDeadlineOrder rows.now order.items) }
{
    let mut dues = dues(alloc, rows)?;
    dues.sort_by_key(|due| due.deadline)?;
    let mut order = Vec::new(alloc);
    for due in &dues {
        order.push(due.number)?;
    }
    Ok(order)
}

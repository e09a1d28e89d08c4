ghost use Rattle.std.specs.Prelude.{◌≡◌, ℕ, ◌+◌, ◌*◌, ◌≤◌, ◌<◌, IfOk, OnOk, length, slice_index, All};
ghost use Rattle.std.specs.List.Sorted.{IsPermutation, IsNonDecreasingBy};
ghost use Rattle.base.specs.Numbers.{Each};
ghost use Rattle.yds_model.specs.Job.{IsJob};
ghost use Rattle.yds_edf.specs.DueOrder.{due_jobs, due_at, place_in_order};

use std::alloc::Global;
use yds_model::limits::MAX_JOBS;
use yds_model::{JobRow, Memory};

/// Above every tie.
const TIES: u64 = 4_294_967_296;

/// A job with its release and its deadline, in time units.
#[derive(Clone, Copy, Debug)]
pub struct Due {
    /// When it is released.
    pub release: u32,
    /// When it is due.
    pub deadline: u32,
    /// What orders jobs of the same deadline.
    pub tie: u32,
    /// The job's number, from 0.
    pub job: u32,
}

/// The jobs in order of their deadlines, those of the same deadline in order of their ties.
pub(crate) fn by_deadline(alloc: Global, rows: &[JobRow], ties: &[u32]) -> Result<Vec<Due>, Memory>
    requires few { length rows.now ≤ MAX_JOBS }
    requires all_tied { length ties.now ≡ length rows.now }
    ensures same { IfOk result (λ order. IsPermutation (due_jobs rows.now ties.now) order.items) }
    ensures rising { IfOk result (λ order. IsNonDecreasingBy place_in_order order.items) }
{
    let mut order = in_list_order(alloc, rows, ties)?;
    order.sort_unstable_by_key(|due| u64::from(due.deadline) * TIES + u64::from(due.tie));
    Ok(order)
}

/// The jobs in order of their releases.
pub(crate) fn by_release(alloc: Global, rows: &[JobRow], ties: &[u32]) -> Result<Vec<Due>, Memory>
    requires few { length rows.now ≤ MAX_JOBS }
    requires all_tied { length ties.now ≡ length rows.now }
    ensures jobs { OnOk result (All IsJob rows.now) }
    ensures same { IfOk result (λ order. IsPermutation (due_jobs rows.now ties.now) order.items) }
    ensures rising { IfOk result (λ order. IsNonDecreasingBy (λ due. due.release) order.items) }
{
    let mut order = in_list_order(alloc, rows, ties)?;
    order.sort_unstable_by_key(|due| due.release);
    Ok(order)
}

/// The jobs in order of their numbers.
fn in_list_order(alloc: Global, rows: &[JobRow], ties: &[u32]) -> Result<Vec<Due>, Memory>
    requires few { length rows.now ≤ MAX_JOBS }
    requires all_tied { length ties.now ≡ length rows.now }
    ensures jobs { OnOk result (All IsJob rows.now) }
    ensures order { IfOk result (λ order. order.items ≡ due_jobs rows.now ties.now) }
{
    let mut order = Vec::with_capacity(alloc, rows.len())?;
    for (number, row) in rows.iter().enumerate() {
        order.push(Due {
            release: row.release,
            deadline: row.deadline,
            tie: ties[number],
            job: number as u32,
        })?;
    }
    Ok(order)
}

/// The place of each job in this order, by the jobs' numbers.
pub(crate) fn places_in(
    alloc: Global,
    rows: &[JobRow],
    ties: &[u32],
    order: &[Due],
) -> Result<Vec<u32>, Memory>
    requires few { length rows.now ≤ MAX_JOBS }
    requires same { IsPermutation (due_jobs rows.now ties.now) order.now }
    ensures long { IfOk result (λ places. length places.items ≡ length order.now) }
    ensures places { IfOk result (λ places. Each (length order.now) (λ place. slice_index places.items (due_at order.now place).job ≡ place)) }
{
    let mut places = vec![in alloc; 0; rows.len()]?;
    for (place, due) in order.iter().enumerate() {
        places[due.job as usize] = place as u32;
    }
    Ok(places)
}

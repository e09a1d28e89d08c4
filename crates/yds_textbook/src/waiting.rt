ghost use Rattle.std.specs.Prelude.{◌≡◌, ℕ, ◌*◌, ◌<◌, ◌≤◌, List, [], length, filter, IfOk};
ghost use Rattle.std.specs.List.{All};
ghost use Rattle.base.specs.declared.limits.TheConstants.{MAX_JOBS};
ghost use Rattle.yds_intensity.specs.DeadlineOrder.{IsDeadlineOrder};
ghost use Rattle.yds_critical.specs.Critical.{IsCriticalOf};
ghost use Rattle.yds_contract.specs.Contracted.{place};
ghost use Rattle.yds_events.specs.Stretch.{nth_stretch};
ghost use Rattle.yds_textbook.specs.Waiting.{contracted, contracted_jobs, CanWait, job_has_work, inside, outside, contracted_stretches, is_left_in, stretches_inside};

use crate::window::is_within;
use std::alloc::Global;
use yds_contract::Contraction;
use yds_critical::{Interval, critical};
use yds_events::Stretch;
use yds_intensity::order;
use yds_model::{JobRow, Memory};

/// The jobs that wait, and the time that is left for them.
#[derive(Clone, Copy)]
pub(crate) struct Left<'a> {
    /// All jobs.
    pub rows: &'a [JobRow],
    /// The stretches between the jobs' event points.
    pub timeline: &'a [Stretch],
    /// The time that is taken.
    pub taken: &'a Contraction,
    /// The numbers of the jobs that wait, in order of deadline.
    pub waiting: &'a [u32],
}

/// The numbers of the jobs with work, in order of deadline.
pub(crate) fn jobs_with_work(alloc: Global, rows: &[JobRow]) -> Result<Vec<u32>, Memory>
    requires { length rows.now ≤ MAX_JOBS }
    ensures all { IfOk result (λ waiting. (order : List ℕ) × IsDeadlineOrder rows.now order × (waiting.items ≡ filter (job_has_work rows.now) order)) }
    ensures can_wait { IfOk result (λ waiting. All (CanWait rows.now []) waiting.items) }
    ensures few { IfOk result (λ waiting. length waiting.items ≤ length rows.now) }
{
    let mut waiting = Vec::new(alloc);
    for number in &order(alloc, rows)? {
        let row = &rows[*number as usize];
        if row.work > 0 {
            waiting.push(*number)?;
        }
    }
    Ok(waiting)
}

/// The job in the time that is left.
fn contracted(taken: &Contraction, row: &JobRow) -> JobRow
    requires { place taken.now row.now.release < place taken.now row.now.deadline }
    ensures { result ≡ contracted taken.now row.now }
{
    let release = taken.place(row.release);
    let deadline = taken.place(row.deadline);
    JobRow::new(release, deadline, row.work)
}

/// The jobs with these numbers, in the time that is left.
pub(crate) fn contracted_rows(
    alloc: Global,
    rows: &[JobRow],
    taken: &Contraction,
    numbers: &[u32],
) -> Result<Vec<JobRow>, Memory>
    requires { All (CanWait rows.now taken.now) numbers.now }
    ensures { IfOk result (λ contracted. contracted.items ≡ contracted_jobs rows.now taken.now numbers.now) }
{
    let mut left = Vec::new(alloc);
    for number in numbers {
        left.push(contracted(taken, &rows[*number as usize]))?;
    }
    Ok(left)
}

/// The critical interval of the jobs with these numbers, in the time that is left. None exactly where there are none.
pub(crate) fn next_interval(
    alloc: Global,
    rows: &[JobRow],
    taken: &Contraction,
    waiting: &[u32],
) -> Result<Option<Interval>, Memory>
    requires few { length waiting.now ≤ MAX_JOBS }
    requires can_wait { All (CanWait rows.now taken.now) waiting.now }
    ensures { IfOk result (IsCriticalOf (contracted_jobs rows.now taken.now waiting.now)) }
{
    let left = contracted_rows(alloc, rows, taken, waiting)?;
    critical(alloc, &left)
}

/// The numbers of the waiting jobs whose windows in the time that is left lie in the interval, and those of the others.
pub(crate) fn parted(
    alloc: Global,
    rows: &[JobRow],
    taken: &Contraction,
    waiting: &[u32],
    interval: &Interval,
) -> Result<(Vec<u32>, Vec<u32>), Memory>
    requires { All (CanWait rows.now taken.now) waiting.now }
    ensures members { IfOk result (λ parts. parts.0.items ≡ inside rows.now taken.now interval.now waiting.now) }
    ensures others { IfOk result (λ parts. parts.1.items ≡ outside rows.now taken.now interval.now waiting.now) }
{
    let mut members = Vec::new(alloc);
    let mut others = Vec::new(alloc);
    for number in waiting {
        let row = contracted(taken, &rows[*number as usize]);
        if is_within(&row, interval.start, interval.end) {
            members.push(*number)?;
        } else {
            others.push(*number)?;
        }
    }
    Ok((members, others))
}

/// Whether some of the stretch is left, and it lies in the interval in the time that is left.
fn is_left_in(taken: &Contraction, stretch: Stretch, interval: &Interval) -> bool
    ensures { result ≡ is_left_in taken.now interval.now stretch }
{
    let from = taken.place(stretch.from);
    let to = taken.place(stretch.to);
    from < to && interval.start <= from && to <= interval.end
}

/// The numbers of the stretches that lie in the interval, in the time that is left.
pub(crate) fn stretches_inside(
    alloc: Global,
    timeline: &[Stretch],
    taken: &Contraction,
    interval: &Interval,
) -> Result<Vec<u32>, Memory>
    requires { length timeline.now ≤ 2 * MAX_JOBS }
    ensures { IfOk result (λ numbers. numbers.items ≡ stretches_inside timeline.now taken.now interval.now) }
{
    let mut numbers = Vec::new(alloc);
    for (number, stretch) in timeline.iter().enumerate() {
        if is_left_in(taken, *stretch, interval) {
            numbers.push(number as u32)?;
        }
    }
    Ok(numbers)
}

/// The stretches with these numbers, in the time that is left.
pub(crate) fn contracted_stretches(
    alloc: Global,
    timeline: &[Stretch],
    taken: &Contraction,
    numbers: &[u32],
) -> Result<Vec<Stretch>, Memory>
    requires known { All (λ k. k < length timeline.now) numbers.now }
    requires left { All (λ k. place taken.now (nth_stretch timeline.now k).from < place taken.now (nth_stretch timeline.now k).to) numbers.now }
    ensures { IfOk result (λ left. left.items ≡ contracted_stretches timeline.now taken.now numbers.now) }
{
    let mut left = Vec::new(alloc);
    for number in numbers {
        let stretch = timeline[*number as usize];
        left.push(Stretch::new(taken.place(stretch.from), taken.place(stretch.to)))?;
    }
    Ok(left)
}

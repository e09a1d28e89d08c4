ghost use Rattle.std.specs.Prelude.{◌≡◌, ◌*◌, ◌<◌, ◌≤◌, ◌++◌, ◌∷◌, [], nat_le, if◌then◌else◌, IfOk, MatchOption, length, take, All};
ghost use Rattle.std.specs.List.Sorted.{IsPermutation, IsNonDecreasingBy};
ghost use Rattle.base.specs.declared.limits.TheConstants.{MAX_WORK};
ghost use Rattle.yds_model.specs.Job.{IsJob, job_at};
ghost use Rattle.yds_model.specs.Confined.{released_work};
ghost use Rattle.yds_admit.specs.Interval.{HasRoomFrom, IsFirstFrom};

use crate::rows::Rows;
use yds_model::limits::{MAX_JOBS, MAX_TOP};
use yds_model::{JobRow, Memory};

/// An interval with more work in it than the top speed does there.
#[derive(Clone, Copy)]
pub(crate) struct Overfull {
    /// Where it begins, in time units.
    pub(crate) from: u32,
    /// Where it ends, in time units.
    pub(crate) to: u32,
    /// The work of the jobs whose windows lie in it, in units of work.
    pub(crate) work: u64,
}

/// Sorts the jobs by rising deadlines.
pub(crate) fn sort_by_deadline(jobs: &mut Vec<JobRow>) -> Result<(), Memory>
    ensures same { IfOk result (λ _. IsPermutation jobs.old.items jobs.new.items) }
    ensures rising { IfOk result (λ _. IsNonDecreasingBy (λ job. job.deadline) jobs.new.items) }
{
    jobs.sort_by_key(|job| job.deadline)?;
    Ok(())
}

/// The first interval from `from` that is overfull with one job more, if there is one. Without the job there is none: so it ends at
/// the job's deadline or later.
pub(crate) fn overfull_from(
    by_deadline: &Rows,
    row: &JobRow,
    from: u32,
    top: u32,
) -> Option<Overfull>
    requires few { length by_deadline.now ≤ MAX_JOBS }
    requires are { All IsJob by_deadline.now }
    requires top_in_range { top ≤ MAX_TOP }
    requires rising { IsNonDecreasingBy (λ job. job.deadline) by_deadline.now }
    requires until { from ≤ row.now.release }
    requires alone { HasRoomFrom top by_deadline.now from }
    ensures { MatchOption result
        (HasRoomFrom top (by_deadline.now ++ row.now ∷ []) from)
        (λ overfull. IsFirstFrom top (by_deadline.now ++ row.now ∷ []) from overfull.from overfull.to overfull.work) }
{
    // All that is due by the job's deadline is counted in one walk.
    let place = by_deadline.due_before(row.deadline + 1);
    let mut work = u64::from(row.work) + released_before(by_deadline, place, from);
    let mut to = row.deadline;
    for number in place..by_deadline.len() {
        let deadline = by_deadline.deadline(number);
        if to < deadline {
            if work > u64::from(top) * u64::from(to - from) {
                return Some(Overfull { from, to, work });
            }
            to = deadline;
        }
        work += released_part(by_deadline, number, from);
    }
    if work > u64::from(top) * u64::from(to - from) {
        return Some(Overfull { from, to, work });
    }
    None
}

/// The work of the jobs before a place that are released at a time or later, in units of work.
fn released_before(by_deadline: &Rows, place: usize, from: u32) -> u64
    requires few { length by_deadline.now ≤ MAX_JOBS }
    requires within { place ≤ length by_deadline.now }
    requires are { All IsJob by_deadline.now }
    requires rising { IsNonDecreasingBy (λ job. job.deadline) by_deadline.now }
    ensures sum { result ≡ released_work (take place by_deadline.now) from }
    ensures few { result ≤ place * MAX_WORK }
{
    let mut work = 0;
    // Those that are due before that time were released before it.
    for number in by_deadline.due_before(from).min(place)..place {
        work += released_part(by_deadline, number, from);
    }
    work
}

/// The work of one of the jobs, in units of work, if it is released at a time or later, and else none.
#[inline]
fn released_part(by_deadline: &Rows, number: usize, from: u32) -> u64
    requires known { number < length by_deadline.now }
    requires are { All IsJob by_deadline.now }
    ensures part { result ≡ (if nat_le from (job_at by_deadline.now number).release then (job_at by_deadline.now number).work else 0) }
    ensures few { result ≤ MAX_WORK }
{
    let work = u64::from(by_deadline.work(number));
    if from <= by_deadline.release(number) {
        work
    } else {
        0
    }
}

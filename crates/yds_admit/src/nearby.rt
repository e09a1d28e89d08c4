ghost use Rattle.std.specs.Prelude.{◌≡◌, ℕ, ◌+◌, ◌*◌, ◌<◌, ◌≤◌, ◌⊎◌, nat_le, if◌then◌else◌, length, slice_index, sum_by};
ghost use Rattle.base.specs.declared.limits.TheConstants.{MAX_WORK};
ghost use Rattle.yds_model.specs.Job.{job_at};
ghost use Rattle.yds_admit.specs.Pieces.{went};

use crate::pieces::Pieces;
use yds_model::JobRow;
use yds_model::limits::MAX_JOBS;

/// The release of the last of the pieces, or one more job's where that is earlier or there is none.
pub(crate) fn earliest(pieces: &Pieces, row: &JobRow) -> u32
    ensures own { result ≤ row.now.release }
    ensures last { (i : ℕ) → i + 1 ≡ length pieces.now.jobs → result ≤ (job_at pieces.now.jobs i).release }
    ensures one { result ≡ row.now.release ⊎ (i : ℕ) × (i < length pieces.now.jobs) × (result ≡ (job_at pieces.now.jobs i).release) }
{
    let count = pieces.jobs.len();
    if count == 0 {
        return row.release;
    }
    pieces.jobs.release(count - 1).min(row.release)
}

/// The units before the place `end` of so many pieces: from theirs, or from those of the others where these are fewer.
pub(crate) fn units_before(pieces: &Pieces, count: usize, end: usize) -> u64
    requires as_long { length pieces.now.places.items ≡ length pieces.now.jobs }
    requires few { sum_by (λ job. job.work) pieces.now.jobs ≤ MAX_JOBS * MAX_WORK }
    requires within { count ≤ length pieces.now.jobs }
    requires known { end < length pieces.now.used.items }
    requires used { slice_index pieces.now.used.items end ≡ went (length pieces.now.jobs) pieces.now.jobs pieces.now.places.items end }
    ensures { result ≡ went count pieces.now.jobs pieces.now.places.items end }
{
    let all = pieces.jobs.len();
    if all - count < count {
        return pieces.used[end] - units_between(pieces, count, all, end);
    }
    units_between(pieces, 0, count, end)
}

/// The units before the place `end` of the pieces from one up to another.
pub(crate) fn units_between(pieces: &Pieces, first: usize, last: usize, end: usize) -> u64
    requires as_long { length pieces.now.places.items ≡ length pieces.now.jobs }
    requires few { sum_by (λ job. job.work) pieces.now.jobs ≤ MAX_JOBS * MAX_WORK }
    requires order { first ≤ last }
    requires within { last ≤ length pieces.now.jobs }
    ensures { result + went first pieces.now.jobs pieces.now.places.items end ≡
        went last pieces.now.jobs pieces.now.places.items end }
{
    let mut units = 0;
    for number in first..last {
        units += part_before(pieces, number, end);
    }
    units
}

/// The units of one of the pieces, if they take room before the place `end`, and else none.
#[inline]
fn part_before(pieces: &Pieces, number: usize, end: usize) -> u64
    requires as_long { length pieces.now.places.items ≡ length pieces.now.jobs }
    requires within { number < length pieces.now.jobs }
    ensures { result ≡ (if nat_le (slice_index pieces.now.places.items number) end then (job_at pieces.now.jobs number).work else 0) }
{
    let work = u64::from(pieces.jobs.work(number));
    if pieces.places[number] <= end {
        work
    } else {
        0
    }
}

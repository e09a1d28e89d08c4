ghost use Rattle.std.specs.Prelude.{◌≡◌, ℕ, ◌<◌, ◌≤◌, IfOk, All, length, slice_index};
ghost use Rattle.std.specs.List.Sorted.{IsPermutation, IsNonDecreasing};
ghost use Rattle.base.specs.declared.limits.TheConstants.{MAX_TIME};
ghost use Rattle.yds_model.specs.Job.{IsJob};
ghost use Rattle.yds_admit.specs.Board.{IsBoard, AreEnds, AreSpots, IsFallingSpots};
ghost use Rattle.yds_admit.specs.Chain.{AreTimes};

use crate::chain::{gaps, place, times};
use crate::interval::sort_by_deadline;
use std::alloc::Global;
use yds_model::limits::{MAX_JOBS, MAX_TOP};
use yds_model::{JobRow, Memory};

/// A job with its places among the times of a chain.
#[derive(Clone, Copy, Drop)]
pub(crate) struct Spot {
    /// The job's number.
    pub(crate) number: usize,
    pub(crate) release: u32,
    pub(crate) work: u32,
    /// The place of the last time that isn't after the release.
    pub(crate) begin: usize,
    /// The first place of the deadline.
    pub(crate) end: usize,
}

/// The jobs and the top speed, and what all tests of theirs have in common. It never changes.
#[derive(Drop)]
pub(crate) struct Board<'a> {
    /// All jobs, in their order.
    pub(crate) rows: &'a [JobRow],
    /// The top speed, in work per time unit.
    pub(crate) top: u32,
    /// Time 0 and the deadlines, rising.
    pub(crate) times: Vec<u32>,
    /// The work that the top speed does between each time and the next.
    pub(crate) gaps: Vec<u64>,
    /// The first place of each job's deadline among the times.
    pub(crate) ends: Vec<usize>,
    /// All jobs by falling releases.
    pub(crate) spots: Vec<Spot>,
}

impl<'a> Board<'a> {
    /// The board of these jobs under this top speed.
    pub(crate) fn new(alloc: Global, rows: &'a [JobRow], top: u32) -> Result<Board<'a>, Memory>
        requires few { length rows.now ≤ MAX_JOBS }
        requires some_top { 1 ≤ top }
        requires top_in_range { top ≤ MAX_TOP }
        ensures board { IfOk result (λ board. IsBoard board) }
        ensures rows { IfOk result (λ board. board.rows.now ≡ rows.now) }
        ensures top { IfOk result (λ board. board.top ≡ top) }
    {
        let mut by_deadline = Vec::from_slice(alloc, rows)?;
        sort_by_deadline(&mut by_deadline)?;
        let times = times(alloc, &by_deadline)?;
        let gaps = gaps(alloc, &times, top)?;
        let ends = ends(alloc, rows, &times)?;
        let spots = falling(spots(alloc, rows, &times, &ends)?)?;
        Ok(Board {
            rows,
            top,
            times,
            gaps,
            ends,
            spots,
        })
    }
}

/// The first place of each job's deadline among these times.
fn ends(alloc: Global, rows: &[JobRow], times: &[u32]) -> Result<Vec<usize>, Memory>
    requires { AreTimes 0 rows.now times.now }
    ensures ends { IfOk result (λ ends. AreEnds rows.now times.now ends.items) }
    ensures jobs { IfOk result (λ _. All IsJob rows.now) }
{
    let mut ends = Vec::with_capacity(alloc, rows.len())?;
    for row in rows {
        ends.push(place(times, row.deadline))?;
    }
    Ok(ends)
}

/// Each job with its places among these times.
fn spots(alloc: Global, rows: &[JobRow], times: &[u32], ends: &[usize]) -> Result<Vec<Spot>, Memory>
    requires times { AreTimes 0 rows.now times.now }
    requires ends { AreEnds rows.now times.now ends.now }
    ensures { IfOk result (λ spots. AreSpots rows.now times.now spots.items) }
{
    let mut spots = Vec::with_capacity(alloc, rows.len())?;
    for (number, row) in rows.iter().enumerate() {
        spots.push(Spot {
            number,
            release: row.release,
            work: row.work,
            begin: last_until(times, row.release),
            end: ends[number],
        })?;
    }
    Ok(spots)
}

/// The place of the last of the times that isn't after this one.
fn last_until(times: &[u32], time: u32) -> usize
    requires some { 1 ≤ length times.now }
    requires rising { IsNonDecreasing times.now }
    requires begun { slice_index times.now 0 ≤ time }
    ensures within { result < length times.now }
    ensures until { slice_index times.now result ≤ time }
    ensures after { (q : ℕ) → result < q → q < length times.now → time < slice_index times.now q }
{
    times.partition_point(|other| *other <= time) - 1
}

/// The spots by falling releases.
fn falling(mut spots: Vec<Spot>) -> Result<Vec<Spot>, Memory>
    requires { All (λ spot. spot.release ≤ MAX_TIME) spots.items }
    ensures same { IfOk result (λ sorted. IsPermutation spots.items sorted.items) }
    ensures falling { IfOk result (λ sorted. IsFallingSpots sorted.items) }
{
    spots.sort_by_key(|spot| u32::MAX - spot.release)?;
    Ok(spots)
}

ghost use Rattle.std.specs.Prelude.{◌≡◌, ℕ, ◌+◌, ◌*◌, ◌<◌, ◌≤◌, All, List, IfOk, IfSome, MatchOption, length, slice_index};
ghost use Rattle.yds_admit.specs.Board.{IsBoard, falling_jobs};
ghost use Rattle.base.specs.declared.limits.TheConstants.{MAX_WORK};
ghost use Rattle.yds_model.specs.Job.{Job};
ghost use Rattle.yds_admit.specs.Chain.{IsFalling, IsPlace, IsEnd, AreLinks};
ghost use Rattle.yds_admit.specs.Idle.{Fits, IsIdleFrom, idle_before};
ghost use Rattle.yds_admit.specs.Pieces.{IsCutting, IsCutInto, AreCut, IsAdded, AreMore, AreBoundsOf, IsLeastBound, AreExact, HasTooMuch};

use crate::board::Board;
use crate::chain::{last_open, own_links};
use crate::nearby::{earliest, units_before, units_between};
use crate::rows::Rows;
use std::alloc::Global;
use yds_model::limits::MAX_JOBS;
use yds_model::{JobRow, Memory};

/// Of so many pieces it is tried first whether they leave room together.
const BLOCK: usize = 16;

/// Jobs cut into pieces, by falling releases. The units of a piece take room in one gap between the deadlines. A job that is admitted
/// later is one piece more, with the place of its earliest gap.
#[derive(Drop)]
pub(crate) struct Pieces {
    /// A job's window with some of its work.
    pub(crate) jobs: Rows,
    /// The place after the gap. Units that found no room have the place 0.
    pub(crate) places: Vec<usize>,
    /// The units that take room before each of the times.
    pub(crate) used: Vec<u64>,
}

impl Pieces {
    /// Puts one job more among them, as one piece with this place.
    pub(crate) fn add(&mut self, row: &JobRow, place: usize) -> Result<(), Memory>
        requires falling { IsFalling self.old.jobs }
        requires as_long { length self.old.places.items ≡ length self.old.jobs }
        requires few { All (λ units. units ≤ MAX_JOBS * MAX_WORK) self.old.used.items }
        ensures added { IfOk result (λ _. IsAdded self.old.jobs self.old.places.items row.now place self.new.jobs self.new.places.items) }
        ensures used { IfOk result (λ _. AreMore self.old.used.items self.new.used.items place row.now.work) }
    {
        let number = self.jobs.released_from(row.release);
        self.jobs.insert(number, *row)?;
        self.places.insert(number, place)?;
        add_from(&mut self.used, place, u64::from(row.work));
        Ok(())
    }
}

/// Adds so many units at this place and each later one.
fn add_from(used: &mut [u64], place: usize, units: u64)
    requires few { All (λ units. units ≤ MAX_JOBS * MAX_WORK) used.old }
    requires little { units ≤ MAX_WORK }
    ensures { AreMore used.old used.new place units }
{
    for later in place..used.len() {
        used[later] += units;
    }
}

/// Cuts each marked job, by falling releases: its units take the room that is left in the gaps, from its own deadline backwards.
/// Answers what is left of them too, with links over those of which nothing is left. What is used before the times isn't known yet.
#[inline(never)]
pub(crate) fn cut_each(
    alloc: Global,
    board: &Board,
    marks: &[bool],
) -> Result<(Pieces, Vec<u64>, Vec<usize>), Memory>
    requires board { IsBoard board.now }
    requires marks { length marks.now ≡ length board.now.rows.now }
    ensures cutting { IfOk result (λ cut. IsCutting board.now.top board.now.times.items cut.0.jobs cut.0.places.items cut.1.items) }
    ensures cut { IfOk result (λ cut. AreCut (falling_jobs board.now.rows.now marks.now board.now.spots.items) cut.0.jobs) }
    ensures as_long { IfOk result (λ cut. length cut.1.items ≡ length board.now.gaps.items) }
    ensures links { IfOk result (λ cut. AreLinks cut.1.items cut.2.items) }
{
    let mut left = Vec::from_slice(alloc, &board.gaps)?;
    let rest = left.as_mut_slice();
    let mut last = own_links(alloc, board.times.len())?;
    let links = last.as_mut_slice();
    let mut pieces = Pieces {
        jobs: Rows::with_capacity(alloc, board.rows.len())?,
        places: Vec::with_capacity(alloc, board.rows.len())?,
        used: Vec::new(alloc),
    };
    for spot in &board.spots {
        if !marks[spot.number] {
            continue;
        }
        cut(rest, links, &mut pieces, &board.rows[spot.number], spot.end)?;
    }
    Ok((pieces, left, last))
}

/// The units that were taken from the gaps before each of the times: the gaps less what is left of them.
#[tactic(auto, using(std::proofs::lemmas::Bool::cases_lt, std::proofs::lemmas::List::length_push, std::proofs::lemmas::List::get_or_push, std::proofs::lemmas::List::get_or_append_left, crate::proofs::Idleness::next_idle))]
#[inline(never)]
pub(crate) fn used_before(alloc: Global, gaps: &[u64], left: &[u64]) -> Result<Vec<u64>, Memory>
    requires as_long { length left.now ≡ length gaps.now }
    requires less { (q : ℕ) → q < length gaps.now → slice_index left.now q ≤ slice_index gaps.now q }
    requires few { (q : ℕ) → q ≤ length gaps.now → idle_before gaps.now q ≤ idle_before left.now q + MAX_JOBS * MAX_WORK }
    ensures as_long { IfOk result (λ used. length used.items ≡ length gaps.now + 1) }
    ensures each { IfOk result (λ used. (q : ℕ) → q ≤ length gaps.now → idle_before left.now q + slice_index used.items q ≡ idle_before gaps.now q) }
{
    let mut used = Vec::with_capacity(alloc, gaps.len() + 1)?;
    let mut units = 0;
    used.push(units)?;
    for gap in 0..gaps.len() {
        units += gaps[gap] - left[gap];
        used.push(units)?;
    }
    Ok(used)
}

/// Cuts one job more, whose deadline has this place.
fn cut(
    gaps: &mut [u64],
    links: &mut [usize],
    pieces: &mut Pieces,
    job: &JobRow,
    end: usize,
) -> Result<(), Memory>
    requires within { end ≤ length gaps.old }
    requires links { AreLinks gaps.old links.old }
    ensures links { IfOk result (λ _. AreLinks gaps.new links.new) }
    ensures cutting { IfOk result (λ _. (top : ℕ) (times : List ℕ) → length gaps.old + 1 ≡ length times → IsPlace times job.now.deadline end →
        IsCutting top times pieces.old.jobs pieces.old.places.items gaps.old →
        IsCutting top times pieces.new.jobs pieces.new.places.items gaps.new) }
    ensures into { IfOk result (λ _. IsCutInto job.now pieces.old.jobs pieces.new.jobs) }
{
    let mut left = job.work;
    let mut place = last_open(links, end);
    while left > 0 && place > 0 {
        let gap = place - 1;
        let units = u64::from(left).min(gaps[gap]) as u32;
        gaps[gap] -= u64::from(units);
        left -= units;
        pieces
            .jobs
            .push(JobRow::new(job.release, job.deadline, units))?;
        pieces.places.push(place)?;
        links[place] = if left > 0 { gap } else { place };
        place = last_open(links, gap);
    }
    if left > 0 || job.work == 0 {
        pieces
            .jobs
            .push(JobRow::new(job.release, job.deadline, left))?;
        pieces.places.push(place)?;
    }
    Ok(())
}

/// The least release up to one more job's from which the pieces leave it too little room, if there is one: no interval from an earlier
/// release is overfull with it. Its deadline has the place `end` among the times. From the place `near` on enough is idle for it.
#[tactic(auto, using(std::proofs::lemmas::List::get_or_read, crate::proofs::Cutting::went_fits, crate::proofs::Cutting::next_went, crate::proofs::Bounds::one_more))]
pub(crate) fn least_from_pieces(
    pieces: &Pieces,
    board: &Board,
    row: &JobRow,
    end: usize,
    near: Option<usize>,
) -> Option<u32>
    requires board { IsBoard board.now }
    requires end { IsEnd board.now.times.items row.now.deadline end }
    requires pieces { (all : List Job) × (idle : List ℕ) × AreBoundsOf board.now.top board.now.times.items all pieces.now idle }
    requires near { IfSome near (λ place. place ≤ end) }
    ensures { (all : List Job) (idle : List ℕ) → AreBoundsOf board.now.top board.now.times.items all pieces.now idle →
        MatchOption near (idle_before idle end < row.now.work) (IsIdleFrom idle end row.now.work) → MatchOption result
        ((from : ℕ) → from ≤ row.now.release → Fits board.now.top board.now.times.items all row.now end idle from)
        (λ from. IsLeastBound board.now.top board.now.times.items all row.now end idle from
        × (AreExact board.now.top board.now.times.items all pieces.now.jobs pieces.now.places.items idle → HasTooMuch board.now.top all row.now from)) }
{
    let room = u64::from(board.top) * u64::from(row.deadline);
    let Some(behind) = near else {
        return Some(earliest(pieces, row));
    };
    // Any other piece is too early: enough is idle between its release and the job's deadline.
    let mut count = pieces.jobs.released_from(board.times[behind] + 1);
    let mut wanted = u64::from(row.work) + units_before(pieces, count, end);
    let until = pieces.jobs.released_from(row.release).min(count);
    while count > until {
        let first = count - BLOCK.min(count - until);
        let latest = pieces.jobs.release(first);
        if wanted + u64::from(board.top) * u64::from(latest) <= room {
            // The others of the block are released no later, with no more units.
            wanted -= units_between(pieces, first, count, end);
            count = first;
            continue;
        }
        let release = pieces.jobs.release(count - 1);
        if wanted + u64::from(board.top) * u64::from(release) > room {
            return Some(release);
        }
        if pieces.places[count - 1] <= end {
            wanted -= u64::from(pieces.jobs.work(count - 1));
        }
        count -= 1;
    }
    if wanted + u64::from(board.top) * u64::from(row.release) > room {
        return Some(row.release);
    }
    None
}

ghost use Rattle.std.specs.Prelude.{◌≡◌, ℕ, ◌+◌, ◌-◌, ◌*◌, ◌<◌, ◌≤◌, ◌++◌, if◌then◌else◌, IfOk, IsTrue, List, length, slice_index, take, drop};
ghost use Rattle.yds_model.specs.Job.{Job};
ghost use Rattle.yds_laws.specs.AdmissionLaws.{HasRoom};
ghost use Rattle.yds_admit.specs.Board.{IsBoard, IsSpot, IsMarked, AreMarked};
ghost use Rattle.yds_admit.specs.Chain.{AreLinks, Takes};
ghost use Rattle.yds_admit.specs.State.{IsState};

use crate::board::{Board, Spot};
use crate::chain::{own_links, take};
use crate::state::State;
use std::alloc::Global;
use yds_model::Memory;

/// Batches of at most so many jobs are decided one by one.
pub(crate) const SHORT_BATCH: usize = 32;

/// Admits the longest of the next batches of this length, half of it, a quarter and so on that leaves no interval overfull beside
/// the admitted jobs. Answers how many jobs it has: 0 where only a short batch is left to try.
pub(crate) fn admit_batch(
    alloc: Global,
    board: &Board,
    state: &mut State,
    wanted: usize,
) -> Result<usize, Memory>
    requires { IsState board.now state.old }
    ensures state { IfOk result (λ count. IsState board.now state.new) }
    ensures more { IfOk result (λ count. state.new.next ≡ state.old.next + count) }
    ensures short { IfOk result (λ count. count ≤ length board.now.rows.now) }
    ensures none { IfOk result (λ count. count ≡ 0 → state.new ≡ state.old) }
{
    let mut count = wanted.min(board.rows.len() - state.next);
    while count > SHORT_BATCH {
        let last = state.next + count;
        let marks = marked(alloc, &state.marks, state.next, last)?;
        if fit(alloc, board, &marks)? {
            state.admit_until(board, last, marks)?;
            return Ok(count);
        }
        count /= 2;
    }
    Ok(0)
}

/// Whether the marked jobs leave no interval overfull together.
///
/// One walk by falling releases, as over the pieces, over all deadlines. No interval from a release is overfull where the jobs released
/// then or later find their room after it.
#[tactic(auto, using(crate::proofs::Links::own_are, crate::proofs::Fitting::begun))]
#[inline(never)]
fn fit(alloc: Global, board: &Board, marks: &[bool]) -> Result<bool, Memory>
    requires board { IsBoard board.now }
    requires marks { length marks.now ≡ length board.now.rows.now }
    ensures { IfOk result (λ fits. IsTrue fits → (jobs : List Job) → AreMarked board.now.rows.now marks.now jobs → HasRoom board.now.top jobs) }
{
    let mut gaps = Vec::from_slice(alloc, &board.gaps)?;
    let gaps = gaps.as_mut_slice();
    let mut links = own_links(alloc, board.times.len())?;
    let links = links.as_mut_slice();
    for spot in &board.spots {
        let marked = marks[spot.number];
        if !finds_room(gaps, links, spot, marked, board) {
            return Ok(false);
        }
    }
    Ok(true)
}

/// Takes the job's units, if it is marked, from the gaps before its deadline. Answers whether they found their room after its release.
fn finds_room(
    gaps: &mut [u64],
    links: &mut [usize],
    spot: &Spot,
    marked: bool,
    board: &Board,
) -> bool
    requires board { IsBoard board.now }
    requires links { AreLinks gaps.old links.old }
    requires as_long { length gaps.old + 1 ≡ length board.now.times.items }
    requires spot { IsSpot board.now.rows.now board.now.times.items spot.now }
    ensures links { AreLinks gaps.new links.new }
    ensures kept { (q : ℕ) → q < spot.now.begin → slice_index gaps.new q ≡ slice_index gaps.old q }
    ensures takes { IsTrue result → Takes gaps.old spot.now.end (if marked then spot.now.work else 0) gaps.new 0 0 }
    ensures room { IsTrue result →
        board.now.top * (spot.now.release - slice_index board.now.times.items spot.now.begin) ≤ slice_index gaps.new spot.now.begin }
{
    let units = if marked { spot.work } else { 0 };
    let left = take(gaps, links, spot.end, spot.begin, u64::from(units));
    let unused = u64::from(board.top) * u64::from(spot.release - board.times[spot.begin]);
    left == 0 && unused <= gaps[spot.begin]
}

/// The marks, with the jobs from one number up to another marked too.
#[tactic(auto, using(std::proofs::lemmas::List::drop_all))]
fn marked(alloc: Global, marks: &[bool], first: usize, last: usize) -> Result<Vec<bool>, Memory>
    requires order { first ≤ last }
    requires within { last ≤ length marks.now }
    ensures { IfOk result (λ more. (rows jobs : List Job) → IsMarked rows first marks.now jobs →
        IsMarked rows last more.items (jobs ++ drop first (take last rows))) }
{
    let mut more = Vec::from_slice(alloc, marks)?;
    for number in first..last {
        more[number] = true;
    }
    Ok(more)
}

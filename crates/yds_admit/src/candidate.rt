ghost use Rattle.std.specs.Prelude.{◌≡◌, ℕ, ◌+◌, ◌<◌, ◌≤◌, ◌++◌, ◌∷◌, [], true, None, IfOk, IfSome, MatchOption, List, length};
ghost use Rattle.yds_admit.specs.Interval.{HasRoomFrom, IsFirstWith};
ghost use Rattle.yds_admit.specs.Chain.{IsEnd};
ghost use Rattle.yds_admit.specs.Idle.{Fits};
ghost use Rattle.yds_admit.specs.Pieces.{IsLeastBound};
ghost use Rattle.yds_admit.specs.Orders.{AreOrdered};
ghost use Rattle.yds_admit.specs.State.{IsState, next_job};
ghost use Rattle.yds_admit.specs.Room.{IsRoom};

use crate::board::Board;
use crate::idle::{idle_place, take_before};
use crate::interval::{Overfull, overfull_from};
use crate::pieces::least_from_pieces;
use crate::room::Room;
use crate::rows::Rows;
use crate::standing::deadline_place;
use crate::state::State;
use std::alloc::Global;
use yds_model::Memory;

/// Admits the next job where it leaves no interval overfull beside the admitted ones, or refuses it. Answers whether it was admitted.
pub(crate) fn decide_next(
    alloc: Global,
    board: &Board,
    state: &mut State,
    room: &mut Room,
) -> Result<bool, Memory>
    requires state { IsState board.now state.old }
    requires more { state.old.next < length board.now.rows.now }
    requires room { IsRoom board.now state.old.jobs.items room.old }
    ensures state { IfOk result (λ _. IsState board.now state.new) }
    ensures next { IfOk result (λ _. state.new.next ≡ state.old.next + 1) }
    ensures room { IfOk result (λ _. IsRoom board.now state.new.jobs.items room.new) }
{
    if let Some(admitted) = settle_next(board, state, room)? {
        return Ok(admitted);
    }
    // The pieces of jobs that were admitted since the cut say too much.
    *room = Room::new(alloc, board, state)?;
    let Some(admitted) = settle_next(board, state, room)? else {
        unreachable!()
    };
    Ok(admitted)
}

/// The same, where what is known is enough for it: else nothing is answered and nothing decided. It is enough where no job was admitted
/// since the cut.
fn settle_next(board: &Board, state: &mut State, room: &mut Room) -> Result<Option<bool>, Memory>
    requires state { IsState board.now state.old }
    requires more { state.old.next < length board.now.rows.now }
    requires room { IsRoom board.now state.old.jobs.items room.old }
    ensures state { IfOk result (λ _. IsState board.now state.new) }
    ensures next { IfOk result (λ settled. IfSome settled (λ _. state.new.next ≡ state.old.next + 1)) }
    ensures room { IfOk result (λ _. IsRoom board.now state.new.jobs.items room.new) }
    ensures kept { IfOk result (λ settled. settled ≡ None → state.new ≡ state.old) }
    ensures known { room.old.fresh ≡ true → IfOk result (λ settled. settled ≡ None → ⊥) }
{
    let row = state.next_row(board);
    let end = state.next_end(board);
    let near = idle_place(&room.idle, &mut room.links, end, u64::from(row.work));
    if let Some(begin) = near {
        if row.release <= board.times[begin] {
            admit_beside(board, state, room, end)?;
            return Ok(Some(true));
        }
    }
    let Some(from) = least_from_pieces(&room.pieces, board, row, end, near) else {
        admit_beside(board, state, room, end)?;
        return Ok(Some(true));
    };
    let Some(overfull) = first_overfull(board, state, &room.by_deadline, from) else {
        return Ok(None);
    };
    state.refuse_next(overfull)?;
    Ok(Some(false))
}

/// Admits the next job, with which no interval from its release or before is overfull, nor from there to a later deadline if all that is
/// idle after its own is taken too.
fn admit_beside(board: &Board, state: &mut State, room: &mut Room, end: usize) -> Result<(), Memory>
    requires state { IsState board.now state.old }
    requires more { state.old.next < length board.now.rows.now }
    requires room { IsRoom board.now state.old.jobs.items room.old }
    requires end { IsEnd board.now.times.items (next_job board.now state.old).deadline end }
    requires fits { (from : ℕ) → from ≤ (next_job board.now state.old).release →
        Fits board.now.top board.now.times.items state.old.jobs.items (next_job board.now state.old) end room.old.idle.items from }
    ensures state { IfOk result (λ _. IsState board.now state.new) }
    ensures next { IfOk result (λ _. state.new.next ≡ state.old.next + 1) }
    ensures room { IfOk result (λ _. IsRoom board.now state.new.jobs.items room.new) }
{
    let row = state.next_row(board);
    // The job may take what is idle before its release too.
    let place = take_before(&mut room.idle, &mut room.links, end, u64::from(row.work));
    room.pieces.add(row, place)?;
    room.fresh = false;
    let due = deadline_place(&room.by_deadline, row);
    room.by_deadline.insert(due, *row)?;
    state.admit_next(board)?;
    Ok(())
}

/// The first overfull interval of the admitted jobs and the next one, if one begins at this time. None begins before.
#[tactic(auto, using(std::proofs::lemmas::List::Sorted::length_permutation))]
fn first_overfull(board: &Board, state: &State, by_deadline: &Rows, from: u32) -> Option<Overfull>
    requires state { IsState board.now state.now }
    requires more { state.now.next < length board.now.rows.now }
    requires ordered { AreOrdered state.now.jobs.items by_deadline.now }
    requires least { (end : ℕ) × (idle : List ℕ) × IsEnd board.now.times.items (next_job board.now state.now).deadline end
        × IsLeastBound board.now.top board.now.times.items state.now.jobs.items (next_job board.now state.now) end idle from }
    ensures { MatchOption result (HasRoomFrom board.now.top (state.now.jobs.items ++ next_job board.now state.now ∷ []) from)
        (λ overfull. IsFirstWith board.now.top (state.now.jobs.items ++ next_job board.now state.now ∷ []) overfull.from overfull.to overfull.work) }
{
    overfull_from(by_deadline, state.next_row(board), from, board.top)
}

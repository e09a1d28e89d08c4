ghost use Rattle.std.specs.Prelude.{◌≡◌, true, IfOk};
ghost use Rattle.yds_admit.specs.State.{IsState};
ghost use Rattle.yds_admit.specs.Room.{IsRoom};

use crate::board::Board;
use crate::interval::sort_by_deadline;
use crate::pieces::{Pieces, cut_each, used_before};
use crate::rows::Rows;
use crate::state::State;
use std::alloc::Global;
use yds_model::Memory;

/// What is known of the room that the admitted jobs leave.
#[derive(Drop)]
pub(crate) struct Room {
    /// What is idle in each of the gaps between the times.
    pub(crate) idle: Vec<u64>,
    /// Links over the gaps of which nothing is idle.
    pub(crate) links: Vec<usize>,
    /// The pieces of the admitted jobs.
    pub(crate) pieces: Pieces,
    /// Whether all of them were cut together: no job was admitted since.
    pub(crate) fresh: bool,
    /// The admitted jobs by rising deadlines.
    pub(crate) by_deadline: Rows,
}

impl Room {
    /// The pieces of the admitted jobs, what they leave idle, and the jobs by rising deadlines.
    #[tactic(auto, using(crate::proofs::Left::left_less, crate::proofs::Left::left_few))]
    pub(crate) fn new(alloc: Global, board: &Board, state: &mut State) -> Result<Room, Memory>
        requires { IsState board.now state.old }
        ensures state { IfOk result (λ _. IsState board.now state.new) }
        ensures next { IfOk result (λ _. state.new.next ≡ state.old.next) }
        ensures room { IfOk result (IsRoom board.now state.new.jobs.items) }
        ensures fresh { IfOk result (λ room. room.fresh ≡ true) }
    {
        let (mut pieces, idle, links) = cut_each(alloc, board, &state.marks)?;
        pieces.used = used_before(alloc, &board.gaps, &idle)?;
        // Sorting takes little where most are in order already.
        sort_by_deadline(&mut state.nearly_sorted)?;
        Ok(Room {
            idle,
            links,
            pieces,
            fresh: true,
            by_deadline: Rows::from_slice(alloc, &state.nearly_sorted)?,
        })
    }
}

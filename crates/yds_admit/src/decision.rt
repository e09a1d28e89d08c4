ghost use Rattle.std.specs.Prelude.{◌*◌, ◌<◌, ◌≤◌, IfOk, length};
ghost use Rattle.yds_admit.specs.State.{IsDecision, IsState};

use crate::batch::{SHORT_BATCH, admit_batch};
use crate::board::Board;
use crate::candidate::decide_next;
use crate::refusal::Refusal;
use crate::room::Room;
use crate::state::State;
use std::alloc::Global;
use yds_model::limits::{MAX_JOBS, MAX_TOP};
use yds_model::{JobRow, Memory};

/// Which jobs are admitted, and why the others aren't.
#[derive(Drop)]
pub(crate) struct Decision {
    /// The numbers of the admitted jobs.
    pub(crate) taken: Vec<u32>,
    /// The admitted jobs themselves.
    pub(crate) jobs: Vec<JobRow>,
    /// A refusal for each other job.
    pub(crate) refused: Vec<Refusal>,
}

/// Admits a batch of jobs as a whole where they leave no interval overfull beside the jobs admitted before, and a short batch job by
/// job. After a batch that was admitted one of twice the length is tried, and in place of one that wasn't one of half the length.
pub(crate) fn decide(alloc: Global, rows: &[JobRow], top: u32) -> Result<Decision, Memory>
    requires few { length rows.now ≤ MAX_JOBS }
    requires some_top { 1 ≤ top }
    requires top_in_range { top ≤ MAX_TOP }
    ensures { IfOk result (λ decision. IsDecision rows.now top decision.taken.items decision.jobs.items decision.refused.items) }
{
    let board = Board::new(alloc, rows, top)?;
    let mut state = State::new(alloc, &board)?;
    let mut wanted = rows.len();
    while state.next < rows.len() {
        let count = admit_batch(alloc, &board, &mut state, wanted)?;
        wanted = if count > 0 {
            2 * count
        } else {
            one_by_one(alloc, &board, &mut state)?
        };
    }
    Ok(Decision {
        taken: state.taken,
        jobs: state.jobs,
        refused: state.refused,
    })
}

/// Decides jobs one by one until a batch is admitted again, which is tried after so many in a row that are admitted as make a short one.
/// Answers how long the next batch is to be.
fn one_by_one(alloc: Global, board: &Board, state: &mut State) -> Result<usize, Memory>
    requires state { IsState board.now state.old }
    requires more { state.old.next < length board.now.rows.now }
    ensures state { IfOk result (λ _. IsState board.now state.new) }
    ensures more { IfOk result (λ _. state.old.next < state.new.next) }
    ensures short { IfOk result (λ wanted. wanted ≤ 2 * MAX_JOBS) }
{
    let mut room = Room::new(alloc, board, state)?;
    let mut admitted = 0;
    while state.next < board.rows.len() {
        if decide_next(alloc, board, state, &mut room)? {
            admitted += 1;
        } else {
            admitted = 0;
        }
        if admitted == SHORT_BATCH {
            let count = admit_batch(alloc, board, state, 2 * SHORT_BATCH)?;
            if count > 0 {
                return Ok(2 * count);
            }
            // What is known of the room holds on: no job was admitted.
            admitted = 0;
        }
    }
    Ok(2 * SHORT_BATCH)
}

ghost use Rattle.std.specs.Prelude.{◌≡◌, ◌+◌, ◌<◌, ◌≤◌, ◌++◌, ◌∷◌, [], IfOk, length, take, drop};
ghost use Rattle.yds_laws.specs.AdmissionLaws.{HasRoom};
ghost use Rattle.base.specs.declared.limits.TheConstants.{MAX_JOBS};
ghost use Rattle.yds_admit.specs.declared.board.Board.{Board};
ghost use Rattle.yds_admit.specs.Board.{IsBoard, IsMarked};
ghost use Rattle.yds_admit.specs.Chain.{IsEnd};
ghost use Rattle.yds_admit.specs.State.{IsState, next_job};
ghost use Rattle.yds_admit.specs.Interval.{IsFirstWith};

use crate::board::Board;
use crate::interval::Overfull;
use crate::refusal::Refusal;
use std::alloc::Global;
use yds_model::{JobRow, Memory};

/// What is decided of the first jobs of a board.
#[derive(Drop)]
pub(crate) struct State {
    /// How many they are.
    pub(crate) next: usize,
    /// The numbers of the admitted jobs.
    pub(crate) taken: Vec<u32>,
    /// The admitted jobs themselves.
    pub(crate) jobs: Vec<JobRow>,
    /// A refusal for each other job.
    pub(crate) refused: Vec<Refusal>,
    /// Of each of all jobs, whether it is admitted.
    pub(crate) marks: Vec<bool>,
    /// The admitted jobs, of which the first stand by rising deadlines: all that were there when they were sorted last.
    pub(crate) nearly_sorted: Vec<JobRow>,
}

impl State {
    /// Nothing is decided yet.
    pub(crate) fn new(alloc: Global, board: &Board) -> Result<State, Memory>
        requires { IsBoard board.now }
        ensures state { IfOk result (λ state. IsState board.now state) }
        ensures nothing { IfOk result (λ state. state.next ≡ 0) }
    {
        Ok(State {
            next: 0,
            taken: Vec::new(alloc),
            jobs: Vec::new(alloc),
            refused: Vec::new(alloc),
            marks: vec![in alloc; false; board.rows.len()]?,
            nearly_sorted: Vec::new(alloc),
        })
    }

    /// The next job.
    #[tactic(auto, using(std::proofs::lemmas::List::get_or_default))]
    #[inline]
    pub(crate) fn next_row<'b>(&self, board: &'b Board) -> &'b JobRow
        requires { self.now.next < length board.now.rows.now }
        ensures { result.now ≡ next_job board.now self.now }
    {
        &board.rows[self.next]
    }

    /// The place of the next job's deadline among the times.
    #[tactic(auto, using(std::proofs::lemmas::List::get_or_read))]
    #[inline]
    pub(crate) fn next_end(&self, board: &Board) -> usize
        requires board { IsBoard board.now }
        requires more { self.now.next < length board.now.rows.now }
        ensures { IsEnd board.now.times.items (next_job board.now self.now).deadline result }
    {
        board.ends[self.next]
    }

    /// Admits the next jobs up to the last, which leave no interval overfull beside the admitted ones. They are marked.
    pub(crate) fn admit_until(
        &mut self,
        board: &Board,
        last: usize,
        marks: Vec<bool>,
    ) -> Result<(), Memory>
        requires state { IsState board.now self.old }
        requires order { self.old.next ≤ last }
        requires within { last ≤ length board.now.rows.now }
        requires marks { IsMarked board.now.rows.now last marks.items (self.old.jobs.items ++ drop self.old.next (take last board.now.rows.now)) }
        requires room { HasRoom board.now.top (self.old.jobs.items ++ drop self.old.next (take last board.now.rows.now)) }
        ensures state { IfOk result (λ _. IsState board.now self.new) }
        ensures last { IfOk result (λ _. self.new.next ≡ last) }
    {
        for number in self.next..last {
            let row = &board.rows[number];
            self.taken.push(number as u32)?;
            self.jobs.push(*row)?;
            self.nearly_sorted.push(*row)?;
        }
        self.marks = marks;
        self.next = last;
        Ok(())
    }

    /// Admits the next job, which leaves no interval overfull beside the admitted ones.
    pub(crate) fn admit_next(&mut self, board: &Board) -> Result<(), Memory>
        requires state { IsState board.now self.old }
        requires more { self.old.next < length board.now.rows.now }
        requires room { HasRoom board.now.top (self.old.jobs.items ++ next_job board.now self.old ∷ []) }
        ensures state { IfOk result (λ _. IsState board.now self.new) }
        ensures next { IfOk result (λ _. self.new.next ≡ self.old.next + 1) }
        ensures jobs { IfOk result (λ _. self.new.jobs.items ≡ self.old.jobs.items ++ next_job board.now self.old ∷ []) }
    {
        let number = self.next;
        let row = self.next_row(board);
        self.taken.push(number as u32)?;
        self.jobs.push(*row)?;
        self.nearly_sorted.push(*row)?;
        self.marks[number] = true;
        self.next = number + 1;
        Ok(())
    }

    /// Refuses the next job, which leaves an interval overfull beside the admitted ones: this is the first.
    pub(crate) fn refuse_next(&mut self, overfull: Overfull) -> Result<(), Memory>
        requires { self.old.next < MAX_JOBS }
        ensures state { IfOk result (λ _. (board : Board) → IsState board self.old → self.old.next < length board.rows.now →
            IsFirstWith board.top (self.old.jobs.items ++ next_job board self.old ∷ []) overfull.from overfull.to overfull.work → IsState board self.new) }
        ensures next { IfOk result (λ _. self.new.next ≡ self.old.next + 1) }
        ensures jobs { IfOk result (λ _. self.new.jobs.items ≡ self.old.jobs.items) }
    {
        self.refused.push(Refusal {
            job: self.next as u32,
            from: overfull.from,
            to: overfull.to,
            work: overfull.work,
        })?;
        self.next += 1;
        Ok(())
    }
}

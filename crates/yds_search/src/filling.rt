ghost use Rattle.std.specs.Prelude.{◌≡◌, ℕ, true, false, ◌-◌, ◌*◌, ◌^◌, ◌<◌, ◌≤◌, [], List, length, map, slice_set, IfOk, OnOk};
ghost use Rattle.std.specs.List.{All};
ghost use Rattle.base.specs.declared.limits.TheConstants.{MAX_JOBS};
ghost use Rattle.yds_events.specs.Window.{window_at};
ghost use Rattle.yds_search.specs.Own.{HaveWindows, own_windows, wants_at, rooms_at};
ghost use Rattle.yds_timetable.specs.Shares.{JobShare};
ghost use Rattle.yds_search.specs.Fill.{IsNotAfter, AreTaken, IsNext, IsNextFrom, IsNumbers};
ghost use Rattle.yds_search.specs.Cells.{rooms_of, cell_at, first_cell, late_cell, IsTake, Keeps, IsServing, IsFilled};

use crate::own::{Own, OwnJob, OwnStretch};
use std::alloc::Global;
use yds_model::Memory;
use yds_timetable::Share;

/// What is known of a stretch as a group is filled. Stretches go by their places in the group.
#[derive(Clone, Copy, Debug, PartialEq, Eq)]
pub(crate) struct Cell {
    /// The units for which it still has room.
    pub room: u64,
    /// How far to the left the jobs reach that have a share in it: the least first place of their windows, or the number of stretches
    /// where there is none.
    pub shared: u32,
    /// How far the late jobs reach whose windows end with it.
    pub late: u32,
}

/// The fill of a group: what room its stretches have, and who takes it. Jobs and stretches go by their places in the group.
#[derive(Debug, Drop)]
pub(crate) struct Filling {
    /// What is known of each stretch.
    pub cells: Vec<Cell>,
    /// For each stretch a place from which to go on, with no room before it. There is one more place after the last stretch.
    pub next: Vec<u32>,
    /// The shares that jobs took, as long as none is late.
    pub shares: Vec<Share>,
    /// Whether a job is late: it wants more than it could take.
    pub late: bool,
}

/// A speed in lowest terms: `per_time` units fill a unit of time, and `per_work` of them are a unit of work.
#[derive(Clone, Copy, Debug, PartialEq, Eq)]
pub(crate) struct Speed {
    pub per_time: u64,
    pub per_work: u64,
}

/// The first place from here on at which a stretch may have room.
fn next_place(next: &mut [u32], from: u32) -> u32
    requires next { (rooms : List ℕ) × IsNext rooms next.old }
    requires within { from < length next.old }
    ensures after { from ≤ result }
    ensures inside { result < length next.old }
    ensures next { (rooms : List ℕ) → IsNext rooms next.old → IsNext rooms next.new }
    ensures place { (rooms : List ℕ) → IsNext rooms next.old → IsNextFrom rooms from result (length next.old) }
{
    let mut place = from;
    while next[place as usize] > place {
        let after = next[place as usize];
        next[place as usize] = next[after as usize];
        place = after;
    }
    place
}

/// The stretches with all their room, where so many units fill a unit of time. Nobody reaches further than the last one.
fn set_cells(cells: &mut Vec<Cell>, stretches: &[OwnStretch], per_time: u64) -> Result<(), Memory>
    requires few { length stretches.now ≤ 2 * MAX_JOBS }
    requires fit { All (λ one. per_time * one.length < 2 ^ 64) stretches.now }
    ensures { OnOk result (cells.new.items ≡ map (first_cell per_time (length stretches.now)) stretches.now) }
{
    let count = stretches.len() as u32;
    let full = Cell {
        room: 0,
        shared: count,
        late: count,
    };
    cells.clear();
    cells.resize(stretches.len(), full)?;
    for (place, cell) in cells.iter_mut().enumerate() {
        cell.room = per_time * u64::from(stretches[place].length);
    }
    Ok(())
}

/// Each number at its own place, up to the last one.
fn set_numbers(numbers: &mut Vec<u32>, last: usize) -> Result<(), Memory>
    requires { last ≤ 2 * MAX_JOBS }
    ensures { OnOk result (IsNumbers last numbers.new.items) }
{
    numbers.clear();
    numbers.resize(last + 1, 0)?;
    for (place, number) in numbers.iter_mut().enumerate() {
        *number = place as u32;
    }
    Ok(())
}

impl Filling {
    /// Nobody is served yet, and there is room for so many jobs and stretches.
    pub(crate) fn new(alloc: Global, jobs: usize, stretches: usize) -> Result<Filling, Memory>
        requires few { jobs ≤ MAX_JOBS }
        requires few_stretches { stretches ≤ 2 * MAX_JOBS }
    {
        Ok(Filling {
            cells: Vec::with_capacity(alloc, stretches)?,
            next: Vec::with_capacity(alloc, stretches + 1)?,
            shares: Vec::with_capacity(alloc, jobs + stretches)?,
            late: false,
        })
    }

    /// Each stretch has all its room: nobody took any.
    fn begin(&mut self, stretches: &[OwnStretch], per_time: u64) -> Result<(), Memory>
        requires few { length stretches.now ≤ 2 * MAX_JOBS }
        requires fit { All (λ one. per_time * one.length < 2 ^ 64) stretches.now }
        ensures cells { OnOk result (self.new.cells.items ≡ map (first_cell per_time (length stretches.now)) stretches.now) }
        ensures next { OnOk result (IsNumbers (length stretches.now) self.new.next.items) }
        ensures shares { OnOk result (self.new.shares.items ≡ []) }
        ensures late { self.new.late ≡ false }
    {
        self.late = false;
        self.shares.clear();
        set_cells(&mut self.cells, stretches, per_time)?;
        set_numbers(&mut self.next, stretches.len())
    }

    /// A job whose window begins at this place takes what it can in one stretch, and still wants so many units then. Its share is kept
    /// if no job is late.
    fn take(&mut self, job: u32, first: u32, stretch: u32, left: u64) -> Result<u64, Memory>
        requires { stretch < length self.old.cells.items }
        ensures taken { IfOk result (λ rest. (shares : List JobShare) → (shares' : List JobShare) × IsTake job first stretch left shares self.old.cells.items rest shares' self.new.cells.items
            × (Keeps self.old.late self.old.shares.items shares → Keeps self.old.late self.new.shares.items shares')) }
        ensures next { self.new.next ≡ self.old.next }
        ensures late { self.new.late ≡ self.old.late }
        ensures count { length self.new.cells.items ≡ length self.old.cells.items }
    {
        let cell = &mut self.cells[stretch as usize];
        let units = left.min(cell.room);
        if units == 0 {
            return Ok(left);
        }
        if !self.late {
            self.shares.push(Share {
                job,
                stretch,
                units,
            })?;
        }
        cell.room -= units;
        cell.shared = cell.shared.min(first);
        Ok(left - units)
    }

    /// A job takes the earliest room in its window, and still wants so many units then.
    fn serve(&mut self, jobs: &[OwnJob], job: usize, want: u64) -> Result<u64, Memory>
        requires few { length jobs.now ≤ MAX_JOBS }
        requires known { job < length jobs.now }
        requires windows { HaveWindows (length self.old.cells.items) jobs.now }
        requires next { IsNext (rooms_of self.old.cells.items) self.old.next.items }
        ensures served { IfOk result (λ left. (shares : List JobShare) → AreTaken IsNotAfter (own_windows jobs.now) (length (rooms_of self.old.cells.items)) shares (rooms_of self.old.cells.items) →
            All (λ share. share.job < job) shares → IsServing (own_windows jobs.now) job want self.old.late self.old.shares.items shares self.old.cells.items
            (window_at (own_windows jobs.now) job).end left self.new.shares.items self.new.cells.items) }
        ensures late { OnOk result (self.new.late ≡ self.old.late) }
        ensures count { OnOk result (length self.new.cells.items ≡ length self.old.cells.items) }
        ensures next { OnOk result (IsNext (rooms_of self.new.cells.items) self.new.next.items) }
    {
        let own = jobs[job];
        let mut place = next_place(&mut self.next, own.first);
        let mut left = want;
        while place < own.end {
            left = self.take(job as u32, own.first, place, left)?;
            if left == 0 {
                return Ok(left);
            }
            let after = next_place(&mut self.next, place + 1);
            self.next[place as usize] = after;
            place = after;
        }
        Ok(left)
    }

    /// A late job reaches from the last stretch of its window to the first.
    fn set_late(&mut self, own: OwnJob)
        requires some { own.first < own.end }
        requires within { own.end ≤ length self.old.cells.items }
        ensures cells { self.new.cells.items ≡ slice_set self.old.cells.items (own.end - 1) (late_cell (cell_at self.old.cells.items (own.end - 1)) own.first) }
        ensures next { self.new.next ≡ self.old.next }
        ensures shares { self.new.shares ≡ self.old.shares }
        ensures late { self.new.late ≡ true }
    {
        self.late = true;
        let last = own.end as usize - 1;
        let cell = self.cells[last];
        self.cells[last] = Cell {
            late: cell.late.min(own.first),
            ..cell
        };
    }

    /// Each of a group's jobs, in order, takes the earliest room in its window. Answers whether one of them is late.
    pub(crate) fn fill(&mut self, own: &Own, speed: Speed) -> Result<bool, Memory>
        requires few_jobs { length own.now.jobs.now ≤ MAX_JOBS }
        requires few { length own.now.stretches.now ≤ 2 * MAX_JOBS }
        requires windows { HaveWindows (length own.now.stretches.now) own.now.jobs.now }
        requires rooms_fit { All (λ one. speed.per_time * one.length < 2 ^ 64) own.now.stretches.now }
        requires wants_fit { All (λ one. speed.per_work * one.work < 2 ^ 64) own.now.jobs.now }
        ensures { IfOk result (λ late. IsFilled (own_windows own.now.jobs.now) (wants_at speed.per_work own.now.jobs.now) (rooms_at speed.per_time own.now.stretches.now)
            late self.new.shares.items self.new.cells.items) }
    {
        self.begin(own.stretches, speed.per_time)?;
        for job in 0..own.jobs.len() {
            let one = own.jobs[job];
            let left = self.serve(own.jobs, job, speed.per_work * u64::from(one.work))?;
            if left > 0 {
                self.set_late(one);
            }
        }
        Ok(self.late)
    }
}

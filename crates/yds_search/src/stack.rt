ghost use Rattle.std.specs.Prelude.{◌≡◌, ◌+◌, ◌-◌, ◌≤◌, ◌++◌, ◌∷◌, [], ℕ, List, length, IfOk, OnOk};
ghost use Rattle.std.specs.List.{All};
ghost use Rattle.yds_search.specs.Own.{Part, HaveWindows};
ghost use Rattle.yds_search.specs.Closure.{AreRanks};
ghost use Rattle.yds_search.specs.Stack.{AreLaid, AreLast, staying_jobs, moving_jobs, marked_with, staying_part, moving_part};

use crate::closing::Closing;
use crate::own::{Own, OwnJob, OwnStretch};
use std::alloc::Global;
use yds_model::Memory;

/// How many jobs and stretches a group has.
#[derive(Clone, Copy, Debug, PartialEq, Eq)]
pub(crate) struct Size {
    /// How many jobs.
    pub jobs: usize,
    /// How many stretches.
    pub stretches: usize,
}

/// The groups that aren't finished, the fastest one last.
#[derive(Debug, Drop)]
pub(crate) struct Stack {
    /// One group's jobs after another's, each in order of deadline and number.
    pub jobs: Vec<OwnJob>,
    /// One group's stretches after another's, each in order of time.
    pub stretches: Vec<OwnStretch>,
    /// The groups' sizes.
    pub sizes: Vec<Size>,
    /// Room for the jobs that move as a group is split.
    moving_jobs: Vec<OwnJob>,
    /// Room for the stretches that move.
    moving_stretches: Vec<OwnStretch>,
}

/// Parts a group's jobs, which begin at this place. Those whose windows are closed upon, stretch for stretch, come to stand behind
/// the others. Each gets its new places. Answers how many stay.
fn part_jobs(
    jobs: &mut Vec<OwnJob>,
    start: usize,
    ranks: &[u32],
    moving: &mut Vec<OwnJob>,
) -> Result<usize, Memory>
    requires own { (marks : List ℕ) × (front : List OwnJob) × (own : List OwnJob) × (jobs.old.items ≡ front ++ own) × (start ≡ length front) × All (λ mark. mark ≤ 1) marks × AreRanks marks ranks.now × HaveWindows (length marks) own }
    ensures parted { OnOk result ((front own : List OwnJob) → jobs.old.items ≡ front ++ own → start ≡ length front →
        jobs.new.items ≡ (front ++ staying_jobs ranks.now own) ++ moving_jobs ranks.now own) }
    ensures staying { IfOk result (λ count. (front own : List OwnJob) → jobs.old.items ≡ front ++ own → start ≡ length front →
        count ≡ length (staying_jobs ranks.now own)) }
{
    moving.clear();
    let mut staying = start;
    for at in start..jobs.len() {
        let own = jobs[at];
        let first = ranks[own.first as usize];
        let end = ranks[own.end as usize];
        if end - first == own.end - own.first {
            moving.push(OwnJob { first, end, ..own })?;
        } else {
            jobs[staying] = OwnJob {
                first: own.first - first,
                end: own.end - end,
                ..own
            };
            staying += 1;
        }
    }
    jobs.truncate(staying);
    jobs.extend_from_slice(moving)?;
    Ok(staying - start)
}

/// Parts a group's stretches, which begin at this place: those that are closed upon come to stand behind the others. Answers how
/// many stay.
fn part_stretches(
    stretches: &mut Vec<OwnStretch>,
    start: usize,
    marks: &[u32],
    moving: &mut Vec<OwnStretch>,
) -> Result<usize, Memory>
    requires marks { All (λ mark. mark ≤ 1) marks.now }
    requires own { (front : List OwnStretch) × (own : List OwnStretch) × (stretches.old.items ≡ front ++ own) × (start ≡ length front) × (length marks.now ≡ length own) }
    ensures parted { OnOk result ((front own : List OwnStretch) → stretches.old.items ≡ front ++ own → start ≡ length front → length marks.now ≡ length own →
        stretches.new.items ≡ (front ++ marked_with 0 marks.now own) ++ marked_with 1 marks.now own) }
    ensures staying { IfOk result (λ count. (front own : List OwnStretch) → stretches.old.items ≡ front ++ own → start ≡ length front → length marks.now ≡ length own →
        count ≡ length (marked_with 0 marks.now own)) }
{
    moving.clear();
    let mut staying = start;
    for at in start..stretches.len() {
        let own = stretches[at];
        if marks[at - start] > 0 {
            moving.push(own)?;
        } else {
            stretches[staying] = own;
            staying += 1;
        }
    }
    stretches.truncate(staying);
    stretches.extend_from_slice(moving)?;
    Ok(staying - start)
}

impl Stack {
    /// No groups, and room for so many jobs and stretches.
    pub(crate) fn new(alloc: Global, jobs: usize, stretches: usize) -> Result<Stack, Memory>
        ensures { IfOk result (AreLaid []) }
    {
        Ok(Stack {
            jobs: Vec::with_capacity(alloc, jobs)?,
            stretches: Vec::with_capacity(alloc, stretches)?,
            sizes: Vec::with_capacity(alloc, stretches)?,
            moving_jobs: Vec::with_capacity(alloc, jobs)?,
            moving_stretches: Vec::with_capacity(alloc, stretches)?,
        })
    }

    /// The group whose size was taken off.
    pub(crate) fn last(&self, size: Size) -> Own<'_>
        requires { (parts : List Part) × (part : Part) × AreLast parts part size self.now }
        ensures jobs { (parts : List Part) (part : Part) → AreLast parts part size self.now → result.jobs.now ≡ part.jobs }
        ensures stretches { (parts : List Part) (part : Part) → AreLast parts part size self.now → result.stretches.now ≡ part.stretches }
    {
        Own {
            jobs: &self.jobs[self.jobs.len() - size.jobs..],
            stretches: &self.stretches[self.stretches.len() - size.stretches..],
        }
    }

    /// The group whose size was taken off goes.
    pub(crate) fn drop_last(&mut self, size: Size)
        requires { (parts : List Part) × (part : Part) × AreLast parts part size self.old }
        ensures { (parts : List Part) (part : Part) → AreLast parts part size self.old → AreLaid parts self.new }
    {
        self.jobs.truncate(self.jobs.len() - size.jobs);
        self.stretches
            .truncate(self.stretches.len() - size.stretches);
    }

    /// The group whose size was taken off is split: what is closed upon becomes a group of its own, behind the rest.
    pub(crate) fn split_last(&mut self, size: Size, closing: &Closing) -> Result<(), Memory>
        requires marks { All (λ mark. mark ≤ 1) closing.now.marks.items }
        requires ranks { AreRanks closing.now.marks.items closing.now.ranks.items }
        requires last { (parts : List Part) × (part : Part) × AreLast parts part size self.old × (length closing.now.marks.items ≡ length part.stretches) × HaveWindows (length part.stretches) part.jobs }
        ensures { OnOk result ((parts : List Part) (part : Part) → AreLast parts part size self.old → length closing.now.marks.items ≡ length part.stretches →
            AreLaid (moving_part closing.now.marks.items closing.now.ranks.items part ∷ staying_part closing.now.marks.items closing.now.ranks.items part ∷ parts) self.new) }
    {
        let jobs = self.jobs.len() - size.jobs;
        let jobs = part_jobs(&mut self.jobs, jobs, &closing.ranks, &mut self.moving_jobs)?;
        let stretches = self.stretches.len() - size.stretches;
        let stretches = part_stretches(
            &mut self.stretches,
            stretches,
            &closing.marks,
            &mut self.moving_stretches,
        )?;
        self.sizes.push(Size { jobs, stretches })?;
        self.sizes.push(Size {
            jobs: size.jobs - jobs,
            stretches: size.stretches - stretches,
        })?;
        Ok(())
    }
}

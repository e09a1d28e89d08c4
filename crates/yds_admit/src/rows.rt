ghost use Rattle.std.specs.Prelude.{◌≡◌, ℕ, ◌<◌, ◌≤◌, ◌++◌, ◌∷◌, [], IfOk, insert, length};
ghost use Rattle.std.specs.List.Sorted.{IsNonDecreasingBy};
ghost use Rattle.yds_model.specs.Job.{job_at};
ghost use Rattle.yds_admit.specs.Chain.{IsFalling};

use std::alloc::Global;
use std::marker::Model;
use yds_model::{JobRow, Memory};

/// Jobs with a list for each of their numbers: to put one more among them moves blocks of memory, and a walk reads only what it wants.
#[derive(Drop)]
pub(crate) struct Rows {
    releases: Vec<u32>,
    deadlines: Vec<u32>,
    works: Vec<u32>,
}

impl Model for Rows {
    ghost use Rattle.std.specs.Prelude.{List};
    ghost use Rattle.yds_model.specs.Job.{Job};

    ghost Value = { List Job };

    ghost use Rattle.yds_admit.specs.Rows.{listed_jobs, AreRows};

    ghost view = { λ rows. listed_jobs rows.releases.items rows.deadlines.items rows.works.items };

    ghost invariant = { λ rows. AreRows rows.releases.items rows.deadlines.items rows.works.items };
}

impl Rows {
    /// No jobs yet, with room for so many.
    pub(crate) fn with_capacity(alloc: Global, count: usize) -> Result<Rows, Memory>
        ensures { IfOk result (λ rows. rows ≡ []) }
    {
        Ok(Rows {
            releases: Vec::with_capacity(alloc, count)?,
            deadlines: Vec::with_capacity(alloc, count)?,
            works: Vec::with_capacity(alloc, count)?,
        })
    }

    /// These jobs, in their order.
    pub(crate) fn from_slice(alloc: Global, jobs: &[JobRow]) -> Result<Rows, Memory>
        ensures { IfOk result (λ rows. rows ≡ jobs.now) }
    {
        let mut releases = Vec::with_capacity(alloc, jobs.len())?;
        let mut deadlines = Vec::with_capacity(alloc, jobs.len())?;
        let mut works = Vec::with_capacity(alloc, jobs.len())?;
        for job in jobs {
            releases.push(job.release)?;
            deadlines.push(job.deadline)?;
            works.push(job.work)?;
        }
        Ok(Rows {
            releases,
            deadlines,
            works,
        })
    }

    /// How many they are.
    #[inline]
    pub(crate) fn len(&self) -> usize
        ensures { result ≡ length self.now }
    {
        self.releases.len()
    }

    /// The release of one of them.
    #[inline]
    pub(crate) fn release(&self, number: usize) -> u32
        requires { number < length self.now }
        ensures { result ≡ (job_at self.now number).release }
    {
        self.releases[number]
    }

    /// The deadline of one of them.
    #[inline]
    pub(crate) fn deadline(&self, number: usize) -> u32
        requires { number < length self.now }
        ensures { result ≡ (job_at self.now number).deadline }
    {
        self.deadlines[number]
    }

    /// The work of one of them.
    #[inline]
    pub(crate) fn work(&self, number: usize) -> u32
        requires { number < length self.now }
        ensures { result ≡ (job_at self.now number).work }
    {
        self.works[number]
    }

    /// Puts one more behind them.
    pub(crate) fn push(&mut self, row: JobRow) -> Result<(), Memory>
        ensures { IfOk result (λ _. self.new ≡ self.old ++ row ∷ []) }
    {
        self.works.reserve(1)?;
        self.deadlines.reserve(1)?;
        self.releases.reserve(1)?;
        self.works.push(row.work)?;
        self.deadlines.push(row.deadline)?;
        self.releases.push(row.release)?;
        Ok(())
    }

    /// Puts one more among them, with this number.
    pub(crate) fn insert(&mut self, number: usize, row: JobRow) -> Result<(), Memory>
        requires { number ≤ length self.old }
        ensures { IfOk result (λ _. self.new ≡ insert self.old number row) }
    {
        self.works.reserve(1)?;
        self.deadlines.reserve(1)?;
        self.releases.reserve(1)?;
        self.works.insert(number, row.work)?;
        self.deadlines.insert(number, row.deadline)?;
        self.releases.insert(number, row.release)?;
        Ok(())
    }

    /// How many of them, which stand in falling order of their releases, are released at a time or later.
    pub(crate) fn released_from(&self, time: u32) -> usize
        requires { IsFalling self.now }
        ensures within { result ≤ length self.now }
        ensures early { (k : ℕ) → k < result → time ≤ (job_at self.now k).release }
        ensures late { (k : ℕ) → result ≤ k → k < length self.now → (job_at self.now k).release < time }
    {
        self.releases.partition_point(|release| time <= *release)
    }

    /// How many of them, which stand in rising order of their deadlines, are due before a time.
    pub(crate) fn due_before(&self, time: u32) -> usize
        requires { IsNonDecreasingBy (λ job. job.deadline) self.now }
        ensures within { result ≤ length self.now }
        ensures before { (k : ℕ) → k < result → (job_at self.now k).deadline < time }
        ensures after { (k : ℕ) → result ≤ k → k < length self.now → time ≤ (job_at self.now k).deadline }
    {
        self.deadlines.partition_point(|deadline| *deadline < time)
    }
}

ghost use Rattle.std.specs.Prelude.{◌≡◌, ◌<◌, ◌≤◌, IfOk, OnOk, OnErr, Some, length, ◌*◌, All};
ghost use Rattle.std.specs.List.{range_with_len};
ghost use Rattle.yds_model.specs.Job.{IsJob};
ghost use Rattle.yds_edf.specs.Queue.{new_queue, IsNoEarlier, all_pending, pending_in, pending_due, Serves};
ghost use Rattle.yds_edf.specs.Ranked.{ArePendingIn};

use crate::engine::Engine;
use crate::limits::MAX_GRAIN;
use crate::pending::PendingJobs;
use std::alloc::{AllocError, Global};
use std::marker::Model;
use yds_model::limits::{MAX_JOBS, MAX_WORK};
use yds_model::{JobRow, Memory};
use yds_timetable::Share;

/// Jobs that arrive in the course of time and are served earliest deadline first, those of the same
/// deadline in order of their numbers.
#[derive(Drop)]
pub struct Queue {
    engine: Engine,
    alloc: Global,
}

impl Model for Queue {
    ghost use Rattle.std.specs.Prelude.{◌≡◌, length, slice_index};
    ghost use Rattle.base.specs.Numbers.{Each};
    ghost use Rattle.yds_edf.specs.Queue.{JobQueue};

    ghost Value = { JobQueue };

    ghost view = { λ q. q.engine.queue };

    ghost invariant = { λ q. Each (length q.engine.queue.jobs) (λ number. slice_index q.engine.ties number ≡ number) };
}

impl Queue {
    /// The queue of these jobs: each has `work * grain` units, none is served, nobody has arrived, and
    /// there is no last time of arrival yet.
    pub fn new(alloc: Global, rows: &[JobRow], grain: u64) -> Result<Queue, Memory>
        requires few { length rows.now ≤ MAX_JOBS }
        requires some_grain { 1 ≤ grain }
        requires grain_in_range { grain ≤ MAX_GRAIN }
        ensures { IfOk result (λ queue. queue ≡ new_queue rows.now grain) }
    {
        let numbers = numbers_below(alloc, rows.len() as u32)?;
        let engine = Engine::new(alloc, rows, numbers, grain)?;
        Ok(Queue { engine, alloc })
    }

    /// The jobs with release at most this time, in time units, have arrived. It takes no memory.
    pub fn arrive(&mut self, time: u32)
        requires { IsNoEarlier self.old.time time }
        ensures { self.new ≡ record self.old { time = Some time } }
    {
        self.engine.arrive(time);
    }

    /// The jobs, by their numbers. It takes no memory.
    pub fn rows(&self) -> &[JobRow]
        ensures jobs { result.now ≡ self.now.jobs }
        ensures few { length result.now ≤ MAX_JOBS }
        ensures kept { All IsJob result.now }
    {
        self.engine.rows()
    }

    /// The number of units in a unit of work.
    pub fn grain(&self) -> u64
        ensures grain { result ≡ self.now.grain }
        ensures some { 1 ≤ result }
        ensures in_range { result ≤ MAX_GRAIN }
    {
        self.engine.grain()
    }

    /// The units of arrived jobs that aren't served. It takes no memory.
    pub fn pending(&self) -> u64
        ensures units { result ≡ all_pending self.now }
        ensures in_range { result ≤ MAX_JOBS * (MAX_WORK * self.now.grain) }
    {
        self.engine.pending()
    }

    /// Those of one job. It takes no memory.
    pub fn pending_of(&self, job: u32) -> u64
        requires { job < length self.now.jobs }
        ensures units { result ≡ pending_in self.now job }
        ensures in_range { result ≤ MAX_WORK * MAX_GRAIN }
    {
        self.engine.pending_of(job)
    }

    /// Those of the arrived jobs with deadline at most this time, in time units. It takes no memory.
    pub fn due(&self, time: u32) -> u64
        ensures { result ≡ pending_due self.now time }
    {
        self.engine.due(time)
    }

    /// The jobs in order of their deadlines, with the units that are pending of each. It takes no memory.
    pub fn in_order(&self) -> &PendingJobs
        ensures { ArePendingIn self.now result.now }
    {
        self.engine.in_order()
    }

    /// The units that each job was served, by the jobs' numbers. It takes no memory.
    pub fn served(&self) -> &[u64]
        ensures { result.now ≡ self.now.served }
    {
        self.engine.served()
    }

    /// Serves the lesser of the capacity and the pending units, one share for each job that is served.
    /// The shares have the stretch's number. After want of memory the queue is unchanged.
    pub fn serve(&mut self, stretch: u32, capacity: u64) -> Result<Vec<Share>, Memory>
        ensures ok { IfOk result (λ shares. Serves self.old self.new stretch capacity shares.items) }
        ensures works { IfOk result (λ shares. All (λ share. share.units ≤ MAX_WORK * self.old.grain) shares.items) }
        ensures err { OnErr result (self.new ≡ self.old) }
    {
        let mut shares = Vec::new(self.alloc);
        self.serve_into(stretch, capacity, &mut shares)?;
        Ok(shares)
    }

    /// The same, into a list in which other shares stood before: a loop keeps it, so that its memory is taken once.
    pub(crate) fn serve_into(
        &mut self,
        stretch: u32,
        capacity: u64,
        shares: &mut Vec<Share>,
    ) -> Result<(), Memory>
        ensures ok { OnOk result (Serves self.old self.new stretch capacity shares.new.items) }
        ensures works { OnOk result (All (λ share. share.units ≤ MAX_WORK * self.old.grain) shares.new.items) }
        ensures err { OnErr result (self.new ≡ self.old) }
    {
        self.engine.serve(stretch, capacity, shares)
    }
}

/// The numbers below this one, in order.
fn numbers_below(alloc: Global, count: u32) -> Result<Vec<u32>, AllocError>
    ensures { IfOk result (λ numbers. numbers.items ≡ range_with_len 0 count) }
{
    (0..count).collect(alloc)
}

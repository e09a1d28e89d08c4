ghost use Rattle.std.specs.Prelude.{
  ◌≡◌,
  ◌<◌,
  ◌≤◌,
  ◌-◌,
  ◌*◌,
  IfOk,
  OnOk,
  OnErr,
  MatchOption,
  None,
  Some,
  length,
  if◌then◌else◌,
  All,
};
ghost use Rattle.yds_model.specs.Job.{IsJob};
ghost use Rattle.yds_edf.specs.Engine.{IsTiedQueue, ServesFirst, ServesTied};
ghost use Rattle.yds_edf.specs.Ranked.{ArePendingIn};
ghost use Rattle.yds_edf.specs.Pending.{is_within};
ghost use Rattle.yds_edf.specs.Serving.{AreTies};
ghost use Rattle.yds_edf.specs.Queue.{new_queue, IsNoEarlier, all_pending, pending_in, pending_due};

use crate::due_order::{Due, by_release};
use crate::limits::MAX_GRAIN;
use crate::pending::PendingJobs;
use std::alloc::Global;
use std::marker::Model;
use yds_model::limits::{MAX_JOBS, MAX_WORK};
use yds_model::{JobRow, Memory};
use yds_timetable::Share;

/// Serves jobs earliest deadline first, jobs of the same deadline in order of their ties.
///
/// The jobs stand in two orders: by their releases, where so many of the first have arrived, and by their deadlines, with the
/// units that are pending of each.
#[derive(Drop)]
pub(crate) struct Engine {
    rows: Vec<JobRow>,
    ties: Vec<u32>,
    grain: u64,
    /// The last time of arrival.
    time: Option<u32>,
    /// The units that each job was served.
    served: Vec<u64>,
    /// The jobs in order of their releases.
    arrivals: Vec<Due>,
    /// How many of those have arrived.
    arrived: usize,
    pending: PendingJobs,
}

impl Model for Engine {
    ghost use Rattle.yds_edf.specs.Engine.{TiedQueue, IsEngine};

    ghost Value = { TiedQueue };

    ghost view = { λ e. record {
      queue = record { jobs = e.rows.items; grain = e.grain; time = e.time; served = e.served.items };
      ties = e.ties.items;
    } };

    ghost invariant = { λ e. IsEngine (record {
      queue = record { jobs = e.rows.items; grain = e.grain; time = e.time; served = e.served.items };
      ties = e.ties.items;
    }) e.arrivals.items e.arrived e.pending };
}

impl Engine {
    /// No job has arrived, and none is served. Each job has `work * grain` units.
    pub(crate) fn new(
        alloc: Global,
        rows: &[JobRow],
        ties: Vec<u32>,
        grain: u64,
    ) -> Result<Engine, Memory>
        requires few { length rows.now ≤ MAX_JOBS }
        requires some_grain { 1 ≤ grain }
        requires grain_in_range { grain ≤ MAX_GRAIN }
        requires all_tied { length ties.items ≡ length rows.now }
        requires told_apart { AreTies ties.items }
        ensures made { IfOk result (λ engine. engine ≡ record {
          queue = new_queue rows.now grain;
          ties = ties.items;
        }) }
        ensures kept { IfOk result IsTiedQueue }
    {
        Ok(Engine {
            rows: Vec::from_slice(alloc, rows)?,
            grain,
            time: None,
            served: vec![in alloc; 0; rows.len()]?,
            arrivals: by_release(alloc, rows, &ties)?,
            arrived: 0,
            pending: PendingJobs::new(alloc, rows, &ties)?,
            ties,
        })
    }

    /// The jobs, by their numbers.
    pub(crate) fn rows(&self) -> &[JobRow]
        ensures jobs { result.now ≡ self.now.queue.jobs }
        ensures few { length result.now ≤ MAX_JOBS }
        ensures kept { All IsJob result.now }
    {
        &self.rows
    }

    /// The number of units in a unit of work.
    pub(crate) fn grain(&self) -> u64
        ensures grain { result ≡ self.now.queue.grain }
        ensures some { 1 ≤ result }
        ensures in_range { result ≤ MAX_GRAIN }
    {
        self.grain
    }

    /// The units that are pending.
    pub(crate) fn pending(&self) -> u64
        ensures units { result ≡ all_pending self.now.queue }
        ensures in_range { result ≤ MAX_JOBS * (MAX_WORK * self.now.queue.grain) }
    {
        self.pending.units.total()
    }

    /// The units that are pending of one job.
    pub(crate) fn pending_of(&self, job: u32) -> u64
        requires { job < length self.now.queue.jobs }
        ensures units { result ≡ pending_in self.now.queue job }
        ensures in_range { result ≤ MAX_WORK * MAX_GRAIN }
    {
        let job = job as usize;
        units_pending(&self.rows[job], self.grain, self.time, self.served[job])
    }

    /// The units that are pending of the jobs with deadline at most this time.
    pub(crate) fn due(&self, time: u32) -> u64
        ensures { result ≡ pending_due self.now.queue time }
    {
        let mut units = 0;
        for (job, row) in self.rows.iter().enumerate() {
            if row.deadline <= time {
                units += units_pending(row, self.grain, self.time, self.served[job]);
            }
        }
        units
    }

    /// The units that each job was served.
    pub(crate) fn served(&self) -> &[u64]
        ensures { result.now ≡ self.now.queue.served }
    {
        &self.served
    }

    /// The jobs in the order in which they are served, with the units that are pending of each.
    pub(crate) fn in_order(&self) -> &PendingJobs
        ensures { ArePendingIn self.now.queue result.now }
    {
        &self.pending
    }

    /// The jobs with release at most this time have arrived. It takes no memory.
    pub(crate) fn arrive(&mut self, time: u32)
        requires { IsNoEarlier self.old.queue.time time }
        ensures { self.new ≡ record {
          queue = record self.old.queue { time = Some time };
          ties = self.old.ties;
        } }
    {
        while self.arrived < self.arrivals.len() {
            let next = self.arrivals[self.arrived];
            if next.release > time {
                break;
            }
            let job = next.job as usize;
            let units = units_left(&self.rows[job], self.grain, self.served[job]);
            self.pending.set(next.job, units);
            self.arrived += 1;
        }
        self.time = Some(time);
    }

    /// Serves the job that is due first among those with pending units, with at most so many units: the
    /// job's number and the units that it got. None where no units are pending.
    fn serve_first(&mut self, room: u64) -> Option<(u32, u64)>
        requires { 1 ≤ room }
        ensures { MatchOption result
            ((all_pending self.old.queue ≡ 0) × (self.new ≡ self.old))
            (λ served. ServesFirst self.old self.new room served.0 served.1) }
    {
        let place = self.pending.units.first()?;
        let job = self.pending.order[place].job;
        let left = self.pending.units.at(place);
        let units = left.min(room);
        self.pending.units.set(place, left - units);
        self.served[job as usize] += units;
        Some((job, units))
    }

    /// How many jobs it serves.
    fn jobs(&self) -> usize
        ensures count { result ≡ length self.now.queue.jobs }
        ensures kept { IsTiedQueue self.now }
    {
        self.rows.len()
    }

    /// Serves the lesser of the capacity and the pending units, and leaves in the list the shares of this stretch alone, one for
    /// each job that is served. The list takes memory only where it has room for fewer shares than there are jobs.
    pub(crate) fn serve(
        &mut self,
        stretch: u32,
        capacity: u64,
        shares: &mut Vec<Share>,
    ) -> Result<(), Memory>
        ensures ok { OnOk result (ServesTied self.old self.new stretch capacity shares.new.items) }
        ensures works { OnOk result (All (λ share. share.units ≤ MAX_WORK * self.old.queue.grain) shares.new.items) }
        ensures err { OnErr result (self.new ≡ self.old) }
    {
        shares.clear();
        shares.reserve(self.jobs())?;
        let mut room = capacity;
        while room > 0 {
            let Some((job, units)) = self.serve_first(room) else {
                break;
            };
            shares.push(Share {
                stretch,
                job,
                units,
            })?;
            room -= units;
        }
        Ok(())
    }
}

/// The units of a job that are pending at the last time of arrival.
fn units_pending(row: &JobRow, grain: u64, last: Option<u32>, served: u64) -> u64
    requires grain_in_range { grain ≤ MAX_GRAIN }
    requires within { served ≤ row.now.work * grain }
    ensures { result ≡ (if is_within last row.now.release then row.now.work * grain - served else 0) }
{
    match last {
        Some(time) if row.release <= time => units_left(row, grain, served),
        _ => 0,
    }
}

/// The units that a job wants beyond those that it was served.
fn units_left(row: &JobRow, grain: u64, served: u64) -> u64
    requires grain_in_range { grain ≤ MAX_GRAIN }
    requires within { served ≤ row.now.work * grain }
    ensures left { result ≡ row.now.work * grain - served }
    ensures job { IsJob row.now }
{
    u64::from(row.work) * grain - served
}

ghost use Rattle.std.specs.Prelude.{◌≡◌, ℕ, ◌<◌, ◌≤◌, List, [], ◌∷◌, ◌++◌, length, take, drop, filter, vec_len, IfOk, OnOk, OnErr};
ghost use Rattle.std.specs.List.Sorted.{IsPermutation, IsSortedByKey, IsStableByKey};
ghost use Rattle.yds_fraction.specs.ValueOrder.{fraction_cmp};
ghost use Rattle.std.specs.Int.{◌∣◌};
ghost use Rattle.base.specs.declared.limits.TheConstants.{MAX_DENOMINATOR, MAX_SLOTS};
ghost use Rattle.yds_model.specs.Scale.{at_scale};
ghost use Rattle.yds_model.specs.Slot.{IsScale, slots_at, work_given};
ghost use Rattle.yds_model.specs.Audit.{AreSlots, grain_of, given_of};
ghost use Rattle.yds_model.specs.Within.{AreSlotsOf};
ghost use Rattle.yds_fraction.specs.Mixed.{IsMixed};
ghost use Rattle.yds_slots.specs.Between.{RunInOrder, lies_between};
ghost use Rattle.yds_slots.specs.Schedule.{WrittenSchedule, FitsGrain};
ghost use Rattle.yds_slots.specs.KeptSlots.{IsReceiptOf, receipt_at};

use crate::received::Received;
use crate::search::{end_of, first_from};
use crate::slot::Slot;
use std::alloc::{AllocError, Global};
use std::marker::Model;
use yds_fraction::Amount;
use yds_model::Memory;

/// A schedule: slots of so many jobs, in their order.
///
/// Each slot's job is below the number of jobs, and there are at most `MAX_SLOTS` slots. The works of one
/// job are alike: those that aren't whole have one denominator, the job's grain.
#[derive(Drop)]
pub struct Schedule {
    jobs: u32,
    slots: Vec<Slot>,
    /// What the first jobs have got, at least up to the last one that has a slot. The others have got nothing.
    received: Vec<Received>,
}

impl Model for Schedule {
    ghost use Rattle.yds_slots.specs.Between.{RunInOrder, lies_between};
    ghost use Rattle.yds_slots.specs.Schedule.{WrittenSchedule};
    ghost use Rattle.yds_slots.specs.KeptSlots.{IsKept};

    ghost Value = { WrittenSchedule };

    ghost view = { λ s. record { jobs = s.jobs; slots = s.slots.items } };

    ghost invariant = { λ s. IsKept s.jobs s.slots.items s.received.items };
}

/// The slots in rising order of their starts, equal ones in their given order.
fn by_start(mut slots: Vec<Slot>) -> Result<Vec<Slot>, Memory>
    ensures same { IfOk result (λ sorted. IsPermutation slots.items sorted.items) }
    ensures rising { IfOk result (λ sorted. IsSortedByKey (λ slot. slot.from) fraction_cmp sorted.items) }
    ensures stable { IfOk result (λ sorted. IsStableByKey (λ slot. slot.from) fraction_cmp slots.items sorted.items) }
{
    slots.sort_by_key(|slot| slot.from)?;
    Ok(slots)
}

/// Makes the receipts reach this one of so many jobs. Those that are added say nothing.
fn reach(received: &mut Vec<Received>, job: u32, jobs: u32) -> Result<(), AllocError>
    requires { job < jobs }
    ensures same { (other : ℕ) → receipt_at received.new.items other ≡ receipt_at received.old.items other }
    ensures no_fewer { length received.old.items ≤ length received.new.items }
    ensures reached { OnOk result (job < length received.new.items) }
{
    if received.len() <= job as usize {
        received.resize(jobs as usize, Received::nothing())?;
    }
    Ok(())
}

impl Schedule {
    /// No slots, of so many jobs.
    pub fn new(alloc: Global, jobs: u32) -> Result<Schedule, Memory>
        ensures { IfOk result (λ schedule. schedule ≡ record { jobs = jobs; slots = [] }) }
    {
        Schedule::with_capacity(alloc, jobs, 0)
    }

    /// No slots, of so many jobs, with room for so many slots.
    pub fn with_capacity(alloc: Global, jobs: u32, slots: usize) -> Result<Schedule, Memory>
        ensures { IfOk result (λ schedule. schedule ≡ record { jobs = jobs; slots = [] }) }
    {
        Ok(Schedule {
            jobs,
            slots: Vec::with_capacity(alloc, slots)?,
            received: Vec::new(alloc),
        })
    }

    /// These slots of so many jobs, in rising order of the times at which they begin. Slots that begin together
    /// stay in the order in which they are given.
    pub fn sorted(alloc: Global, jobs: u32, slots: Vec<Slot>) -> Result<Schedule, Memory>
        requires few { vec_len slots ≤ MAX_SLOTS }
        requires agree { AreSlots jobs slots.items }
        ensures jobs { IfOk result (λ schedule. schedule.jobs ≡ jobs) }
        ensures same { IfOk result (λ schedule. IsPermutation slots.items schedule.slots) }
        ensures rising { IfOk result (λ schedule. IsSortedByKey (λ slot. slot.from) fraction_cmp schedule.slots) }
        ensures stable { IfOk result (λ schedule. IsStableByKey (λ slot. slot.from) fraction_cmp slots.items schedule.slots) }
    {
        let rising = by_start(slots)?;
        let mut schedule = Schedule::with_capacity(alloc, jobs, rising.len())?;
        for slot in &rising {
            schedule.push(*slot)?;
        }
        Ok(schedule)
    }

    /// Raises the number of jobs. The slots stay.
    pub fn widen(&mut self, jobs: u32)
        requires { self.old.jobs ≤ jobs }
        ensures { self.new ≡ record { jobs = jobs; slots = self.old.slots } }
    {
        self.jobs = jobs;
    }

    /// Puts the slot last.
    pub fn push(&mut self, slot: Slot) -> Result<(), Memory>
        requires known { slot.job < self.old.jobs }
        requires grain { FitsGrain self.old.slots slot }
        requires room { length self.old.slots < MAX_SLOTS }
        ensures ok { OnOk result (self.new ≡ record { jobs = self.old.jobs; slots = self.old.slots ++ slot ∷ [] }) }
        ensures err { OnErr result (self.new ≡ self.old) }
    {
        let job = slot.job;
        let received = self.received(job).with(slot.work);
        reach(&mut self.received, job, self.jobs)?;
        self.slots.push(slot)?;
        self.received[job as usize] = received;
        Ok(())
    }

    /// What the slots give the job.
    fn received(&self, job: u32) -> Received
        ensures { IsReceiptOf self.now.slots job result }
    {
        if job as usize >= self.received.len() {
            return Received::nothing();
        }
        self.received[job as usize]
    }

    /// The denominator of the job's works that aren't whole, or 1.
    pub fn grain(&self, job: u32) -> u64
        requires { job < self.now.jobs }
        ensures { result ≡ grain_of self.now.slots job }
    {
        self.received(job).grain
    }

    /// The work that the slots give the job, together.
    pub fn given(&self, job: u32) -> Amount
        requires { job < self.now.jobs }
        ensures exact { result ≡ given_of self.now.slots job }
        ensures at_scales { (scale : ℕ) → IsScale scale self.now.slots →
            (result.den ∣ scale) × (at_scale scale result ≡ work_given (slots_at scale self.now.slots) job) }
        ensures kept { IsMixed MAX_DENOMINATOR result }
    {
        self.received(job).given
    }

    /// The slots, in their order.
    pub fn slots(&self) -> &[Slot]
        ensures value { result.now ≡ self.now.slots }
        ensures kept { AreSlotsOf self.now.jobs self.now.slots }
        ensures agree { AreSlots self.now.jobs self.now.slots }
    {
        self.slots.as_slice()
    }

    /// The slots that begin at `from` or later and have ended by `to`: neighbours in the schedule.
    ///
    /// They are found by halves, as the slots run in order.
    pub fn between(&self, from: u32, to: u32) -> &[Slot]
        requires { RunInOrder self.now.slots }
        ensures part { result.now ≡ filter (lies_between from to) self.now.slots }
        ensures neighbours { (start : ℕ) × (result.now ≡ take (length result.now) (drop start self.now.slots)) }
    {
        let start = first_from(&self.slots, from);
        let end = end_of(&self.slots, to).max(start);
        &self.slots[start..end]
    }
}

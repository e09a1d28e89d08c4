ghost use Rattle.std.specs.Prelude.{◌≡◌, ◌<◌, ◌≤◌, ◌++◌, length, IfOk, OnOk};
ghost use Rattle.std.specs.List.{All};
ghost use Rattle.base.specs.declared.limits.TheConstants.{MAX_TIME};
ghost use Rattle.yds_model.specs.Within.{IsFraction};
ghost use Rattle.yds_timetable.specs.Pace.{time_after, slot_of, slots_from};
ghost use Rattle.yds_timetable.specs.Timetable.{row_at, row_slots, slots_of};
ghost use Rattle.yds_timetable.specs.Room.{CanFill, CanFollow, CanLay, CanReach, CanRun};

use crate::pace::Pace;
use crate::share::Share;
use crate::timetable::Timetable;
use std::alloc::Global;
use yds_fraction::Moment;
use yds_model::Memory;
use yds_slots::{Schedule, Slot};

/// The slots of a timetable of so many jobs: in each stretch one for each share, in order from the stretch's start and without a
/// gap, at the stretch's pace.
///
/// An end that isn't whole has the pace's units as its denominator, and a work that isn't whole has the pace's grain.
pub fn lay(alloc: Global, jobs: u32, timetable: &Timetable) -> Result<Schedule, Memory>
    requires { CanLay jobs timetable.now }
    ensures { IfOk result (λ schedule. schedule ≡ record { jobs = jobs; slots = slots_of timetable.now }) }
{
    let mut schedule = Schedule::with_capacity(alloc, jobs, timetable.room())?;
    for number in 0..timetable.len() {
        lay_stretch(&mut schedule, timetable, number)?;
    }
    Ok(schedule)
}

/// Puts the slots of one stretch last.
fn lay_stretch(schedule: &mut Schedule, timetable: &Timetable, number: usize) -> Result<(), Memory>
    requires known { number < length timetable.now }
    requires can { CanFill schedule.old.jobs schedule.old.slots (row_at timetable.now number) }
    ensures { OnOk result (schedule.new ≡ record {
      jobs = schedule.old.jobs;
      slots = schedule.old.slots ++ row_slots (row_at timetable.now number);
    }) }
{
    let Some(pace) = timetable.pace(number) else {
        return Ok(());
    };
    let start = timetable.stretch(number).from;
    fill(schedule, pace, start, timetable.shares(number))
}

/// Puts the slots of these shares last, which follow one another at the pace from `start` on.
fn fill(schedule: &mut Schedule, pace: Pace, start: u32, shares: &[Share]) -> Result<(), Memory>
    requires { CanFollow schedule.old.jobs schedule.old.slots pace start shares.now }
    ensures { OnOk result (schedule.new ≡ record {
      jobs = schedule.old.jobs;
      slots = schedule.old.slots ++ slots_from pace start 0 shares.now;
    }) }
{
    let mut done = 0;
    let mut from = Moment::from_whole(u64::from(start));
    for share in shares {
        let slot = slot_at(pace, start, from, done, share);
        schedule.push(slot)?;
        from = slot.to;
        done += share.units;
    }
    Ok(())
}

/// The slots of shares that follow one another at the pace from `start` on, in time units.
pub fn slots_at(
    alloc: Global,
    pace: Pace,
    start: u32,
    shares: &[Share],
) -> Result<Vec<Slot>, Memory>
    requires { CanRun pace start shares.now }
    ensures slots { IfOk result (λ slots. slots.items ≡ slots_from pace start 0 shares.now) }
    ensures shares { OnOk result (All (λ share. 1 ≤ share.units) shares.now) }
{
    let mut slots = Vec::with_capacity(alloc, shares.len())?;
    let mut done = 0;
    let mut from = Moment::from_whole(u64::from(start));
    for share in shares {
        let slot = slot_at(pace, start, from, done, share);
        slots.push(slot)?;
        from = slot.to;
        done += share.units;
    }
    Ok(slots)
}

/// The slot of a share, before which so many units are done by this time.
fn slot_at(pace: Pace, start: u32, from: Moment, done: u64, share: &Share) -> Slot
    requires begins { from ≡ time_after pace start done }
    requires kept { IsFraction MAX_TIME from }
    requires can { CanReach pace start done share.now.units }
    ensures slot { result ≡ slot_of pace start done share.now }
    ensures kept { IsFraction MAX_TIME result.to }
{
    Slot {
        job: share.job,
        from,
        to: pace.time_after(start, done + share.units),
        work: pace.work_of(share.units),
    }
}

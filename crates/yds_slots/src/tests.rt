ghost use Rattle.std.specs.Prelude.{◌≡◌, ◌≤◌, IfOk};
ghost use Rattle.yds_model.specs.Scale.{of_whole, of_parts};
ghost use Rattle.yds_slots.specs.Between.{RunInOrder};

use super::*;
use std::alloc::Global;
use std::test::Fail;
use yds_fraction::{Amount, Moment};

/// A slot in which the job gets one unit of work. Its ends are told in halves of a time unit.
fn in_halves(job: u32, from: u32, to: u32) -> Slot
    requires begin { from ≤ 100 }
    requires end { to ≤ 100 }
    ensures { result ≡ record {
      job = job;
      from = of_parts from 2;
      to = of_parts to 2;
      work = of_whole 1;
    } }
{
    Slot {
        job,
        from: Moment::new(u64::from(from / 2), u64::from(from % 2), 2),
        to: Moment::new(u64::from(to / 2), u64::from(to % 2), 2),
        work: Amount::from_whole(1),
    }
}

/// Slots from 0+1/2 to 1, to 1+1/2, to 3 and to 3+1/2, each of a job of its own.
fn four_in_order(alloc: Global) -> Result<Schedule, Fail>
    ensures { IfOk result (λ schedule. RunInOrder schedule.slots) }
{
    let mut schedule = Schedule::new(alloc, 4)?;
    schedule.push(in_halves(0, 1, 2))?;
    schedule.push(in_halves(1, 2, 3))?;
    schedule.push(in_halves(2, 3, 6))?;
    schedule.push(in_halves(3, 6, 7))?;
    Ok(schedule)
}

/// The jobs of the slots, in their order.
fn jobs_of(alloc: Global, slots: &[Slot]) -> Result<Vec<u32>, Fail> {
    let mut jobs = Vec::new(alloc);
    for slot in slots {
        jobs.push(slot.job)?;
    }
    Ok(jobs)
}

#[test]
fn works_of_a_job_in_thirds(rt: HostRuntime) -> Result<(), Fail> {
    let half = Moment::new(0, 1, 2);
    let mut schedule = Schedule::new(rt.alloc(), 1)?;
    schedule.push(Slot {
        job: 0,
        from: Moment::from_whole(0),
        to: half,
        work: Amount::new(0, 2, 3),
    })?;
    schedule.push(Slot {
        job: 0,
        from: half,
        to: Moment::from_whole(4),
        work: Amount::from_whole(1),
    })?;
    schedule.widen(2);
    assert_eq!(rt; schedule.slots().len(), 2);
    assert_eq!(rt; (schedule.grain(0), schedule.grain(1)), (3, 1));
    assert!(rt; schedule.given(0) == Amount::new(1, 2, 3));
    assert!(rt; schedule.given(1) == Amount::from_whole(0));
    Ok(())
}

#[test]
fn no_slots(rt: HostRuntime) -> Result<(), Fail> {
    let sorted = Schedule::sorted(rt.alloc(), 3, Vec::new(rt.alloc()))?;
    assert!(rt; sorted.slots().is_empty());
    let none = Schedule::new(rt.alloc(), 3)?;
    assert!(rt; none.between(0, 4).is_empty());
    Ok(())
}

/// Two slots begin at 1+1/2, and stay in their order.
#[test]
fn sorted_by_start(rt: HostRuntime) -> Result<(), Fail> {
    let mut slots = Vec::new(rt.alloc());
    slots.push(in_halves(1, 3, 4))?;
    slots.push(in_halves(3, 2, 3))?;
    slots.push(in_halves(2, 3, 5))?;
    slots.push(in_halves(0, 0, 2))?;
    let sorted = Schedule::sorted(rt.alloc(), 4, slots)?;
    let jobs = jobs_of(rt.alloc(), sorted.slots())?;
    assert_eq!(rt; jobs.as_slice(), [0, 3, 1, 2].as_slice());
    Ok(())
}

/// From 1 to 3 the first slot begins too early, and the last one ends too late.
#[test]
fn between_whole_times(rt: HostRuntime) -> Result<(), Fail> {
    let schedule = four_in_order(rt.alloc())?;
    let jobs = jobs_of(rt.alloc(), schedule.between(1, 3))?;
    assert_eq!(rt; jobs.as_slice(), [1, 2].as_slice());
    let late = jobs_of(rt.alloc(), schedule.between(2, 4))?;
    assert_eq!(rt; late.as_slice(), [3].as_slice());
    assert_eq!(rt; schedule.between(0, 4).len(), 4);
    Ok(())
}

//! Tests of `yds_round`.
use std::test::Fail;
use yds_fraction::Amount;
use yds_model::JobRow;
use yds_model::limits::MAX_JOBS;
use yds_plan::plan;
use yds_round::{RoundFault, round};
use yds_table::{Point, Table};

/// Of two jobs from 0 to 3 with works 2 and 5 the first runs at the speed 4 until 1/2, and the second at 2.
#[test]
fn two_jobs_with_a_switch(rt: HostRuntime) -> Result<(), Fail> {
    let rows = [JobRow::new(0, 3, 2), JobRow::new(0, 3, 5)];
    let mut table = Table::new(rt.alloc(), Point::new(0, 0))?;
    table.push(Point::new(2, 1))?;
    table.push(Point::new(4, 3))?;
    let rounded = round(rt.alloc(), &rows, &plan(rt.alloc(), &rows)?, &table)?;
    let slots = rounded.schedule.slots();
    assert_eq!(rt; slots.len(), 2);
    let first = &slots[0];
    let second = &slots[1];
    assert_eq!(rt; (first.job, second.job), (0, 1));
    assert_eq!(rt; first.to, Amount::new(0, 6, 12));
    assert_eq!(rt; second.from, Amount::new(0, 3, 6));
    assert_eq!(rt; rounded.energy, Amount::from_whole(4));
    Ok(())
}

/// A job of work 8 in 2 time units is too fast for the top speed 3.
#[test]
fn a_top_that_is_too_slow(rt: HostRuntime) -> Result<(), Fail> {
    let rows = [JobRow::new(0, 2, 8)];
    let mut table = Table::new(rt.alloc(), Point::new(0, 0))?;
    table.push(Point::new(3, 1))?;
    let refused = round(rt.alloc(), &rows, &plan(rt.alloc(), &rows)?, &table).err();
    let fault = RoundFault::TooSlow {
        work: 8,
        length: 2,
        top: 3,
    };
    assert_eq!(rt; refused, Some(fault));
    Ok(())
}

/// As many levels as a document's jobs have at most: with ample memory their plan is rounded. Below the speed 2 a job takes one slot and
/// the energy of half its work, and above it, below 4, two slots and its work less 1,000.
#[test]
fn four_thousand_levels_are_rounded(rt: HostRuntime) -> Result<(), Fail> {
    let mut rows = Vec::new(rt.alloc());
    for job in 0..4_000 {
        rows.push(JobRow::new(1_000 * job, 1_000 * job + 1_000, job + 1))?;
    }
    assert!(rt; rows.len() <= MAX_JOBS);
    let mut table = Table::new(rt.alloc(), Point::new(0, 0))?;
    table.push(Point::new(2, 1))?;
    table.push(Point::new(4, 3))?;
    let planned = plan(rt.alloc(), &rows)?;
    assert_eq!(rt; planned.certificate.levels().len(), 4_000);
    let rounded = round(rt.alloc(), &rows, &planned, &table)?;
    assert_eq!(rt; rounded.schedule.slots().len(), 5_999);
    assert_eq!(rt; rounded.energy, Amount::from_whole(5_001_500));
    Ok(())
}

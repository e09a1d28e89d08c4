//! Tests of `yds_edf`.
use std::test::Fail;
use yds_edf::{Queue, fill, lay};
use yds_events::Stretch;
use yds_fraction::Moment;
use yds_model::JobRow;

/// Optimal Available on the grid 6, jobs a 0 3 2 and b 1 2 1: it serves 4 units from 0 to 1, and 7 from 1 to 2.
#[test]
fn queue_serves_and_lays(rt: HostRuntime) -> Result<(), Fail> {
    let rows = [JobRow::new(0, 3, 2), JobRow::new(1, 2, 1)];
    let mut queue = Queue::new(rt.alloc(), &rows, 6)?;
    queue.arrive(0);
    assert_eq!(rt; queue.pending(), 12);
    queue.serve(0, 4)?;
    queue.arrive(1);
    assert_eq!(rt; (queue.due(2), queue.due(3)), (6, 14));
    let shares = queue.serve(1, 7)?;
    assert_eq!(rt; queue.served(), [5, 6].as_slice());
    let slots = lay(rt.alloc(), Stretch::new(1, 2), 7, 6, &shares)?;
    assert_eq!(rt; slots.len(), 2);
    let last = &slots[1];
    assert_eq!(rt; last.job, 0);
    assert_eq!(rt;
        (last.from, last.work),
        (Moment::new(1, 6, 7), Moment::new(0, 1, 6))
    );
    Ok(())
}

/// The plan of jobs a 0 3 2 and b 0 3 5: one level of speed 7/3, so units of a third and a capacity of 21.
#[test]
fn fills_a_level(rt: HostRuntime) -> Result<(), Fail> {
    let rows = [JobRow::new(0, 3, 2), JobRow::new(0, 3, 5)];
    let shares = fill(rt.alloc(), &rows, &[0, 1], 3, &[Stretch::new(0, 3)], &[21])?;
    assert_eq!(rt; shares.len(), 2);
    let last = &shares[1];
    assert_eq!(rt; (last.stretch, last.job, last.units), (0, 1, 15));
    Ok(())
}

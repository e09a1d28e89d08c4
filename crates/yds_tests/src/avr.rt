//! Tests of `yds_avr`.
use std::test::Fail;
use yds_avr::avr;
use yds_fraction::{Amount, Moment};
use yds_model::JobRow;

/// Jobs a 0 3 2 and b 1 3 2 on the grid 1: the part 2/3 is rounded up to 1, and then 4/3 to 2, of which 1 is pending.
#[test]
fn rounds_and_is_capped(rt: HostRuntime) -> Result<(), Fail> {
    let rows = [JobRow::new(0, 3, 2), JobRow::new(1, 3, 2)];
    let run = avr(rt.alloc(), &rows, 1)?;
    assert_eq!(rt; run.rounded, 2);
    let slots = run.schedule.slots();
    assert_eq!(rt; slots.len(), 3);
    let last = &slots[2];
    assert_eq!(rt;
        (last.job, last.from, last.work),
        (1, Moment::new(1, 2, 3), Amount::from_whole(2))
    );
    Ok(())
}

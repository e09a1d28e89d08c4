//! Tests of `yds_oa`.
use std::test::Fail;
use yds_fraction::{Amount, Moment};
use yds_model::JobRow;
use yds_oa::oa;

/// Jobs a 0 3 2 and b 1 2 1: on the grid 6 no quotient is rounded, and on the grid 1 that at 0 is.
#[test]
fn on_two_grids(rt: HostRuntime) -> Result<(), Fail> {
    let rows = [JobRow::new(0, 3, 2), JobRow::new(1, 2, 1)];
    let fine = oa(rt.alloc(), &rows, 6)?;
    assert_eq!(rt; (fine.rounded, fine.schedule.slots().len()), (0, 4));
    let slots = fine.schedule.slots();
    let third = &slots[2];
    assert_eq!(rt;
        (third.job, third.from, third.work),
        (0, Moment::new(1, 6, 7), Amount::new(0, 1, 6))
    );
    let coarse = oa(rt.alloc(), &rows, 1)?;
    assert_eq!(rt; (coarse.rounded, coarse.schedule.slots().len()), (1, 3));
    Ok(())
}

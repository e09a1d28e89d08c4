//! Tests of `yds_intensity`.
use std::test::Fail;
use yds_intensity::{Sum, order, sums, sweep};
use yds_model::JobRow;

/// Three jobs, of which the first has the latest deadline and the others share one.
#[test]
fn sums_from_two_starts(rt: HostRuntime) -> Result<(), Fail> {
    let rows = [
        JobRow::new(0, 9, 1),
        JobRow::new(0, 4, 1),
        JobRow::new(2, 4, 1),
    ];
    let by_deadline = order(rt.alloc(), &rows)?;
    assert_eq!(rt; by_deadline.as_slice(), [1, 2, 0].as_slice());
    let from_zero = sweep(rt.alloc(), &rows, &by_deadline, 0)?;
    assert_eq!(rt;
        from_zero.as_slice(),
        [Sum { end: 4, work: 2 }, Sum { end: 9, work: 3 }].as_slice()
    );
    let from_two = sums(rt.alloc(), &rows, 2)?;
    assert_eq!(rt;
        from_two.as_slice(),
        [Sum { end: 4, work: 1 }, Sum { end: 9, work: 1 }].as_slice()
    );
    Ok(())
}

//! Tests of `yds_critical`.
use std::test::Fail;
use yds_critical::{Interval, critical};
use yds_model::JobRow;

/// The first has no jobs. In the second c is the densest. In the third two intervals of one speed begin together; the
/// longer one is told.
#[test]
fn densest_interval(rt: HostRuntime) -> Result<(), Fail> {
    assert_eq!(rt; critical(rt.alloc(), &[])?, None);
    let nested = [
        JobRow::new(0, 12, 4),
        JobRow::new(2, 10, 8),
        JobRow::new(4, 6, 6),
    ];
    let one = Interval {
        start: 4,
        end: 6,
        work: 6,
    };
    assert_eq!(rt; critical(rt.alloc(), &nested)?, Some(one));
    let chained = [
        JobRow::new(5, 7, 4),
        JobRow::new(0, 2, 4),
        JobRow::new(2, 4, 4),
    ];
    let both = Interval {
        start: 0,
        end: 4,
        work: 8,
    };
    assert_eq!(rt; critical(rt.alloc(), &chained)?, Some(both));
    Ok(())
}

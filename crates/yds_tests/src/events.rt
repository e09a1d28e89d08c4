//! Tests of `yds_events`.
use std::test::Fail;
use yds_events::{Timeline, events, stretches};
use yds_model::JobRow;

/// Jobs from 4 to 6, from 0 to 12 and from 2 to 6 cut the time from 0 to 12 at 2, 4 and 6.
#[test]
fn three_jobs_cut_time(rt: HostRuntime) -> Result<(), Fail> {
    let rows = [
        JobRow::new(4, 6, 6),
        JobRow::new(0, 12, 4),
        JobRow::new(2, 6, 8),
    ];
    let times = events(rt.alloc(), &rows)?;
    assert_eq!(rt; times.as_slice(), [0, 2, 4, 6, 12].as_slice());
    let cut = stretches(rt.alloc(), &rows)?;
    assert_eq!(rt; cut.len(), 4);
    assert_eq!(rt; (cut[3].from, cut[3].to, cut[3].length()), (6, 12, 6));
    let timeline = Timeline::new(rt.alloc(), &rows)?;
    assert_eq!(rt; timeline.stretches.as_slice(), cut.as_slice());
    assert_eq!(rt; timeline.windows.len(), 3);
    assert_eq!(rt;
        (timeline.windows[0].first, timeline.windows[0].end),
        (2, 3)
    );
    assert_eq!(rt;
        (timeline.windows[1].first, timeline.windows[1].end),
        (0, 4)
    );
    assert_eq!(rt; timeline.order.as_slice(), [0, 2, 1].as_slice());
    Ok(())
}

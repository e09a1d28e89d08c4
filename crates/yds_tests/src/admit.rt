//! Tests of `yds_admit`.
use std::test::Fail;
use yds_admit::{Refusal, admit};
use yds_fraction::{Amount, Moment};
use yds_model::JobRow;

/// Under the top speed 2 jobs a 0 4 4 and b 0 2 4 take all of the time from 0 to 4, so c 1 3 1 is refused.
#[test]
fn the_third_job_is_refused(rt: HostRuntime) -> Result<(), Fail> {
    let rows = [
        JobRow::new(0, 4, 4),
        JobRow::new(0, 2, 4),
        JobRow::new(1, 3, 1),
    ];
    let admission = admit(rt.alloc(), &rows, 2)?;
    assert_eq!(rt; admission.taken.as_slice(), [0, 1].as_slice());
    let refusal = Refusal {
        job: 2,
        from: 0,
        to: 4,
        work: 9,
    };
    assert_eq!(rt; admission.refused.as_slice(), [refusal].as_slice());
    let slots = admission.schedule.slots();
    assert_eq!(rt; slots.len(), 2);
    let last = &slots[1];
    assert_eq!(rt;
        (last.job, last.from, last.work),
        (0, Moment::from_whole(2), Amount::from_whole(4))
    );
    Ok(())
}

/// With ample memory the room that was cut before the first two jobs is cut anew for the third: under the top speed 1 it fits too.
#[test]
fn a_job_after_the_room_was_cut(rt: HostRuntime) -> Result<(), Fail> {
    let rows = [
        JobRow::new(4, 10, 5),
        JobRow::new(1, 7, 2),
        JobRow::new(7, 15, 6),
    ];
    let admission = admit(rt.alloc(), &rows, 1)?;
    assert_eq!(rt; admission.taken.as_slice(), [0, 1, 2].as_slice());
    Ok(())
}

ghost use Rattle.std.specs.Prelude.{◌≡◌, ◌≤◌};

use super::*;
use std::test::Fail;
use yds_events::Stretch;
use yds_fraction::{Amount, Moment};

/// Optimal Available on the grid 6 serves 7 units from 1 to 2: 6 of the job 1, and 1 of the job 0. Before that it is idle here.
#[test]
fn lays_a_stretch(rt: HostRuntime) -> Result<(), Fail> {
    let mut timetable = Timetable::new(rt.alloc());
    timetable.push(Stretch::new(0, 1), None, &[])?;
    let stretch = Stretch::new(1, 2);
    let shares = [
        Share {
            stretch: 1,
            job: 1,
            units: 6,
        },
        Share {
            stretch: 1,
            job: 0,
            units: 1,
        },
    ];
    let pace = Pace {
        units: 7,
        time: 1,
        grain: 6,
    };
    assert!(rt; Pace::filling(7, stretch, 6) == Some(pace));
    timetable.push(stretch, Some(pace), &shares)?;
    assert_eq!(rt; timetable.len(), 2);
    assert_eq!(rt; (timetable.units(0), timetable.units(1)), (0, 7));
    assert_eq!(rt; timetable.stretch(1), stretch);
    let schedule = lay(rt.alloc(), 2, &timetable)?;
    let slots = schedule.slots();
    assert_eq!(rt; slots.len(), 2);
    let last = &slots[1];
    assert_eq!(rt; last.job, 0);
    assert_eq!(rt;
        (last.from, last.work),
        (Moment::new(1, 6, 7), Amount::new(0, 1, 6))
    );
    Ok(())
}

/// Three shares out of order: the stretch from 2 to 4 has two of them, which stay as they stand, the one from 0 to 1 has one, and the one
/// from 1 to 2 is idle.
#[test]
fn sorts_shares(rt: HostRuntime) -> Result<(), Fail> {
    let timeline = [Stretch::new(0, 1), Stretch::new(1, 2), Stretch::new(2, 4)];
    let paces = [pace(2), pace(3)];
    let shares = [share(2, 0, 2), share(0, 1, 3), share(2, 1, 2)];
    let timetable = Timetable::of_shares(rt.alloc(), &timeline, &paces, &[1, 7, 0], &shares)?;
    assert_eq!(rt; timetable.len(), 3);
    assert!(rt; timetable.pace(0) == Some(pace(3)));
    assert!(rt; timetable.pace(1).is_none());
    assert!(rt; timetable.pace(2) == Some(pace(2)));
    assert_eq!(rt; timetable.shares(0), [share(0, 1, 3)].as_slice());
    assert!(rt; timetable.shares(1).is_empty());
    assert_eq!(rt;
        timetable.shares(2),
        [share(2, 0, 2), share(2, 1, 2)].as_slice()
    );
    assert_eq!(rt; timetable.stretch(2), Stretch::new(2, 4));
    Ok(())
}

/// So many units of one part of a unit of work in a time unit.
fn pace(units: u64) -> Pace
    ensures { result ≡ record { units = units; time = 1; grain = 1 } }
{
    Pace {
        units,
        time: 1,
        grain: 1,
    }
}

fn share(stretch: u32, job: u32, units: u64) -> Share
    requires { 1 ≤ units }
    ensures { result ≡ record { stretch = stretch; job = job; units = units } }
{
    Share {
        stretch,
        job,
        units,
    }
}

//! Tests of `yds_textbook`.
ghost use Rattle.std.specs.Prelude.{◌<◌};
ghost use Rattle.yds_model.specs.Job.{IsJob};

use std::alloc::Global;
use std::process::Abort;
use std::test::Fail;
use yds_events::stretches;
use yds_model::JobRow;
use yds_model::limits::MAX_JOBS;
use yds_plan::plan;
use yds_search::Group;
use yds_textbook::{stages, textbook};
use yds_timetable::Share;

fn row(release: u32, deadline: u32, work: u32) -> JobRow
    requires { IsJob (record { release = release; deadline = deadline; work = work }) }
{
    JobRow::new(release, deadline, work)
}

/// The next number below 65,536 of a linear congruential generator.
fn draw(state: &mut u32) -> u32
    ensures { result < 65536 }
{
    *state = state.wrapping_mul(1_664_525).wrapping_add(1_013_904_223);
    *state / 65_536
}

/// Both ways find the same slots, to the last fraction, the same levels with their pieces and members, and each stretch at the same.
fn compare(rt: &impl Abort, alloc: Global, rows: &[JobRow]) -> Result<(), Fail> {
    assert!(rt; rows.len() <= MAX_JOBS);
    let told = textbook(alloc, rows)?;
    let planned = plan(alloc, rows)?;
    assert_eq!(rt; told.schedule.slots(), planned.schedule.slots());
    assert_eq!(rt;
        told.level_of_stretch.as_slice(),
        planned.level_of_stretch.as_slice()
    );
    let own = told.certificate.levels();
    let levels = planned.certificate.levels();
    assert_eq!(rt; own.len(), levels.len());
    for (place, level) in levels.iter().enumerate() {
        assert!(rt; place < own.len());
        let own_level = &own[place];
        assert_eq!(rt;
            (own_level.work, own_level.length),
            (level.work, level.length)
        );
        assert_eq!(rt; own_level.pieces.as_slice(), level.pieces.as_slice());
        assert_eq!(rt; own_level.members.as_slice(), level.members.as_slice());
    }
    Ok(())
}

/// 4 to 6 is critical, with c's work of 6. Without it b has a work of 8 in 6 units of time, and then a a work of 4 in 4.
#[test]
fn stages_of_three_jobs(rt: HostRuntime) -> Result<(), Fail> {
    let alloc = rt.alloc();
    let rows = [row(0, 12, 4), row(2, 10, 8), row(4, 6, 6)];
    let timeline = stretches(alloc, &rows)?;
    let stages = stages(alloc, &rows, &timeline)?;
    assert_eq!(rt; stages.len(), 3);
    assert!(rt; stages.len() == 3);
    assert_eq!(rt; stages[0].group, Group { work: 6, length: 2 });
    assert_eq!(rt; stages[0].members.as_slice(), [2].as_slice());
    assert_eq!(rt; stages[0].stretches.as_slice(), [2].as_slice());
    let c = Share {
        job: 2,
        stretch: 2,
        units: 6,
    };
    assert_eq!(rt; stages[0].shares.as_slice(), [c].as_slice());
    assert_eq!(rt; stages[1].group, Group { work: 8, length: 6 });
    assert_eq!(rt; stages[1].stretches.as_slice(), [1, 3].as_slice());
    let before = Share {
        job: 1,
        stretch: 1,
        units: 8,
    };
    let after = Share {
        job: 1,
        stretch: 3,
        units: 16,
    };
    assert_eq!(rt; stages[1].shares.as_slice(), [before, after].as_slice());
    assert_eq!(rt; stages[2].group, Group { work: 4, length: 4 });
    assert_eq!(rt; stages[2].stretches.as_slice(), [0, 4].as_slice());
    Ok(())
}

/// No jobs; one; equal deadlines; nested; equal speeds that touch, and apart; jobs of no work; a chain of stretches that are
/// removed and then joined.
#[test]
fn two_ways_find_the_same_plan(rt: HostRuntime) -> Result<(), Fail> {
    let alloc = rt.alloc();
    let none: [JobRow; 0] = [];
    compare(&rt, alloc, &none)?;
    compare(&rt, alloc, &[row(0, 4, 8)])?;
    compare(&rt, alloc, &[row(0, 3, 2), row(1, 3, 2)])?;
    compare(&rt, alloc, &[row(0, 10, 10), row(4, 6, 6)])?;
    compare(&rt, alloc, &[row(0, 12, 4), row(2, 10, 8), row(4, 6, 6)])?;
    compare(&rt, alloc, &[row(0, 2, 4), row(2, 4, 4)])?;
    compare(&rt, alloc, &[row(0, 2, 4), row(5, 7, 4)])?;
    compare(&rt, alloc, &[row(0, 4, 4), row(2, 6, 0), row(1, 3, 0)])?;
    compare(
        &rt,
        alloc,
        &[
            row(0, 2, 5),
            row(2, 4, 4),
            row(4, 6, 3),
            row(1, 5, 2),
            row(0, 6, 1),
        ],
    )
}

/// Drawn by a generator as that of a trial, in windows that overlap much and little.
#[test]
fn two_ways_agree_on_drawn_jobs(rt: HostRuntime) -> Result<(), Fail> {
    let alloc = rt.alloc();
    for seed in 0..4 {
        let mut rows = Vec::new(alloc);
        let mut state = seed;
        for _ in 0..40 {
            let release = draw(&mut state) % 50;
            let length = draw(&mut state) % 20;
            let work = draw(&mut state) % 9;
            rows.push(row(release, release + 1 + length, work))?;
        }
        compare(&rt, alloc, &rows)?;
    }
    Ok(())
}

/// As many jobs as a document holds: with ample memory there is a plan, and each job with work is a member of one level.
#[test]
fn four_thousand_jobs_are_planned(rt: HostRuntime) -> Result<(), Fail> {
    let alloc = rt.alloc();
    let mut rows = Vec::new(alloc);
    let mut state = 7;
    for _ in 0..MAX_JOBS {
        let release = draw(&mut state);
        let length = draw(&mut state) % 2_000;
        rows.push(row(release, release + 1 + length, 1 + draw(&mut state) % 9))?;
    }
    assert!(rt; rows.len() <= MAX_JOBS);
    let planned = plan(alloc, &rows)?;
    let mut members: usize = 0;
    for level in planned.certificate.levels() {
        members = members.saturating_add(level.members.len());
    }
    assert_eq!(rt; members, 4_000);
    Ok(())
}

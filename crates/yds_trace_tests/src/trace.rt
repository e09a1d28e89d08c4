//! What no clause says: that a pass over small traces ends, and what its jobs and faults then are.

use std::alloc::{AllocError, Global};
use std::test::Fail;
use yds_kernel::{Event, Happening, Said, Since, State, Thread};
use yds_trace::{
    Asked, Cause, Cut, End, Ended, Kept, MAX_TOUCHES, NO_CUT, Pass, Refused, Start, Stretch, Task,
    Which, has_run_on,
};

fn thread(name: &[u8], pid: u64) -> Thread<'_> {
    Thread { name, pid }
}

fn line<'a>(processor: u64, time: u64, happening: Happening<'a>) -> Said<'a> {
    Said::Event(Event {
        processor,
        time,
        happening,
    })
}

fn woken(time: u64) -> Said<'static> {
    line(
        3,
        time,
        Happening::WakeUp {
            thread: thread(b"decode", 7),
            starts: true,
        },
    )
}

fn comes(processor: u64, time: u64) -> Said<'static> {
    line(
        processor,
        time,
        Happening::Switch {
            previous: thread(b"swapper", 0),
            state: State::GoesOn,
            next: thread(b"decode", 7),
        },
    )
}

fn leaves(processor: u64, time: u64, state: State) -> Said<'static> {
    line(
        processor,
        time,
        Happening::Switch {
            previous: thread(b"decode", 7),
            state,
            next: thread(b"swapper", 0),
        },
    )
}

fn marker(processor: u64, time: u64) -> Said<'static> {
    line(processor, time, Happening::Marker)
}

/// The jobs of `decode` on processor 0, each due 16 milliseconds after its begin.
fn asked(alloc: Global) -> Result<Asked, AllocError> {
    let mut tasks = Vec::new(alloc);
    tasks.push(Task {
        label: b"decode".to_vec(alloc)?,
        thread: Which::Named(b"decode".to_vec(alloc)?),
        deadline: 16_000_000,
        apart: 0,
        period: 0,
    })?;
    Ok(Asked {
        tasks,
        processor: 0,
        unit: 10_000,
        khz: 10_000,
        start: Start::Same(600_000),
        from: None,
        to: None,
        begin_at_run: false,
        cut_losses: false,
        in_parts: false,
        everywhere: false,
        moved_parts: false,
        others: None,
    })
}

fn ended(alloc: Global, asked: Asked, lines: &[Said<'_>]) -> Result<Ended, Refused> {
    let mut pass = Pass::new(alloc, asked)?;
    for said in lines {
        pass.take(alloc, *said)?;
    }
    pass.end(alloc)
}

fn cause(alloc: Global, asked: Asked, lines: &[Said<'_>]) -> Option<Cause> {
    match ended(alloc, asked, lines) {
        Err(Refused::Fault(cause)) => Some(cause),
        Err(Refused::Memory) | Ok(_) => None,
    }
}

fn stretch(processor: u64, from: u64, to: u64, khz: u64) -> Stretch {
    Stretch {
        processor,
        from,
        to,
        khz: Some(khz),
    }
}

#[test]
fn ten_lines_are_two_jobs(rt: HostRuntime) -> Result<(), Fail> {
    let speed = Happening::Speed {
        processor: 0,
        khz: 800_000,
    };
    let lines = [
        marker(0, 1_000),
        woken(10_000),
        comes(0, 12_000),
        line(2, 20_000, speed),
        leaves(0, 30_000, State::GoesOn),
        comes(0, 35_000),
        leaves(0, 40_000, State::Sleeps),
        Said::Nothing,
        woken(110_000),
        comes(1, 112_000),
    ];
    let ended = ended(rt.alloc(), asked(rt.alloc())?, &lines)?;
    assert_eq!(rt; ended.first, 1_000);
    assert_eq!(rt; ended.last, 112_000);
    assert_eq!(rt; ended.jobs.len(), 1);
    let jobs = &ended.jobs[0];
    assert_eq!(rt; jobs.len(), 2);
    let (first, second) = (&jobs[0], &jobs[1]);
    assert_eq!(rt; first.begin, 10_000);
    assert!(rt; first.begin_known);
    assert_eq!(rt; first.end, End::Ended(40_000));
    let ran = [
        stretch(0, 12_000, 20_000, 600_000),
        stretch(0, 20_000, 30_000, 800_000),
        stretch(0, 35_000, 40_000, 800_000),
    ];
    assert_eq!(rt; first.stretches.as_slice(), ran.as_slice());
    assert_eq!(rt; second.begin, 110_000);
    assert_eq!(rt; second.end, End::Open);
    assert_eq!(rt;
        second.stretches.as_slice(),
        [stretch(1, 112_000, 112_000, 600_000)].as_slice()
    );
    Ok(())
}

#[test]
fn a_task_that_hangs_is_seen(rt: HostRuntime) -> Result<(), Fail> {
    let mut asked = asked(rt.alloc())?;
    asked.to = Some(30_000_000);
    asked.begin_at_run = true;
    let lines = [marker(0, 1_000), leaves(0, 40_000_000, State::Sleeps)];
    let ended = ended(rt.alloc(), asked, &lines)?;
    assert_eq!(rt; ended.jobs.len(), 1);
    let jobs = &ended.jobs[0];
    assert_eq!(rt; jobs.len(), 1);
    assert_eq!(rt; jobs[0].begin, 1_000);
    assert!(rt; !jobs[0].begin_known);
    assert_eq!(rt; jobs[0].end, End::Open);
    Ok(())
}

#[test]
fn each_fault_of_a_line_is_told(rt: HostRuntime) -> Result<(), Fail> {
    let alloc = rt.alloc();
    let cases = [
        ([woken(10), marker(8_192, 20)], Cause::ProcessorTooGreat),
        ([woken(10), marker(0, 1 << 63)], Cause::TimeTooGreat),
        ([woken(10), marker(0, 9)], Cause::TimeGoesBack),
        ([woken(10), line(3, 20, Happening::Loss)], Cause::EventsLost),
        ([comes(0, 10), comes(1, 20)], Cause::LineMissing),
        (
            [woken(10), leaves(0, 20, State::Unknown)],
            Cause::UnknownState,
        ),
        (
            [
                woken(10),
                line(
                    0,
                    20,
                    Happening::WakeUp {
                        thread: thread(b"decode", 8),
                        starts: true,
                    },
                ),
            ],
            Cause::TwoThreads,
        ),
    ];
    for (lines, expected) in &cases {
        assert_eq!(rt; cause(alloc, asked(alloc)?, lines), Some(*expected));
    }
    let mut twice = asked(alloc)?;
    twice.tasks.push(Task {
        label: b"seven".to_vec(alloc)?,
        thread: Which::Numbered(7),
        deadline: 16_000_000,
        apart: 0,
        period: 0,
    })?;
    assert_eq!(rt; cause(alloc, twice, &[woken(10)]), Some(Cause::TwoTasks));
    let mut fixed = asked(alloc)?;
    fixed.start = Start::Fixed(600_000);
    let other = Happening::Speed {
        processor: 0,
        khz: 600_001,
    };
    assert_eq!(rt;
        cause(alloc, fixed, &[woken(10), line(2, 20, other)]),
        Some(Cause::SpeedChanged)
    );
    let mut pass = Pass::new(alloc, asked(alloc)?)?;
    for time in 0..MAX_TOUCHES {
        pass.take(alloc, woken(time))?;
    }
    let more = pass.take(alloc, woken(MAX_TOUCHES));
    assert_eq!(rt; more, Err(Refused::Fault(Cause::TooLong)));
    Ok(())
}

#[test]
fn each_fault_of_a_whole_trace_is_told(rt: HostRuntime) -> Result<(), Fail> {
    let alloc = rt.alloc();
    let lost = Said::Lost {
        processor: 0,
        since: Since::ItsLastLine,
    };
    assert_eq!(rt;
        cause(alloc, asked(alloc)?, &[Said::Nothing]),
        Some(Cause::NoLine)
    );
    assert_eq!(rt;
        cause(alloc, asked(alloc)?, &[woken(10), lost]),
        Some(Cause::EventsLost)
    );
    assert_eq!(rt;
        cause(alloc, asked(alloc)?, &[marker(0, 10)]),
        Some(Cause::Unseen(0))
    );
    Ok(())
}

fn pass_over(alloc: Global, asked: Asked, lines: &[Said<'_>]) -> Result<Pass, Refused> {
    let mut pass = Pass::new(alloc, asked)?;
    for said in lines {
        pass.take(alloc, *said)?;
    }
    Ok(pass)
}

fn lost(processor: u64) -> Said<'static> {
    Said::Lost {
        processor,
        since: Since::ItsLastLine,
    }
}

#[test]
fn what_is_written_is_forgotten(rt: HostRuntime) -> Result<(), Fail> {
    let alloc = rt.alloc();
    let mut asked = asked(alloc)?;
    asked.in_parts = true;
    let lines = [
        woken(10_000),
        comes(0, 12_000),
        leaves(0, 40_000, State::Sleeps),
        woken(110_000),
        comes(0, 112_000),
        leaves(0, 140_000, State::Sleeps),
        woken(210_000),
        comes(1, 212_000),
        marker(2, 215_000),
    ];
    let mut pass = pass_over(alloc, asked, &lines)?;
    assert!(rt; pass.asked().in_parts);
    let all = Kept {
        jobs: 3,
        stretches: 3,
        others: 0,
    };
    assert_eq!(rt; pass.kept(), all);
    let whole = pass.shown(alloc)?;
    assert_eq!(rt; whole.first, 10_000);
    assert_eq!(rt; whole.last, 215_000);
    assert_eq!(rt; whole.tasks.len(), 1);
    let task = &whole.tasks[0];
    assert_eq!(rt; task.forgotten, 0);
    assert_eq!(rt; task.jobs.len(), 3);
    pass.forget(200_000);
    let one = Kept {
        jobs: 1,
        stretches: 1,
        others: 0,
    };
    assert_eq!(rt; pass.kept(), one);
    let rest = pass.shown(alloc)?;
    assert_eq!(rt; rest.tasks.len(), 1);
    let task = &rest.tasks[0];
    assert_eq!(rt; task.forgotten, 2);
    assert!(rt; !task.before);
    assert_eq!(rt; task.jobs.len(), 1);
    let job = &task.jobs[0];
    assert_eq!(rt; job.begin, 210_000);
    assert_eq!(rt;
        job.stretches.as_slice(),
        [stretch(1, 212_000, 215_000, 600_000)].as_slice()
    );
    pass.forget(300_000);
    assert_eq!(rt; pass.kept(), one);
    pass.take(alloc, leaves(1, 230_000, State::Sleeps))?;
    let ended = pass.shown(alloc)?;
    assert_eq!(rt; ended.tasks.len(), 1);
    let task = &ended.tasks[0];
    assert_eq!(rt; task.forgotten, 2);
    assert_eq!(rt; task.jobs.len(), 1);
    let job = &task.jobs[0];
    assert_eq!(rt; job.end, End::Ended(230_000));
    Ok(())
}

#[test]
fn the_first_job_of_all_is_remembered(rt: HostRuntime) -> Result<(), Fail> {
    let alloc = rt.alloc();
    let lines = [
        marker(0, 1_000),
        leaves(0, 40_000, State::Sleeps),
        woken(110_000),
        comes(0, 112_000),
        leaves(0, 140_000, State::Sleeps),
        woken(210_000),
    ];
    let mut pass = pass_over(alloc, asked(alloc)?, &lines)?;
    pass.forget(110_000);
    pass.forget(200_000);
    let shown = pass.shown(alloc)?;
    assert_eq!(rt; shown.tasks.len(), 1);
    let task = &shown.tasks[0];
    assert_eq!(rt; task.forgotten, 2);
    assert!(rt; task.before);
    Ok(())
}

#[test]
fn a_line_that_changes_parts_is_refused(rt: HostRuntime) -> Result<(), Fail> {
    let alloc = rt.alloc();
    let lines = [woken(10_000), comes(0, 12_000), marker(1, 50_000)];
    let pass = pass_over(alloc, asked(alloc)?, &lines)?;
    let cut = Cut {
        boundary: 40_000,
        decided: 50_000,
        parts: 1,
        jobs: 1,
        due: 0,
    };
    let written = Err(Cause::PartWritten);
    assert_eq!(rt; pass.check_parts(&lost(0), cut), written);
    assert_eq!(rt;
        pass.check_parts(&line(0, 60_000, Happening::Loss), cut),
        written
    );
    assert_eq!(rt;
        pass.check_parts(&leaves(5, 60_000, State::Sleeps), cut),
        written
    );
    assert_eq!(rt; pass.check_parts(&comes(5, 60_000), cut), written);
    assert_eq!(rt; pass.check_parts(&lost(1), cut), Ok(()));
    assert_eq!(rt;
        pass.check_parts(&leaves(0, 60_000, State::Sleeps), cut),
        Ok(())
    );
    assert_eq!(rt; pass.check_parts(&lost(0), NO_CUT), Ok(()));
    assert_eq!(rt; pass.check_parts(&comes(5, 60_000), NO_CUT), Ok(()));
    Ok(())
}

#[test]
fn another_processor_has_the_same_jobs(rt: HostRuntime) -> Result<(), Fail> {
    let alloc = rt.alloc();
    let lines = [
        woken(10_000),
        comes(1, 12_000),
        leaves(1, 40_000, State::Sleeps),
    ];
    let mut pass = pass_over(alloc, asked(alloc)?, &lines)?;
    pass.turn_to(1);
    assert_eq!(rt; pass.asked().processor, 1);
    let shown = pass.shown(alloc)?;
    assert_eq!(rt; shown.tasks.len(), 1);
    let task = &shown.tasks[0];
    assert_eq!(rt; task.jobs.len(), 1);
    let job = &task.jobs[0];
    assert_eq!(rt; job.end, End::Ended(40_000));
    Ok(())
}

#[test]
fn each_processor_has_its_share_of_a_job(rt: HostRuntime) -> Result<(), Fail> {
    let alloc = rt.alloc();
    let lines = [
        woken(10_000),
        comes(0, 12_000),
        leaves(0, 20_000, State::GoesOn),
        comes(1, 25_000),
        leaves(1, 40_000, State::Sleeps),
        woken(110_000),
        comes(0, 112_000),
        leaves(0, 120_000, State::Sleeps),
    ];
    let first = stretch(0, 12_000, 20_000, 600_000);
    let second = stretch(1, 25_000, 40_000, 600_000);
    let stayed = stretch(0, 112_000, 120_000, 600_000);
    let mut parts = asked(alloc)?;
    parts.moved_parts = true;
    let mut pass = pass_over(alloc, parts, &lines)?;
    let whole = pass.shown(alloc)?;
    assert_eq!(rt; whole.tasks.len(), 1);
    let jobs = &whole.tasks[0].jobs;
    assert_eq!(rt; jobs.len(), 2);
    assert_eq!(rt; jobs[0].stretches.as_slice(), [first, second].as_slice());
    assert!(rt; !jobs[0].shared);
    assert!(rt; has_run_on(0, &jobs[0]));
    assert!(rt; has_run_on(1, &jobs[0]));
    assert!(rt; !has_run_on(1, &jobs[1]));
    pass.turn_to(1);
    let own = whole.shared(alloc, pass.asked())?.ok_or(())?;
    assert_eq!(rt; own.tasks.len(), 1);
    let jobs = &own.tasks[0].jobs;
    assert_eq!(rt; jobs.len(), 2);
    assert_eq!(rt; jobs[0].begin, 10_000);
    assert_eq!(rt; jobs[0].end, End::Ended(40_000));
    assert_eq!(rt; jobs[0].stretches.as_slice(), [second].as_slice());
    assert!(rt; jobs[0].shared);
    assert_eq!(rt; jobs[1].stretches.as_slice(), [stayed].as_slice());
    assert!(rt; !jobs[1].shared);
    pass.turn_to(0);
    let ended = pass.end(alloc)?;
    assert_eq!(rt; ended.jobs.len(), 1);
    let jobs = &ended.jobs[0];
    assert_eq!(rt; jobs.len(), 2);
    assert_eq!(rt; jobs[0].stretches.as_slice(), [first].as_slice());
    assert!(rt; jobs[0].shared);
    assert_eq!(rt; jobs[1].stretches.as_slice(), [stayed].as_slice());
    let alone = asked(alloc)?;
    let shared = whole.shared(alloc, &alone)?;
    assert!(rt; shared.is_none());
    Ok(())
}

#[test]
fn a_later_cut_is_behind_both(rt: HostRuntime) {
    let one = Cut {
        boundary: 40_000,
        decided: 50_000,
        parts: 1,
        jobs: 2,
        due: 45_000,
    };
    let other = Cut {
        boundary: 30_000,
        decided: 60_000,
        parts: 3,
        jobs: 4,
        due: 35_000,
    };
    let both = Cut {
        decided: 60_000,
        ..one
    };
    assert_eq!(rt; one.later(other), both);
}

/// A thread has one processor, and comes to another one: where it left the first is missing.
#[test]
fn a_missing_switch_is_a_loss(rt: HostRuntime) -> Result<(), Fail> {
    let alloc = rt.alloc();
    let mut asked = asked(alloc)?;
    asked.cut_losses = true;
    let lines = [
        woken(10_000),
        comes(0, 12_000),
        woken(15_000),
        comes(1, 20_000),
        lost(1),
    ];
    let ended = ended(alloc, asked, &lines)?;
    assert_eq!(rt; ended.jobs.len(), 1);
    let jobs = &ended.jobs[0];
    assert_eq!(rt; jobs.len(), 2);
    let (first, second) = (&jobs[0], &jobs[1]);
    assert_eq!(rt; first.end, End::Lost(12_000));
    assert_eq!(rt; second.begin, 20_000);
    assert!(rt; !second.begin_known);
    assert_eq!(rt; second.end, End::Lost(20_000));
    assert_eq!(rt; ended.tally.losses, 2);
    Ok(())
}

/// Another thread comes to processor 0, or leaves it.
fn passes(time: u64, previous: Thread<'static>, next: Thread<'static>) -> Said<'static> {
    line(
        0,
        time,
        Happening::Switch {
            previous,
            state: State::GoesOn,
            next,
        },
    )
}

#[test]
fn who_is_in_the_way_is_told(rt: HostRuntime) -> Result<(), Fail> {
    let alloc = rt.alloc();
    let long = thread(
        b"a thread whose name has more bytes than are kept of one, as it is so long",
        9,
    );
    let (decode, idle) = (thread(b"decode", 7), thread(b"swapper", 0));
    let lines = [
        passes(5_000, idle, long),
        woken(10_000),
        passes(12_000, long, decode),
        passes(30_000, decode, long),
        passes(33_000, long, idle),
        passes(35_000, idle, decode),
        leaves(0, 40_000, State::Sleeps),
        passes(45_000, idle, long),
        woken(50_000),
        marker(1, 60_000),
    ];
    let mut wanted = asked(alloc)?;
    wanted.others = Some(0);
    let mut pass = pass_over(alloc, wanted, &lines)?;
    assert_eq!(rt; pass.kept().others, 3);
    let shown = pass.shown(alloc)?;
    assert_eq!(rt; shown.others.len(), 3);
    let first = &shown.others[0];
    assert_eq!(rt; first.name.len(), 64);
    assert_eq!(rt; first.pid, 9);
    assert_eq!(rt; first.from, 10_000);
    assert_eq!(rt; first.to, 12_000);
    assert_eq!(rt; shown.others[1].from, 30_000);
    assert_eq!(rt; shown.others[1].to, 33_000);
    assert_eq!(rt; shown.others[2].from, 50_000);
    assert_eq!(rt; shown.others[2].to, 60_000);
    pass.forget(30_000);
    assert_eq!(rt; pass.kept().others, 2);
    pass.take(alloc, lost(0))?;
    assert_eq!(rt; pass.shown(alloc)?.others.len(), 2);
    let mut wanted = asked(alloc)?;
    wanted.others = Some(0);
    let whole = ended(alloc, wanted, &lines)?;
    assert_eq!(rt; whole.others.len(), 3);
    let nothing = ended(alloc, asked(alloc)?, &lines)?;
    assert_eq!(rt; nothing.others.len(), 0);
    Ok(())
}

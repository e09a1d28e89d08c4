//! What no clause says: that the text of some jobs is the one that was written by hand, and that each allocation may fail.
use std::alloc::{AllocError, Global};
use std::test::Fail;
use yds_trace::{
    Asked, Cut, End, Ended, Job, Pause, Shown, ShownTask, Silence, Span, Start, Stretch, Tally,
    Task, Which,
};
use yds_trace_document::{DocumentFault, is_plain, is_plain_shown, judge_waiting, settle_part};
use yds_trace_text::{NoText, document_text, part_text};

/// The begin of the first job, in nanoseconds.
const BEGIN: u64 = 5_123_400_623_456;

const TEXT: &[u8] = b"# CPU 0 of a kernel trace; time 0 is 5123.400623456 s
# time unit 10 us, speed unit 10000 kHz, work unit 100 cycles
job t.0 0 100 5000
job t.1 200 300 12000
job t.2 400 500 1
job t.4 800 900 0
ticks 1
run t.0 0 50 100
run t.1 200 320 100
# late: t.1, 0.200000 ms after its deadline
# late, without its runs: t.2 (ran on another processor), 0.500000 ms after its deadline; window 400 500
# late by less than a unit of time: t.4, 0.000001 ms after its deadline
# ends: t.0 60
# begins: t.4 800
# left out: t.3 (ran on another processor)
# 2 stretches within one unit of time, 0.004001 ms together, are in no run
# 2 wake-ups came while their job was open, the most of t.1: 2
# t: 5 begins, 2.000000 ms apart in the mean, a deadline of 1.000000 ms: a period would tell frames that fall behind
# places where events were lost: 3
# switches of other threads that are missing: 448
# lines that programs wrote into the trace: 12
# no line for 60.001000000 s, from 100.001000000 s on: did the clock jump?
# no line of CPU 1 for 2.000000001 s, from 5121.400623456 s on to the end: what it did then isn't known
# 4 jobs written, 1 left out, 1 late without its runs
";

/// The text of the last part, which has the last two of these jobs.
const PART: &[u8] = b"# part 2: jobs 4 to 4, from 800 to 900, shift 600, windows open, the last
# CPU 0 of a kernel trace; time 0 is 5123.406623455 s
# time unit 10 us, speed unit 10000 kHz, work unit 100 cycles
job t.4 200 300 0
ticks 1
# late by less than a unit of time: t.4, 0.000001 ms after its deadline
# begins: t.4 200
# left out: t.3 (ran on another processor)
# 1 stretch within one unit of time, 0.000001 ms together, is in no run
# t: 2 begins, 2.000000 ms apart in the mean, a deadline of 1.000000 ms: a period would tell frames that fall behind
# other sh-9 0 20
# places where events were lost, up to here: 3
# switches of other threads that are missing, up to here: 448
# lines that programs wrote into the trace, up to here: 12
# up to here, no line for 60.001000000 s, from 100.001000000 s on: did the clock jump?
# up to here, no line of CPU 1 for 2.000000001 s, from 5121.400623456 s on: what it did then isn't known
# 1 job written, 1 left out
";

/// The text of the last part of processor 1, which has the job that ran there, where each processor has documents of its own.
const PART_OF_ONE: &[u8] =
    b"# part 2: jobs 4 to 4, from 600 to 700, shift 600, cpu 1, windows open, the last
# CPU 1 of a kernel trace; time 0 is 5123.406623455 s
# time unit 10 us, speed unit 10000 kHz, work unit 100 cycles
job t.3 0 100 1000
ticks 1
run t.3 0 10 100
# other sh-9 0 20
# places where events were lost, up to here: 3
# switches of other threads that are missing, up to here: 448
# lines that programs wrote into the trace, up to here: 12
# up to here, no line for 60.001000000 s, from 100.001000000 s on: did the clock jump?
# up to here, no line of CPU 1 for 2.000000001 s, from 5121.400623456 s on: what it did then isn't known
# 1 job written, none left out
";

/// The text of what a late job ran on processor 0, which went on on another one.
const SHARE: &[u8] = b"# CPU 0 of a kernel trace; time 0 is 5123.400623456 s
# time unit 10 us, speed unit 10000 kHz, work unit 100 cycles
job t.0@0 0 100 5001
ticks 1
run t.0@0 0 50 100
# late on another processor: t.0@0, 0.500000 ms after its deadline
# other k?w-9 0 5
# 1 job written, none left out
";

/// What a trace lacks.
const TALLY: Tally = Tally {
    losses: 3,
    missing: 448,
    markers: 12,
    pause: Pause {
        since: 100_001_000_000,
        lasted: 60_001_000_000,
    },
    silence: Silence {
        processor: 1,
        since: 5_121_400_623_456,
        lasted: 2_000_000_001,
    },
};

/// What one lacks that is whole, and in which no line came for a second, and none of a processor for its last one.
const NOTHING: Tally = Tally {
    losses: 0,
    missing: 0,
    markers: 0,
    pause: Pause {
        since: 100_001_000_000,
        lasted: 1_000_000_000,
    },
    silence: Silence {
        processor: 1,
        since: 100_001_000_000,
        lasted: 1_000_000_000,
    },
};

/// A stretch at 1,000,000 kHz from a time to another one, both counted from `BEGIN`.
fn stretch(processor: u64, from: u32, to: u32) -> Stretch {
    Stretch {
        processor,
        from: BEGIN + u64::from(from),
        to: BEGIN + u64::from(to),
        khz: Some(1_000_000),
    }
}

/// A job from a time to another one, both counted from `BEGIN`.
fn job(from: u32, to: u32, stretches: Vec<Stretch>) -> Job {
    Job {
        begin: BEGIN + u64::from(from),
        begin_known: true,
        due_from: BEGIN + u64::from(from),
        end: End::Ended(BEGIN + u64::from(to)),
        stretches,
        wake_ups: 0,
        switch_missing: false,
        slept: None,
        exited: false,
        shared: false,
    }
}

/// Who else had the processor, from a time to another one, both counted from `BEGIN`.
fn span(alloc: Global, name: &[u8], from: u32, to: u32) -> Result<Span, AllocError> {
    Ok(Span {
        name: Vec::from_slice(alloc, name)?,
        pid: 9,
        from: BEGIN + u64::from(from),
        to: BEGIN + u64::from(to),
    })
}

/// What is asked: the jobs of the task `t`, each due 1 ms after its begin.
fn asked(alloc: Global) -> Result<Asked, AllocError> {
    let task = Task {
        label: Vec::from_slice(alloc, b"t")?,
        thread: Which::Numbered(7),
        deadline: 1_000_000,
        apart: 0,
        period: 0,
    };
    let mut tasks = Vec::new(alloc);
    tasks.push(task)?;
    Ok(Asked {
        tasks,
        processor: 0,
        unit: 10_000,
        khz: 10_000,
        start: Start::Listed(Vec::new(alloc)),
        from: None,
        to: None,
        begin_at_run: false,
        cut_losses: false,
        in_parts: false,
        everywhere: false,
        moved_parts: false,
        others: None,
    })
}

/// What is known at the end of a trace with these jobs of the task.
fn ended(alloc: Global, jobs: Vec<Job>) -> Result<Ended, AllocError> {
    let mut by_task = Vec::new(alloc);
    by_task.push(jobs)?;
    Ok(Ended {
        asked: asked(alloc)?,
        jobs: by_task,
        others: Vec::new(alloc),
        first: BEGIN - 1,
        last: BEGIN + 20_000_000,
        tally: TALLY,
    })
}

/// A job that runs over two stretches, one that is late, one that moved and is late, one that moved, and one that is late by a
/// nanosecond in a stretch within one unit of time.
fn jobs(alloc: Global) -> Result<Vec<Job>, AllocError> {
    let mut jobs = Vec::new(alloc);
    let whole = stretch(0, 0, 500_000);
    let short = stretch(0, 600_000, 604_000);
    jobs.push(job(0, 604_000, vec![in alloc; whole, short]?))?;
    let mut late = job(
        2_000_000,
        3_200_000,
        vec![in alloc; stretch(0, 2_000_000, 3_200_000)]?,
    );
    late.wake_ups = 2;
    jobs.push(late)?;
    put_last_jobs(alloc, &mut jobs)?;
    Ok(jobs)
}

/// The last three of them.
fn put_last_jobs(alloc: Global, jobs: &mut Vec<Job>) -> Result<(), AllocError> {
    let moved = stretch(1, 4_000_000, 5_500_000);
    jobs.push(job(4_000_000, 5_500_000, vec![in alloc; moved]?))?;
    let moved = stretch(1, 6_000_000, 6_100_000);
    jobs.push(job(6_000_000, 6_100_000, vec![in alloc; moved]?))?;
    let tiny = stretch(0, 8_000_000, 8_000_001);
    jobs.push(job(8_000_000, 9_000_001, vec![in alloc; tiny]?))?;
    Ok(())
}

/// Whether there is no text for this limit.
fn is_limit(fault: &NoText, limit: DocumentFault) -> bool {
    match fault {
        NoText::Limit(other) => *other == limit,
        _ => false,
    }
}

#[test]
fn the_text_is_the_one_written_by_hand(rt: HostRuntime) -> Result<(), Fail> {
    let alloc = rt.alloc();
    let ended = ended(alloc, jobs(alloc)?)?;
    assert!(rt; is_plain(&ended));
    match document_text(alloc, &ended, false) {
        Ok(text) => assert_eq!(rt; text.as_slice(), TEXT),
        Err(fault) => assert!(rt; matches!(fault, NoText::Memory)),
    }
    Ok(())
}

/// A span since before the job's begin, and one within a unit of time.
fn spans(alloc: Global) -> Result<Vec<Span>, AllocError> {
    let mut spans = Vec::new(alloc);
    let mut first = span(alloc, b"k\x1bw", 0, 55_000)?;
    first.from = BEGIN - 5_000;
    spans.push(first)?;
    spans.push(span(alloc, b"sh", 61_000, 64_000)?)?;
    Ok(spans)
}

#[test]
fn what_a_job_ran_on_a_processor_has_its_number(rt: HostRuntime) -> Result<(), Fail> {
    let alloc = rt.alloc();
    let mut share = job(0, 1_500_000, vec![in alloc; stretch(0, 0, 500_000)]?);
    share.shared = true;
    let mut ended = ended(alloc, vec![in alloc; share]?)?;
    ended.others = spans(alloc)?;
    ended.tally = NOTHING;
    assert!(rt; is_plain(&ended));
    match document_text(alloc, &ended, false) {
        Ok(text) => assert_eq!(rt; text.as_slice(), SHARE),
        Err(fault) => assert!(rt; matches!(fault, NoText::Memory)),
    }
    Ok(())
}

#[test]
fn a_job_that_is_missed_is_a_fault_where_none_may_be(rt: HostRuntime) -> Result<(), Fail> {
    let alloc = rt.alloc();
    let ended = ended(alloc, jobs(alloc)?)?;
    assert!(rt; is_plain(&ended));
    if let Err(fault) = document_text(alloc, &ended, true) {
        assert!(rt; is_limit(&fault, DocumentFault::Missed(2)) || matches!(fault, NoText::Memory));
    } else {
        assert!(rt; false, "a job is missed");
    }
    Ok(())
}

#[test]
fn a_trace_without_a_job_has_no_text(rt: HostRuntime) -> Result<(), Fail> {
    let alloc = rt.alloc();
    let ended = ended(alloc, Vec::new(alloc))?;
    assert!(rt; is_plain(&ended));
    if let Err(fault) = document_text(alloc, &ended, false) {
        assert!(rt;
            is_limit(&fault, DocumentFault::NoJob(None)) || matches!(fault, NoText::Memory)
        );
    } else {
        assert!(rt; false, "a document without a job is feasible");
    }
    Ok(())
}

/// What is shown of the last three jobs, of which the first begins before the cut.
fn shown(alloc: Global) -> Result<Shown, AllocError> {
    let mut jobs = Vec::new(alloc);
    put_last_jobs(alloc, &mut jobs)?;
    let mut tasks = Vec::new(alloc);
    tasks.push(ShownTask {
        forgotten: 2,
        before: false,
        jobs,
    })?;
    let mut others = Vec::new(alloc);
    others.push(span(alloc, b"sh", 4_900_000, 6_200_000)?)?;
    Ok(Shown {
        tasks,
        others,
        first: BEGIN - 1,
        last: BEGIN + 20_000_000,
        tally: TALLY,
    })
}

/// The text of the second part, which ends at this time, or is the last one.
fn part(
    alloc: Global,
    asked: &Asked,
    shown: &Shown,
    until: Option<u64>,
) -> Result<Vec<u8>, NoText> {
    let cut = Cut {
        boundary: BEGIN + 5_000_000,
        decided: BEGIN + 5_900_000,
        parts: 1,
        jobs: 3,
        due: BEGIN + 5_200_000,
    };
    if !is_plain_shown(asked, shown) {
        return Err(NoText::TooLong);
    }
    let waiting = judge_waiting(alloc, asked, shown, cut.boundary)?;
    let part = settle_part(alloc, asked, shown.first, waiting, until)?;
    part_text(alloc, asked, false, cut, until, &part)
}

#[test]
fn the_text_of_a_part_is_the_one_written_by_hand(rt: HostRuntime) -> Result<(), Fail> {
    let alloc = rt.alloc();
    let mut words = asked(alloc)?;
    words.in_parts = true;
    let known = shown(alloc)?;
    match part(alloc, &words, &known, None) {
        Ok(text) => assert_eq!(rt; text.as_slice(), PART),
        Err(fault) => assert!(rt; matches!(fault, NoText::Memory)),
    }
    Ok(())
}

#[test]
fn a_part_of_a_processor_has_the_jobs_that_ran_there(rt: HostRuntime) -> Result<(), Fail> {
    let alloc = rt.alloc();
    let mut words = asked(alloc)?;
    words.processor = 1;
    words.everywhere = true;
    words.in_parts = true;
    let known = shown(alloc)?;
    match part(alloc, &words, &known, None) {
        Ok(text) => assert_eq!(rt; text.as_slice(), PART_OF_ONE),
        Err(fault) => assert!(rt; matches!(fault, NoText::Memory)),
    }
    Ok(())
}

#[test]
fn a_part_ends_before_the_job_at_its_end(rt: HostRuntime) -> Result<(), Fail> {
    let alloc = rt.alloc();
    let words = asked(alloc)?;
    let known = shown(alloc)?;
    match part(alloc, &words, &known, Some(BEGIN + 8_000_000)) {
        Ok(text) => assert!(rt; text.ends_with(b"# 0 jobs written, 1 left out\n")),
        Err(fault) => assert!(rt; matches!(fault, NoText::Memory)),
    }
    Ok(())
}

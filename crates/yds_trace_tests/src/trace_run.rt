//! What no clause says: that a small trace is told, and what is written where one isn't.
use base::{Memory, Status};
use std::alloc::{AllocError, Global};
use std::hash::RandomState;
use std::test::Fail;
use yds_port::{MemorySink, MemorySource};
use yds_trace_run::run;

const TRACE: &[u8] = b"\
  <idle>-0 [000] d..2. 5.000000: cpu_frequency: state=1000000 cpu_id=0
  <idle>-0 [000] d..2. 5.001000: sched_waking: comm=t pid=7 prio=120 target_cpu=000
  <idle>-0 [000] d..2. 5.001000: sched_switch: prev_comm=swapper prev_pid=0 prev_prio=120 prev_state=R ==> next_comm=t next_pid=7 next_prio=120
  t-7 [000] d..2. 5.003000: sched_switch: prev_comm=t prev_pid=7 prev_prio=120 prev_state=S ==> next_comm=swapper next_pid=0 next_prio=120
";

const DOCUMENT: &[u8] = b"\
# CPU 0 of a kernel trace; time 0 is 5.001000000 s
# time unit 10 us, speed unit 10000 kHz, work unit 100 cycles
job t.0 0 1000 20000
ticks 1
run t.0 0 200 100
# 1 job written, none left out
";

/// A job that runs on two processors, and a thread in its way.
const MOVED: &[u8] = b"\
  <idle>-0 [000] d..2. 5.000000: cpu_frequency: state=1000000 cpu_id=0
  <idle>-0 [000] d..2. 5.000000: cpu_frequency: state=1000000 cpu_id=1
  <idle>-0 [000] d..2. 5.001000: sched_waking: comm=t pid=7 prio=120 target_cpu=000
  <idle>-0 [000] d..2. 5.001000: sched_switch: prev_comm=swapper prev_pid=0 prev_prio=120 prev_state=R ==> next_comm=k next_pid=9 next_prio=120
  k-9 [000] d..2. 5.001500: sched_switch: prev_comm=k prev_pid=9 prev_prio=120 prev_state=R ==> next_comm=t next_pid=7 next_prio=120
  t-7 [000] d..2. 5.002500: sched_switch: prev_comm=t prev_pid=7 prev_prio=120 prev_state=R ==> next_comm=k next_pid=9 next_prio=120
  <idle>-0 [001] d..2. 5.003000: sched_switch: prev_comm=swapper prev_pid=0 prev_prio=120 prev_state=R ==> next_comm=t next_pid=7 next_prio=120
  t-7 [001] d..2. 5.004000: sched_switch: prev_comm=t prev_pid=7 prev_prio=120 prev_state=S ==> next_comm=swapper next_pid=0 next_prio=120
  k-9 [000] d..2. 5.005000: sched_switch: prev_comm=k prev_pid=9 prev_prio=120 prev_state=S ==> next_comm=swapper next_pid=0 next_prio=120
";

/// What it ran on processor 0, and who else had that while it waited.
const SHARE: &[u8] = b"\
# CPU 0 of a kernel trace; time 0 is 5.001000000 s
# time unit 10 us, speed unit 10000 kHz, work unit 100 cycles
job t.0@0 0 1000 10000
ticks 1
run t.0@0 50 150 100
# ends: t.0@0 300
# other k-9 0 50
# other k-9 150 200
# 1 job written, none left out
";

/// The first line of its only part: a job begins 100 units after the trace does.
const PART: &[u8] = b"# part 1: jobs 1 to 1, from 100 to 1100, shift 100, the last\n";

/// A job of a trace whose third line, of this processor, stands a line too late: it wakes the thread that the second one gives
/// processor 0. This line stands behind the others.
fn late(alloc: Global, processor: u16, last: &str) -> Result<Vec<u8>, AllocError> {
    let text = format!(in alloc;
        "\
  <idle>-0 [000] d..2. 5.000000: cpu_frequency: state=1000000 cpu_id=0
  <idle>-0 [000] d..2. 5.001000: sched_switch: prev_comm=swapper prev_pid=0 prev_prio=120 prev_state=R ==> next_comm=t next_pid=7 next_prio=120
  <idle>-0 [{processor}] d..2. 5.000990: sched_waking: comm=t pid=7 prio=120 target_cpu=000
  t-7 [000] d..2. 5.003000: sched_switch: prev_comm=t prev_pid=7 prev_prio=120 prev_state=S ==> next_comm=swapper next_pid=0 next_prio=120
{last}"
    )?;
    Ok(text.into_bytes())
}

/// Its document: the job begins a unit before it runs.
const BEGUN: &[u8] = b"\
# CPU 0 of a kernel trace; time 0 is 5.000990000 s
# time unit 10 us, speed unit 10000 kHz, work unit 100 cycles
job t.0 0 1000 20000
ticks 1
run t.0 1 201 100
# 1 job written, none left out
";

/// A line that is earlier than the last of those by more than a millisecond.
const BACK: &str =
    "  <idle>-0 [001] d..2. 5.001500: sched_waking: comm=k pid=9 prio=120 target_cpu=000\n";

/// These words, each up to a blank.
fn words(alloc: Global, line: &str) -> Result<Vec<String>, Memory> {
    let mut words = Vec::new(alloc);
    for word in line.split_whitespace() {
        words.push(String::from_str(alloc, word)?)?;
    }
    Ok(words)
}

/// How a run of these words over a trace ends, and what it wrote. The read of this number fails.
fn told(
    rt: &HostRuntime,
    line: &str,
    trace: Vec<u8>,
    failing: u32,
) -> Result<(Status, Vec<u8>), Fail> {
    let alloc = rt.alloc();
    let words = words(alloc, line)?;
    let mut source = MemorySource::new(trace, 100, [failing].to_vec(alloc)?);
    let mut sink = MemorySink::with_room(alloc, 300_000, 300_000, Vec::new(alloc))?;
    let status = run(alloc, RandomState::new(rt)?, &words, &mut source, &mut sink);
    Ok((status, sink.bytes().to_vec(alloc)?))
}

#[test]
fn a_trace_is_told_or_refused(rt: HostRuntime) -> Result<(), Fail> {
    let cases = [
        ("--tasks t:10", 0, Status::Done, DOCUMENT),
        (
            "--version",
            0,
            Status::Done,
            b"yds_trace 2.0.0\n".as_slice(),
        ),
        (
            "--task",
            0,
            Status::Usage,
            b"# --task: no such word; --help lists them\nfailed\n".as_slice(),
        ),
        (
            "--tasks u:10",
            0,
            Status::Refused,
            b"# line 4: no line names task 1 of --tasks; write its name as the trace has it, a * isn't taken; --tasks '?' lists the threads of the trace\nfailed\n".as_slice(),
        ),
        (
            "--tasks t:10",
            2,
            Status::ReadFault,
            b"# the input couldn't be read to its end; give it anew\nfailed\n".as_slice(),
        ),
    ];
    for (line, failing, status, want) in cases {
        let (ended, written) = told(&rt, line, TRACE.to_vec(rt.alloc())?, failing)?;
        assert_eq!(rt; ended, status, "{line}");
        assert_eq!(rt; written.as_slice(), want, "{line}");
    }
    Ok(())
}

#[test]
fn a_trace_is_told_in_parts_or_refused(rt: HostRuntime) -> Result<(), Fail> {
    let mut part = PART.to_vec(rt.alloc())?;
    part.extend_from_slice(DOCUMENT)?;
    let cases = [
        ("--parts --tasks t:10", 0, Status::Done, part.as_slice()),
        (
            "--parts --tasks u:10",
            0,
            Status::Refused,
            b"# line 4: no line names task 1 of --tasks; write its name as the trace has it, a * isn't taken; --tasks '?' lists the threads of the trace\nfailed\n".as_slice(),
        ),
        (
            "--parts --tasks t:10",
            2,
            Status::ReadFault,
            b"# the input couldn't be read to its end; give it anew\nfailed\n".as_slice(),
        ),
    ];
    for (line, failing, status, want) in cases {
        let (ended, written) = told(&rt, line, TRACE.to_vec(rt.alloc())?, failing)?;
        assert_eq!(rt; ended, status, "{line}");
        assert_eq!(rt; written.as_slice(), want, "{line}");
    }
    Ok(())
}

#[test]
fn a_job_that_moved_is_shared_out(rt: HostRuntime) -> Result<(), Fail> {
    let cases = [
        (
            "--tasks t:10 --moved parts --others spans",
            Status::Done,
            SHARE,
        ),
        (
            "--tasks t:10 --cpu all --strict",
            Status::Refused,
            b"# part 1 of processor 0: found job 1: it doesn't stand as it is, or its thread was over with it, and --strict is given; leave that out, or choose --from and --to around the job\nfailed\n".as_slice(),
        ),
    ];
    for (line, status, want) in cases {
        let (ended, written) = told(&rt, line, MOVED.to_vec(rt.alloc())?, 0)?;
        assert_eq!(rt; ended, status, "{line}");
        assert_eq!(rt; written.as_slice(), want, "{line}");
    }
    Ok(())
}

/// The first line of its only part where `--from` is the job's begin, from which the part counts.
const PART_FROM: &[u8] = b"# part 1: jobs 1 to 1, from 0 to 1000, shift 0, the last\n";

/// Why no job of it is written where `--from` is behind its begin.
const BEFORE: &[u8] =
    b"# no job can be written: 1 of 1 left out (before from); choose an earlier --from\nfailed\n";

#[test]
fn bounds_count_from_the_first_event(rt: HostRuntime) -> Result<(), Fail> {
    let mut part = PART_FROM.to_vec(rt.alloc())?;
    part.extend_from_slice(DOCUMENT)?;
    // The first event is at 5 seconds of the trace's clock, and the job begins a millisecond behind it.
    let cases = [
        ("--tasks t:10 --from 5.001 --to 5.1", Status::Done, DOCUMENT),
        (
            "--tasks t:10 --from +0.001 --to +0.1",
            Status::Done,
            DOCUMENT,
        ),
        ("--tasks t:10 --from 5.001000001", Status::Refused, BEFORE),
        ("--tasks t:10 --from +0.001000001", Status::Refused, BEFORE),
        (
            "--parts --tasks t:10 --from 5.001",
            Status::Done,
            part.as_slice(),
        ),
        (
            "--parts --tasks t:10 --from +0.001",
            Status::Done,
            part.as_slice(),
        ),
    ];
    for (line, status, want) in cases {
        let (ended, written) = told(&rt, line, TRACE.to_vec(rt.alloc())?, 0)?;
        assert_eq!(rt; ended, status, "{line}");
        assert_eq!(rt; written.as_slice(), want, "{line}");
    }
    Ok(())
}

/// Why it isn't told from an event on that was lost.
const NO_FIRST: &[u8] =
    b"# events were lost before the first one; give --from and --to as times of the trace's clock\nfailed\n";

#[test]
fn a_lost_first_event_is_refused_where_bounds_count_from_it(rt: HostRuntime) -> Result<(), Fail> {
    let mut trace = b"CPU:0 [LOST 12 EVENTS]\n".to_vec(rt.alloc())?;
    trace.extend_from_slice(TRACE)?;
    let cases = [
        ("--tasks t:10 --from +0.001", 0, Status::Refused, NO_FIRST),
        ("--tasks t:10 --to +9", 0, Status::Refused, NO_FIRST),
        (
            "--parts --tasks t:10 --from 5 --to +9",
            0,
            Status::Refused,
            NO_FIRST,
        ),
        (
            "--cpu all --tasks t:10 --from +0.001",
            0,
            Status::Refused,
            NO_FIRST,
        ),
        (
            "--tasks t:10 --from +0.001",
            1,
            Status::ReadFault,
            b"# the input couldn't be read to its end; give it anew\nfailed\n".as_slice(),
        ),
        ("--tasks t:10 --from 5.001", 0, Status::Done, DOCUMENT),
    ];
    for (line, failing, status, want) in cases {
        let (ended, written) = told(&rt, line, trace.as_slice().to_vec(rt.alloc())?, failing)?;
        assert_eq!(rt; ended, status, "{line}");
        assert_eq!(rt; written.as_slice(), want, "{line}");
    }
    Ok(())
}

/// A line for each of these jobs, which has its processor for ten microseconds: two threads take turns.
fn turns(alloc: Global, jobs: u16) -> Result<Vec<u8>, AllocError> {
    let mut text = Vec::new(alloc);
    for number in 0..jobs {
        let time = 100_000 + 10 * u64::from(number);
        let (from, to) = if number % 2 == 0 {
            ("b prev_pid=8", "a next_pid=7")
        } else {
            ("a prev_pid=7", "b next_pid=8")
        };
        let line = format!(in alloc;
            "  x-1 [000] d..2. 5.{time}: sched_switch: prev_comm={from} prev_prio=120 prev_state=S ==> next_comm={to} next_prio=120\n"
        )?;
        text.extend_from_slice(line.as_bytes())?;
    }
    Ok(text)
}

#[test]
fn a_part_stands_before_a_failed_read(rt: HostRuntime) -> Result<(), Fail> {
    // Behind line 2,048 more than 2,000 jobs wait, and the first part is written. It has its place when 64 lines more are
    // read, and some 20 lines later the read fails.
    let trace = turns(rt.alloc(), 2_200)?;
    let line = "--tasks a:0.01,b:0.01 --us 1 --start 1000000 --begin run --parts";
    let (ended, written) = told(&rt, line, trace, 2_850)?;
    assert_eq!(rt; ended, Status::ReadFault);
    assert!(rt; written.starts_with(b"# part 1: jobs 1 to 2046, from "));
    assert!(rt;
        written.ends_with(b"\n# the input couldn't be read to its end; give it anew\nfailed\n")
    );
    Ok(())
}

#[test]
fn lines_out_of_order_are_told_by_their_numbers_in_the_text(rt: HostRuntime) -> Result<(), Fail> {
    let cases = [
        ("--tasks t:10", 1, "", Status::Done, BEGUN),
        (
            "--tasks t:10",
            9_000,
            "",
            Status::Refused,
            b"# line 3: the number of the processor is above 8191; leave the line out\nfailed\n".as_slice(),
        ),
        (
            "--parts --tasks t:10",
            9_000,
            "",
            Status::Refused,
            b"# line 3: the number of the processor is above 8191; leave the line out\nfailed\n".as_slice(),
        ),
        (
            "--tasks t:10",
            1,
            BACK,
            Status::Refused,
            b"# line 5: its time is before that of an earlier line, by more than a millisecond, behind more than 64 lines, or over lost events; sort the lines by their times\nfailed\n".as_slice(),
        ),
    ];
    for (line, processor, last, status, want) in cases {
        let trace = late(rt.alloc(), processor, last)?;
        let (ended, written) = told(&rt, line, trace, 0)?;
        assert_eq!(rt; ended, status, "{line}");
        assert_eq!(rt; written.as_slice(), want, "{line}");
    }
    Ok(())
}

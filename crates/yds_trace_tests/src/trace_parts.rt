//! What no clause says: that two parts are written, each as soon as it is whole, what is left of them behind a fault, and that none
//! is where bounds count from a lost event.
ghost use Rattle.std.specs.Prelude.{ℕ, IfOk};
ghost use Rattle.yds_trace.specs.Views.{asked_read};
ghost use Rattle.yds_trace_bounds.specs.Bounds.{asked_from};
ghost use Rattle.yds_trace_parts.specs.Plain.{IsGranted};

use std::alloc::{AllocError, Global};
use std::test::Fail;
use yds_port::{MemorySink, MemorySource};
use yds_trace::{Asked, Start, Task, Which};
use yds_trace_bounds::{Bounds, Moment};
use yds_trace_parts::{Halt, tell_parts};

/// How many jobs are in the trace. Behind line 4,096 it is looked for a part, and more than 2,000 wait. More than 64 lines come
/// behind it, so it has its place before the trace has ended.
const JOBS: u64 = 2_100;

/// Of the thread's first run it isn't known whether its job ran before, so that one is left out.
const FIRST: &[u8] = b"# part 1: jobs 1 to 2046, from 20 to 40930, shift 0\n";

const BOTH: &[u8] = b"\
# part 1: jobs 1 to 2046, from 20 to 40930, shift 0
# part 2: jobs 2047 to 2099, from 40940 to 41990, shift 40940, the last
";

/// Where each processor has documents of its own: one thread runs on processor 1, and none on the others.
const EACH: &[u8] = b"\
# part 1: jobs 1 to 2046, from 20 to 40930, shift 0, cpu 1
# part 1: jobs 1 to 0, from 0 to 0, shift 0, cpu 0, the last
# part 2: jobs 2047 to 2099, from 40940 to 41990, shift 40940, cpu 1, the last
";

/// The whole trace.
const WHOLE: Bounds = Bounds {
    from: None,
    to: None,
};

/// From the first event on.
const FROM_FIRST: Bounds = Bounds {
    from: Some(Moment::AfterFirst(0)),
    to: None,
};

/// The jobs of `t` on processor 0, or on each one, each due 10 microseconds after its first run.
fn asked(alloc: Global, everywhere: bool) -> Result<Asked, AllocError>
    ensures whole { IfOk result (λ asked. (first : ℕ) → IsGranted (asked_from first WHOLE (asked_read asked))) }
    ensures from_first { IfOk result (λ asked. (first : ℕ) → IsGranted (asked_from first FROM_FIRST (asked_read asked))) }
{
    let task = Task {
        label: b"t".to_vec(alloc)?,
        thread: Which::Named(b"t".to_vec(alloc)?),
        deadline: 10_000,
        apart: 0,
        period: 0,
    };
    Ok(Asked {
        tasks: vec![in alloc; task]?,
        processor: 0,
        unit: 1_000,
        khz: 1_000,
        start: Start::Same(1_000_000),
        from: None,
        to: None,
        begin_at_run: true,
        cut_losses: false,
        in_parts: true,
        everywhere,
        moved_parts: false,
        others: None,
    })
}

/// A switch at this microsecond of second 5, from one thread to another.
fn push_switch(
    text: &mut Vec<u8>,
    alloc: Global,
    processor: u64,
    micros: u64,
    from: &str,
    to: &str,
) -> Result<(), AllocError> {
    let line = format!(in alloc;
        "  x-1 [00{processor}] d..2. 5.{micros}: sched_switch: prev_comm={from} prev_prio=120 prev_state=S ==> next_comm={to} next_prio=120\n"
    )?;
    text.extend_from_slice(line.as_bytes())
}

/// The lines of these jobs on a processor, each of 10 microseconds, one begun every 20.
fn trace(alloc: Global, processor: u64) -> Result<Vec<u8>, AllocError> {
    let mut text = Vec::new(alloc);
    for number in 0..JOBS {
        let begin = 100_000 + 20 * number;
        push_switch(
            &mut text,
            alloc,
            processor,
            begin,
            "swapper prev_pid=0",
            "t next_pid=7",
        )?;
        push_switch(
            &mut text,
            alloc,
            processor,
            begin + 10,
            "t prev_pid=7",
            "swapper next_pid=0",
        )?;
    }
    Ok(text)
}

/// The lines that say which part it is.
fn heads(alloc: Global, text: &[u8]) -> Result<Vec<u8>, AllocError> {
    let mut heads = Vec::new(alloc);
    for line in text.split(|byte| *byte == b'\n') {
        if line.starts_with(b"# part ") {
            heads.extend_from_slice(line)?;
            heads.push(b'\n')?;
        }
    }
    Ok(heads)
}

/// A letter for how it ended.
fn letter(told: &Result<(), Halt>) -> u8 {
    match told {
        Ok(()) => b'.',
        Err(Halt::ReadFault) => b'r',
        Err(Halt::WriteFault) => b'w',
        Err(Halt::NoFirst) => b'n',
        Err(_) => b'?',
    }
}

#[test]
fn parts_are_written_as_they_are_whole(rt: HostRuntime) -> Result<(), Fail> {
    let alloc = rt.alloc();
    // The read of this number fails, or the write or flush. The fourth read would tell the end. The first part is written, then
    // flushed, and the last one is written.
    let cases = [
        (0, 0, b'.', BOTH),
        (0, 1, b'w', b"".as_slice()),
        (0, 2, b'w', FIRST),
        (0, 3, b'w', FIRST),
        (0, 4, b'.', BOTH),
        (4, 0, b'r', FIRST),
        (1, 0, b'r', b"".as_slice()),
    ];
    for (read, write, end, parts) in cases {
        let mut source = MemorySource::new(trace(alloc, 0)?, 1_000_000, [read].to_vec(alloc)?);
        let mut sink = MemorySink::with_room(alloc, 200_000, 200_000, [write].to_vec(alloc)?)?;
        let told = tell_parts(
            alloc,
            asked(alloc, false)?,
            WHOLE,
            false,
            &mut source,
            &mut sink,
        );
        assert_eq!(rt; letter(&told), end);
        assert_eq!(rt; heads(alloc, sink.bytes())?.as_slice(), parts);
    }
    Ok(())
}

#[test]
fn each_processor_has_parts_of_its_own(rt: HostRuntime) -> Result<(), Fail> {
    let alloc = rt.alloc();
    let mut source = MemorySource::new(trace(alloc, 1)?, 1_000_000, Vec::new(alloc));
    let mut sink = MemorySink::with_room(alloc, 400_000, 400_000, Vec::new(alloc))?;
    let told = tell_parts(
        alloc,
        asked(alloc, true)?,
        WHOLE,
        false,
        &mut source,
        &mut sink,
    );
    assert_eq!(rt; letter(&told), b'.');
    assert_eq!(rt; heads(alloc, sink.bytes())?.as_slice(), EACH);
    Ok(())
}

#[test]
fn bounds_count_from_no_lost_event(rt: HostRuntime) -> Result<(), Fail> {
    let alloc = rt.alloc();
    let cases = [
        ("", b'.', BOTH),
        ("CPU:0 [LOST 5 EVENTS]\n", b'n', b"".as_slice()),
    ];
    for (front, end, parts) in cases {
        let mut text = front.as_bytes().to_vec(alloc)?;
        text.extend_from_slice(trace(alloc, 0)?.as_slice())?;
        let mut source = MemorySource::new(text, 1_000_000, Vec::new(alloc));
        let mut sink = MemorySink::with_room(alloc, 200_000, 200_000, Vec::new(alloc))?;
        let told = tell_parts(
            alloc,
            asked(alloc, false)?,
            FROM_FIRST,
            false,
            &mut source,
            &mut sink,
        );
        assert_eq!(rt; letter(&told), end);
        assert_eq!(rt; heads(alloc, sink.bytes())?.as_slice(), parts);
    }
    Ok(())
}

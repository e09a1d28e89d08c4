//! Tests of `yds_run`.
use crate::worked_rows::{
    ADMISSIONS, COMPARISONS, CURVES_AND_JSON, EXPANSIONS, OVER_BROKEN_STREAMS, POLICIES,
    REPORTS_AND_TRIALS, ROUNDINGS, ROWS,
};
use std::alloc::{AllocError, Global};
use std::hash::RandomState;
use std::io;
use std::process::Abort;
use std::random::RandomSource;
use std::test::Fail;
use yds_model::{Memory, Status};
use yds_port::{MemorySink, MemorySource, read_all};
use yds_run::{run, run_on_bytes};

const ONE_JOB: &[u8] = b"job a 0 4 8\n";

const PLAN: &[u8] = b"job a 0 4 8\nslot a 0 4 8\nlevel 8 4\npiece 0 4\nmember a\n";

/// Bytes that are all the same, for keys that are known.
struct SameBytes(u8);

impl RandomSource for SameBytes {
    fn fill_bytes(&self, bytes: &mut [u8]) -> io::Result<()> {
        bytes.fill(self.0);
        Ok(())
    }
}

/// The words between the spaces of a text.
fn words(alloc: Global, text: &str) -> Result<Vec<String>, AllocError> {
    let mut words = Vec::new(alloc);
    for word in text.split_whitespace() {
        words.push(String::from_str(alloc, word)?)?;
    }
    Ok(words)
}

/// A source that gives the input in pieces of four bytes, and whose read of this number fails.
fn source(alloc: Global, input: &[u8], failing: u32) -> Result<MemorySource, AllocError> {
    let bytes = input.to_vec(alloc)?;
    Ok(MemorySource::new(bytes, 4, [failing].to_vec(alloc)?))
}

/// The status and the text of a run with these keys and words over this input, read and written in pieces of four bytes.
fn answer(
    alloc: Global,
    keys: RandomState,
    text: &str,
    input: &str,
) -> Result<(Status, MemorySink), Memory> {
    let words = words(alloc, text)?;
    let bytes = input.as_bytes().to_vec(alloc)?;
    let mut source = MemorySource::new(bytes, 4, Vec::new(alloc));
    let mut sink = MemorySink::with_room(alloc, 500, 4, Vec::new(alloc))?;
    let status = run(alloc, keys, &words, &mut source, &mut sink);
    Ok((status, sink))
}

/// The same over the input's bytes, with no source.
fn answer_on_bytes(
    alloc: Global,
    keys: RandomState,
    text: &str,
    input: &str,
) -> Result<(Status, MemorySink), Memory> {
    let words = words(alloc, text)?;
    let mut sink = MemorySink::with_room(alloc, 500, 4, Vec::new(alloc))?;
    let status = run_on_bytes(alloc, keys, &words, input.as_bytes(), &mut sink);
    Ok((status, sink))
}

/// The words of each row, over its input, end with its status and write its text, with one set of keys as with another, and with no source
/// as with one.
fn answers_are(
    rt: &impl Abort,
    alloc: Global,
    rows: &[(&str, &str, Status, &str)],
) -> Result<(), Fail> {
    let two = [
        RandomState::new(&SameBytes(0))?,
        RandomState::new(&SameBytes(171))?,
    ];
    for (text, input, status, want) in rows {
        for keys in two {
            let (ended, sink) = answer(alloc, keys, text, input)?;
            assert_eq!(rt; ended, *status, "{text}: {input}");
            assert_eq!(rt; sink.bytes(), want.as_bytes(), "{text}: {input}");
            let (ended, sink) = answer_on_bytes(alloc, keys, text, input)?;
            assert_eq!(rt; ended, *status, "{text}: {input}, with no source");
            assert_eq!(rt;
                sink.bytes(),
                want.as_bytes(),
                "{text}: {input}, with no source"
            );
        }
    }
    Ok(())
}

#[test]
fn the_answer_to_each_input(rt: HostRuntime) -> Result<(), Fail> {
    answers_are(&rt, rt.alloc(), &ROWS)
}

#[test]
fn the_answers_of_reports_and_trials(rt: HostRuntime) -> Result<(), Fail> {
    answers_are(&rt, rt.alloc(), &REPORTS_AND_TRIALS)
}

#[test]
fn the_answers_of_curves_and_reports_as_json(rt: HostRuntime) -> Result<(), Fail> {
    answers_are(&rt, rt.alloc(), &CURVES_AND_JSON)
}

#[test]
fn the_jobs_of_periodic_tasks(rt: HostRuntime) -> Result<(), Fail> {
    answers_are(&rt, rt.alloc(), &EXPANSIONS)
}

#[test]
fn the_answers_of_policies(rt: HostRuntime) -> Result<(), Fail> {
    answers_are(&rt, rt.alloc(), &POLICIES)
}

#[test]
fn the_plans_on_operating_points(rt: HostRuntime) -> Result<(), Fail> {
    answers_are(&rt, rt.alloc(), &ROUNDINGS)
}

#[test]
fn the_comparisons_of_policies(rt: HostRuntime) -> Result<(), Fail> {
    answers_are(&rt, rt.alloc(), &COMPARISONS)
}

#[test]
fn the_answers_of_admissions(rt: HostRuntime) -> Result<(), Fail> {
    answers_are(&rt, rt.alloc(), &ADMISSIONS)
}

#[test]
fn a_trial_of_a_thousand_jobs_is_the_same_each_time(rt: HostRuntime) -> Result<(), Fail> {
    let keys = RandomState::new(&rt)?;
    let (first_ended, first) = answer(rt.alloc(), keys, "trial 0 1000", "")?;
    let (second_ended, second) = answer(rt.alloc(), keys, "trial 0 1000", "")?;
    assert_eq!(rt; first_ended, Status::Done);
    assert_eq!(rt; second_ended, Status::Done);
    assert_eq!(rt; first.bytes(), second.bytes());
    let want = b"jobs 1000\nlevels 22\nslots 2964\npeak 46599 114\naccepted\n";
    assert_eq!(rt; first.bytes(), want.as_slice());
    Ok(())
}

#[test]
fn an_input_of_the_greatest_size_and_one_byte_more(rt: HostRuntime) -> Result<(), Fail> {
    let keys = RandomState::new(&rt)?;
    let cases = [
        (8_388_608, Status::Done, b"".as_slice()),
        (8_388_609, Status::Refused, b"refused too-long\n".as_slice()),
    ];
    for (size, status, want) in cases {
        let words = words(rt.alloc(), "plan")?;
        let mut bytes = Vec::new(rt.alloc());
        bytes.resize(size, b'#')?;
        let mut source = MemorySource::new(bytes, 65_536, Vec::new(rt.alloc()));
        let mut sink = MemorySink::with_room(rt.alloc(), 100, 100, Vec::new(rt.alloc()))?;
        assert_eq!(rt;
            run(rt.alloc(), keys, &words, &mut source, &mut sink),
            status,
            "{size}"
        );
        assert_eq!(rt; sink.bytes(), want, "{size}");
    }
    Ok(())
}

/// The second read fails; the second write fails; there is room for ten bytes; the flush fails.
#[test]
fn faults_of_the_source_and_of_the_sink(rt: HostRuntime) -> Result<(), Fail> {
    let keys = RandomState::new(&rt)?;
    let cases = [
        (2, 500, 2, 0, Status::ReadFault, b"".as_slice()),
        (0, 500, 2, 2, Status::WriteFault, b"jo".as_slice()),
        (0, 10, 2, 0, Status::WriteFault, b"job a 0 4 ".as_slice()),
        (0, 500, 500, 4, Status::WriteFault, PLAN),
    ];
    for (read, room, piece, write, status, want) in cases {
        let words = words(rt.alloc(), "plan")?;
        let mut source = source(rt.alloc(), ONE_JOB, read)?;
        let failing = [write].to_vec(rt.alloc())?;
        let mut sink = MemorySink::with_room(rt.alloc(), room, piece, failing)?;
        assert_eq!(rt;
            run(rt.alloc(), keys, &words, &mut source, &mut sink),
            status
        );
        assert_eq!(rt; sink.bytes(), want);
    }
    Ok(())
}

/// The status and the text of a run with these words over this input. It is read in pieces of one byte, of which the read
/// of this number fails, and written in pieces of seven bytes into so much room; the call of this number on the sink fails.
fn broken_answer(
    alloc: Global,
    keys: RandomState,
    text: &str,
    input: &str,
    read: u32,
    call: u32,
    room: usize,
) -> Result<(Status, MemorySink), Memory> {
    let words = words(alloc, text)?;
    let bytes = input.as_bytes().to_vec(alloc)?;
    let mut source = MemorySource::new(bytes, 1, [read].to_vec(alloc)?);
    let mut sink = MemorySink::with_room(alloc, room, 7, [call].to_vec(alloc)?)?;
    let status = run(alloc, keys, &words, &mut source, &mut sink);
    Ok((status, sink))
}

/// Nothing is written where a read fails, the last one too, which finds the end.
#[test]
fn each_read_fails_in_turn(rt: HostRuntime) -> Result<(), Fail> {
    let keys = RandomState::new(&rt)?;
    for (text, input, status, want) in &OVER_BROKEN_STREAMS {
        let mut ended = Status::ReadFault;
        for read in 1..400 {
            if ended != Status::ReadFault {
                break;
            }
            let (status, sink) = broken_answer(rt.alloc(), keys, text, input, read, 0, 500)?;
            ended = status;
            let written = if ended == Status::ReadFault { "" } else { want };
            assert_eq!(rt; sink.bytes(), written.as_bytes(), "{text}: read {read}");
        }
        assert_eq!(rt; ended, *status, "{text}");
    }
    Ok(())
}

/// A proper front is written where a write fails, and the whole text where the flush does.
#[test]
fn each_write_and_the_flush_fail_in_turn(rt: HostRuntime) -> Result<(), Fail> {
    let keys = RandomState::new(&rt)?;
    for (text, input, status, want) in &OVER_BROKEN_STREAMS {
        let mut ended = Status::WriteFault;
        let mut whole: u32 = 0;
        for call in 1..400 {
            if ended != Status::WriteFault {
                break;
            }
            let (status, sink) = broken_answer(rt.alloc(), keys, text, input, 0, call, 500)?;
            ended = status;
            assert!(rt;
                want.as_bytes().starts_with(sink.bytes()),
                "{text}: call {call}"
            );
            if sink.bytes().len() == want.len() {
                whole = whole.saturating_add(1);
            }
        }
        assert_eq!(rt; ended, *status, "{text}");
        assert_eq!(rt; whole, 2, "{text}: the run whose flush fails, and the last");
    }
    Ok(())
}

#[test]
fn room_for_ten_bytes(rt: HostRuntime) -> Result<(), Fail> {
    let keys = RandomState::new(&rt)?;
    for (text, input, _, want) in &OVER_BROKEN_STREAMS {
        let (ended, sink) = broken_answer(rt.alloc(), keys, text, input, 0, 0, 10)?;
        assert_eq!(rt; ended, Status::WriteFault, "{text}");
        assert_eq!(rt; sink.bytes().len(), 10, "{text}");
        assert!(rt; want.as_bytes().starts_with(sink.bytes()), "{text}");
    }
    Ok(())
}

/// One level of 100,000 pieces, and 100,000 levels of one piece each and no member.
#[test]
fn a_hundred_thousand_pieces_and_levels(rt: HostRuntime) -> Result<(), Fail> {
    let keys = RandomState::new(&rt)?;
    let cases = [
        (
            "level 100000 100000\n",
            "",
            "member a\n",
            Status::Done,
            "accepted\n",
        ),
        ("", "level 1 1\n", "", Status::No, "K3 job a\n"),
    ];
    for (first, each, last, status, want) in cases {
        let mut input = format!(in rt.alloc();
            "job a 0 100000 100000\nslot a 0 100000 100000\n{first}"
        )?;
        for time in 0..100_000 {
            let line = format!(in rt.alloc(); "{each}piece {time} {}\n", time + 1)?;
            input.push_str(&line)?;
        }
        input.push_str(last)?;
        let mut source = MemorySource::new(input.into_bytes(), 65_536, Vec::new(rt.alloc()));
        let mut sink = MemorySink::with_room(rt.alloc(), 100, 100, Vec::new(rt.alloc()))?;
        let words = words(rt.alloc(), "check")?;
        assert_eq!(rt;
            run(rt.alloc(), keys, &words, &mut source, &mut sink),
            status
        );
        assert_eq!(rt; sink.bytes(), want.as_bytes());
    }
    Ok(())
}

#[test]
fn words_that_name_no_command_leave_the_source_unread(rt: HostRuntime) -> Result<(), Fail> {
    let keys = RandomState::new(&rt)?;
    let words = words(rt.alloc(), "plan plan")?;
    let mut source = source(rt.alloc(), ONE_JOB, 0)?;
    let mut sink = MemorySink::with_room(rt.alloc(), 500, 500, Vec::new(rt.alloc()))?;
    assert_eq!(rt;
        run(rt.alloc(), keys, &words, &mut source, &mut sink),
        Status::Usage
    );
    let left = read_all(rt.alloc(), &mut source, 100)?;
    assert_eq!(rt; left.as_slice(), ONE_JOB);
    Ok(())
}

//! One table of refusals, a document that is read and printed again, and one with an answer.
use std::alloc::Global;
use std::hash::RandomState;
use std::process::Abort;
use std::test::Fail;
use yds_certificate::Certificate;
use yds_document::{DocFault, Document, Reason, print, read_document, write_mixed};
use yds_fraction::{Amount, Moment};
use yds_model::limits::MAX_BYTES;
use yds_port::MemorySink;
use yds_slots::{Schedule, Slot};

/// Documents with a fault for each reason but two, with its line and column; and two that are read.
pub static REFUSALS: [(&str, Option<(u32, u32, Reason)>); 16] = [
    ("jobs a 0 4 8\n", Some((1, 1, Reason::UnknownKind))),
    ("# a\n\nrun a 0 1 1\n", Some((3, 1, Reason::Misplaced))),
    ("\tticks  4 5\n", Some((1, 11, Reason::FieldCount))),
    ("level 9\nenergy x\n", Some((1, 8, Reason::FieldCount))),
    ("level 4 4\nmember \u{7f}\n", Some((2, 8, Reason::BadName))),
    (
        "job a 0 4 8\njob a 0 4 8\n",
        Some((2, 5, Reason::DuplicateName)),
    ),
    ("level 4 4\nmember b\n", Some((2, 8, Reason::UnknownName))),
    ("job a 01 4 8\n", Some((1, 7, Reason::BadNumber))),
    ("energy 1+2/2\n", Some((1, 8, Reason::OutOfRange))),
    ("job a 4 4 8\n", Some((1, 9, Reason::EmptyWindow))),
    (
        "job a 0 4 8\nslot a 0+1/2 1+1/3 1\n",
        Some((2, 14, Reason::MixedEnds)),
    ),
    (
        "job a 0 4 8\nslot a 0 1 0+1/2\nslot a 1 2 0+1/3\n",
        Some((3, 12, Reason::MixedGrain)),
    ),
    ("point 1 1\n", Some((1, 7, Reason::NoIdle))),
    ("point 0 0\npoint 0 1\n", Some((2, 7, Reason::NotRising))),
    ("job a 0 4 0\n", None),
    ("level 4 4\npiece 2 2\npiece 3 1\n", None),
];

/// Where the text is refused, and why.
fn refusal(
    rt: &impl Abort,
    alloc: Global,
    keys: RandomState,
    text: &str,
) -> Option<(u32, u32, Reason)> {
    assert!(rt; text.len() <= MAX_BYTES);
    match read_document(alloc, keys, text.as_bytes()) {
        Ok(_) | Err(DocFault::Memory) => None,
        Err(
            DocFault::At {
                line,
                column,
                reason,
            },
        ) => Some((line, column, reason)),
    }
}

#[test]
fn the_first_fault_is_told_with_its_place(rt: HostRuntime) -> Result<(), Fail> {
    let keys = RandomState::new(&rt)?;
    for (text, fault) in &REFUSALS {
        assert_eq!(rt; refusal(&rt, rt.alloc(), keys, text), *fault, "{text}");
    }
    Ok(())
}

#[test]
fn a_document_of_each_kind_is_printed_as_it_is_read(rt: HostRuntime) -> Result<(), Fail> {
    let text =
        b"# all kinds\njob a 0 4 8\npoint 0 1\npoint 3 5\nticks 2\nrun a 0 8 2\nlevel 8 4\npiece 0 4\nmember a\ngrid 5 1\nenergy 3+2/4\n";
    let printed =
        b"job a 0 4 8\npoint 0 1\npoint 3 5\nslot a 0 4 8\nlevel 8 4\npiece 0 4\nmember a\ngrid 5 1\nenergy 3+2/4\n";
    let mut sink = MemorySink::with_room(rt.alloc(), 200, 200, Vec::new(rt.alloc()))?;
    let document = read_document(rt.alloc(), RandomState::new(&rt)?, text)?;
    print(&document, &mut sink)?;
    assert_eq!(rt; sink.bytes(), printed.as_slice());
    Ok(())
}

/// The document's slot and grid give way to those of the answer.
#[test]
fn a_document_with_an_answer(rt: HostRuntime) -> Result<(), Fail> {
    let text = b"job a 0 3 2\nslot a 0 3 2\ngrid 5 1\n";
    let printed = b"job a 0 3 2\nslot a 1 1+4/6 0+1/2\nenergy 3+2/4\n";
    let mut sink = MemorySink::with_room(rt.alloc(), 200, 200, Vec::new(rt.alloc()))?;
    let document = read_document(rt.alloc(), RandomState::new(&rt)?, text)?;
    assert_eq!(rt; document.instance.rows().len(), 1);
    let mut schedule = Schedule::new(rt.alloc(), 1)?;
    schedule.push(Slot {
        job: 0,
        from: Moment::from_whole(1),
        to: Moment::new(1, 4, 6),
        work: Amount::new(0, 1, 2),
    })?;
    let energy = Amount::new(3, 2, 4);
    let answer = document.with_answer(schedule, Certificate::new(rt.alloc()), None, Some(energy));
    print(&answer, &mut sink)?;
    assert_eq!(rt; sink.bytes(), printed.as_slice());
    Ok(())
}

#[test]
fn fractions_as_they_are_written(rt: HostRuntime) -> Result<(), Fail> {
    let mut sink = MemorySink::with_room(rt.alloc(), 20, 20, Vec::new(rt.alloc()))?;
    write_mixed(Amount::from_whole(70), &mut sink)?;
    assert_eq!(rt; sink.bytes(), b"70".as_slice());
    write_mixed(Amount::new(1, 4, 6), &mut sink)?;
    assert_eq!(rt; sink.bytes(), b"701+4/6".as_slice());
    Ok(())
}

/// As many jobs as a document holds: with ample memory all are read, on plain lines and on others.
#[test]
fn four_thousand_jobs_are_read(rt: HostRuntime) -> Result<(), Fail> {
    let mut text = String::new(rt.alloc());
    for job in 0..2_000 {
        write!(text, "job  a{job} 0 4 8\njob b{job} 0 4 8\n")?;
    }
    assert!(rt; text.len() <= MAX_BYTES);
    let document = read_document(rt.alloc(), RandomState::new(&rt)?, text.as_bytes())?;
    assert_eq!(rt; document.instance.rows().len(), 4_000);
    Ok(())
}

//! The report of the levels of three jobs, of two and of none, worked by hand.
ghost use Rattle.std.specs.Prelude.{◌≡◌, ◌≤◌, []};

use std::alloc::Global;
use std::hash::RandomState;
use std::test::Fail;
use yds_certificate::{Certificate, Level};
use yds_document::read_document;
use yds_port::MemorySink;
use yds_report::{json, report};

fn level(alloc: Global, work: u64, length: u64) -> Level
    requires some { 1 ≤ work }
    requires work { work ≤ 8 }
    requires has_length { 1 ≤ length }
    requires length { length ≤ 8 }
    ensures { result ≡ record { work = work; length = length; pieces = []; members = [] } }
{
    Level {
        work,
        length,
        pieces: Vec::new(alloc),
        members: Vec::new(alloc),
    }
}

#[test]
fn levels_are_reported_one_by_one(rt: HostRuntime) -> Result<(), Fail> {
    let alloc = rt.alloc();
    let text = "job a 0 12 4\njob b 2 10 8\njob c 4 6 6\n";
    let want =
        "jobs 3 work 18 from 0 to 12\n    1          6          2 3\n    2          8          6 1+1/3\n    3          4          4 1\nidle 0\n";
    let mut certificate = Certificate::new(alloc);
    certificate.push(level(alloc, 6, 2))?;
    certificate.push(level(alloc, 8, 6))?;
    certificate.push(level(alloc, 4, 4))?;
    let document = read_document(alloc, RandomState::new(&rt)?, text.as_bytes())?;
    let mut sink = MemorySink::with_room(alloc, 300, 300, Vec::new(alloc))?;
    report(&document, &certificate, &mut sink)?;
    assert_eq!(rt; sink.bytes(), want.as_bytes());
    Ok(())
}

#[test]
fn no_levels_are_reported_as_no_work(rt: HostRuntime) -> Result<(), Fail> {
    let alloc = rt.alloc();
    let document = read_document(alloc, RandomState::new(&rt)?, b"")?;
    let mut sink = MemorySink::with_room(alloc, 300, 300, Vec::new(alloc))?;
    report(&document, &Certificate::new(alloc), &mut sink)?;
    assert_eq!(rt;
        sink.bytes(),
        b"jobs 0 work 0 from 0 to 0\nidle 0\n".as_slice()
    );
    Ok(())
}

#[test]
fn levels_are_told_as_json(rt: HostRuntime) -> Result<(), Fail> {
    let alloc = rt.alloc();
    let text = "job a 0 2 4\njob b 6 8 1\n";
    let want =
        "{\"from\":0,\"idle\":4,\"jobs\":2,\"levels\":[{\"length\":2,\"speed\":\"2\",\"work\":4},{\"length\":2,\"speed\":\"0+1/2\",\"work\":1}],\"to\":8,\"work\":5}\n";
    let mut certificate = Certificate::new(alloc);
    certificate.push(level(alloc, 4, 2))?;
    certificate.push(level(alloc, 1, 2))?;
    let document = read_document(alloc, RandomState::new(&rt)?, text.as_bytes())?;
    let told = json(alloc, &document, &certificate)?;
    assert_eq!(rt; told.as_slice(), want.as_bytes());
    Ok(())
}

//! What no clause says: that a reader over a source in memory gives these lines, whatever the pieces.
ghost use Rattle.std.specs.Prelude.{◌≤◌};

use std::alloc::{AllocError, Global};
use std::test::Fail;
use yds_kernel::{LineFault, Reason, Said};
use yds_kernel_text::{Advance, TraceReader};
use yds_port::MemorySource;

const SWITCH: &[u8] =
    b"  a-1 [000] d..2. 5.1: sched_switch: prev_comm=a prev_pid=1 prev_prio=9 prev_state=S ==> next_comm=b next_pid=2 next_prio=9\n";

/// A letter for what the line says that was given last: an event, a loss, nothing, or a fault.
fn letter(reader: &TraceReader) -> u8 {
    match reader.said() {
        Ok(Said::Event(_)) => b'e',
        Ok(Said::Lost { .. }) => b'l',
        Ok(Said::Nothing) => b'n',
        Err(_) => b'!',
    }
}

/// The letters of a text's lines, read in pieces of so many bytes, and `.` where the reader told the end behind them.
fn letters(alloc: Global, text: &[u8], piece: usize) -> Result<Vec<u8>, AllocError>
    requires { 1 ≤ piece }
{
    let mut source = MemorySource::new(text.to_vec(alloc)?, piece, Vec::new(alloc));
    let mut reader = TraceReader::new(alloc)?;
    let mut letters = Vec::new(alloc);
    for _ in 0..=text.len() {
        match reader.advance(&mut source) {
            Advance::Line => letters.push(letter(&reader))?,
            Advance::End => {
                letters.push(b'.')?;
                return Ok(letters);
            }
            Advance::Failed | Advance::TooLong => letters.push(b'?')?,
        }
    }
    Ok(letters)
}

#[test]
fn lines_are_the_same_in_whatever_pieces(rt: HostRuntime) -> Result<(), Fail> {
    let mut text = SWITCH.to_vec(rt.alloc())?;
    text.extend_from_slice(
        b"# tracer: nop\r\n\nCPU:3 [LOST 2 EVENTS]\n  b-2 [000] d..2. 5.".as_slice(),
    )?;
    for piece in [1, 7, 65_536] {
        let read = letters(rt.alloc(), &text, piece)?;
        assert_eq!(rt; read.as_slice(), b"ennl!.".as_slice());
    }
    assert_eq!(rt; letters(rt.alloc(), b"", 1)?.as_slice(), b".".as_slice());
    Ok(())
}

#[test]
fn a_long_line_is_passed_over_or_refused(rt: HostRuntime) -> Result<(), Fail> {
    let mut text = Vec::new(rt.alloc());
    text.resize(300_000, b'x')?;
    text.extend_from_slice(b"\n".as_slice())?;
    text.extend_from_slice(SWITCH)?;
    let _feed = text.pop();
    text.resize(400_000, b' ')?;
    text.extend_from_slice(b"\n\n".as_slice())?;
    assert_eq!(rt;
        letters(rt.alloc(), &text, 50_000)?.as_slice(),
        b"n!n.".as_slice()
    );
    Ok(())
}

#[test]
fn a_fault_has_its_line_and_column(rt: HostRuntime) -> Result<(), Fail> {
    let text = b"\n a-1 [0] 5.1: sched_switch: no\n".as_slice();
    let mut source = MemorySource::new(text.to_vec(rt.alloc())?, 9, [5].to_vec(rt.alloc())?);
    let mut reader = TraceReader::new(rt.alloc())?;
    assert_eq!(rt; reader.advance(&mut source), Advance::Line);
    assert_eq!(rt; reader.advance(&mut source), Advance::Line);
    assert_eq!(rt; reader.number(), 2);
    let fault = LineFault {
        column: 29,
        reason: Reason::UnknownSwitch,
    };
    assert_eq!(rt; reader.said(), Err(fault));
    assert_eq!(rt; reader.advance(&mut source), Advance::Failed);
    Ok(())
}

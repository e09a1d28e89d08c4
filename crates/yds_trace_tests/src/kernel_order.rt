//! What no clause says: that a reader over a source in memory gives these lines, whatever the pieces.
ghost use Rattle.std.specs.Prelude.{◌≤◌};

use std::alloc::{AllocError, Global};
use std::test::Fail;
use yds_kernel::{Happening, LineFault, Reason, Said};
use yds_kernel_order::{OrderedReader, Step};
use yds_port::MemorySource;

/// The numbers of a text's lines in order of time, read in pieces of so many bytes, and 0 where the reader told the end behind them.
fn numbers(alloc: Global, text: &[u8], piece: usize) -> Result<Vec<u64>, AllocError>
    requires { 1 ≤ piece }
{
    let mut source = MemorySource::new(text.to_vec(alloc)?, piece, Vec::new(alloc));
    let mut reader = OrderedReader::new(alloc)?;
    let mut numbers = Vec::new(alloc);
    for _ in 0..=text.len() {
        match reader.advance(&mut source) {
            Step::Line => numbers.push(reader.number())?,
            Step::End => {
                numbers.push(0)?;
                return Ok(numbers);
            }
            Step::Refused { .. } | Step::Failed | Step::TooLong | Step::Memory => numbers.push(99)?,
        }
    }
    Ok(numbers)
}

#[test]
fn lines_come_in_order_of_time(rt: HostRuntime) -> Result<(), Fail> {
    let text = b" a-1 [0] 5.000001: x:\n# b\n a-1 [1] 5.000000: x:\n a-1 [1] 5.000001: x:\n";
    for piece in [1, 7, 65_536] {
        let read = numbers(rt.alloc(), text.as_slice(), piece)?;
        assert_eq!(rt; read.as_slice(), [3, 1, 4, 0].as_slice());
    }
    assert_eq!(rt;
        numbers(rt.alloc(), b"# b\n", 1)?.as_slice(),
        [0].as_slice()
    );
    Ok(())
}

#[test]
fn more_than_a_ring_holds_is_given(rt: HostRuntime) -> Result<(), Fail> {
    let mut text = Vec::new(rt.alloc());
    for _ in 0..64 {
        text.extend_from_slice(b" a-1 [0] 5.000001: x:\n".as_slice())?;
    }
    for _ in 0..2 {
        text.extend_from_slice(b" a-1 [1] 5.000000: x:\n".as_slice())?;
    }
    let read = numbers(rt.alloc(), &text, 100)?;
    assert_eq!(rt; read.len(), 67);
    assert_eq!(rt; read[0], 65);
    assert_eq!(rt; read[1], 66);
    assert_eq!(rt; read[2], 1);
    assert_eq!(rt; read[65], 64);
    Ok(())
}

#[test]
fn a_line_too_far_behind_stays(rt: HostRuntime) -> Result<(), Fail> {
    let text = b" a-1 [0] 5.001: x:\n a-1 [1] 5.000: x:\n a-1 [1] 4.999999999: x:\n";
    let read = numbers(rt.alloc(), text.as_slice(), 9)?;
    assert_eq!(rt; read.as_slice(), [2, 1, 3, 0].as_slice());
    Ok(())
}

#[test]
fn nothing_passes_a_loss_line(rt: HostRuntime) -> Result<(), Fail> {
    let text =
        b" a-1 [0] 5.1: x:\nCPU:3 [LOST 2 EVENTS]\n a-1 [1] 5.09999: x:\n a-1 [1] 5.09998: x:\n";
    let read = numbers(rt.alloc(), text.as_slice(), 9)?;
    assert_eq!(rt; read.as_slice(), [1, 2, 4, 3, 0].as_slice());
    Ok(())
}

#[test]
fn names_and_the_fault_behind_them_are_told(rt: HostRuntime) -> Result<(), Fail> {
    let text =
        b" a-1 [0] 5.2: x:\n b-2 [0] 5.1999: sched_waking: comm=cd pid=3 prio=9\n a-1 [0] 5.1: sched_switch: no\n";
    let mut source = MemorySource::new(text.to_vec(rt.alloc())?, 9, Vec::new(rt.alloc()));
    let mut reader = OrderedReader::new(rt.alloc())?;
    assert_eq!(rt; reader.number(), 0);
    assert_eq!(rt; reader.advance(&mut source), Step::Line);
    assert_eq!(rt; reader.number(), 2);
    match reader.said() {
        Said::Event(event) => match event.happening {
            Happening::WakeUp { thread, .. } => assert_eq!(rt; thread.name, b"cd".as_slice()),
            _ => assert!(rt; false),
        },
        Said::Lost { .. } | Said::Nothing => assert!(rt; false),
    }
    assert_eq!(rt; reader.advance(&mut source), Step::Line);
    let fault = LineFault {
        column: 29,
        reason: Reason::UnknownSwitch,
    };
    assert_eq!(rt;
        reader.advance(&mut source),
        Step::Refused { number: 3, fault }
    );
    assert_eq!(rt; reader.number(), 1);
    Ok(())
}

#[test]
fn a_failed_read_is_told(rt: HostRuntime) -> Result<(), Fail> {
    let text = b" a-1 [0] 5.2: x:\n a-1 [0] 5.1999: x:\n";
    let mut source = MemorySource::new(text.to_vec(rt.alloc())?, 9, [2].to_vec(rt.alloc())?);
    let mut reader = OrderedReader::new(rt.alloc())?;
    assert_eq!(rt; reader.advance(&mut source), Step::Failed);
    assert_eq!(rt; reader.said(), Said::Nothing);
    Ok(())
}

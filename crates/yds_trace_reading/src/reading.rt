//! One pass over the lines of a trace.
ghost use Rattle.std.specs.Prelude.{◌≡◌, ◌≤◌, List, [], Err, Some, IfOk, IfErr, IfSome, OnOk};
ghost use Rattle.yds_kernel.specs.Event.{Said as SaidSpec};
ghost use Rattle.yds_kernel_order.specs.Order.{order_of};
ghost use Rattle.yds_kernel_order.specs.Ordering.{number_now, said_now};
ghost use Rattle.yds_port.specs.Count.{Rose};
ghost use Rattle.yds_trace.specs.Asked as asking;
ghost use Rattle.yds_trace.specs.Kept.{IsAt};
ghost use Rattle.yds_trace.specs.Views.{asked_read};
ghost use Rattle.yds_trace_bounds.specs.Bounds.{asked_in};
ghost use Rattle.yds_trace_reading.specs.Reading.{IsEndWithin, IsReadIn, IsStoppedIn, IsRest, IsReadOut};
ghost use Rattle.yds_trace_reading.specs.Taken.{IsTaken, IsNotTaken, IsKnown, IsNotKnown};

use crate::first::begin;
use crate::stopped::Stopped;
use std::alloc::Global;
use yds_kernel_order::{OrderedReader, Step};
use yds_port::{Source, Taken};
use yds_trace::{Asked, Ended, Pass, Refused};
use yds_trace_bounds::Bounds;

/// How many bytes one read of `drain` asks for.
const DRAIN_PIECE: usize = 4_096;

/// What is known at the trace's end, within these bounds, or why its reading ended before that. After a fault the source is still read
/// to its end, so that whoever writes into it isn't stopped.
pub fn read_trace<S: Source>(
    alloc: Global,
    asked: Asked,
    bounds: Bounds,
    source: &mut S,
) -> Result<Ended, Stopped>
    ensures later { S.faults source.old ≤ S.faults source.new }
    ensures no_fault { OnOk result (S.faults source.new ≡ S.faults source.old) }
    ensures fault { result ≡ Err Stopped.ReadFault → Rose (S.faults source.old) (S.faults source.new) }
    ensures known { IfOk result (IsEndWithin bounds (asked_read asked)) }
    ensures read { IfSome (S.left source.old) (λ input. IfOk result (IsReadIn (asked_in bounds (asked_read asked) (order_of input)) input)) }
    ensures stopped { IfSome (S.left source.old) (λ input. IfErr result (IsStoppedIn (asked_in bounds (asked_read asked) (order_of input)) input)) }

    // The source is read to its end, also behind a fault, or up to a fault of its own.
    ensures none_left { IfSome (S.left source.old) (λ input. OnOk result (S.left source.new ≡ Some [])) }
    ensures read_out { IfSome (S.left source.old) (λ input. IsReadOut input (S.left source.new) (S.faults source.old) (S.faults source.new)) }
{
    match pass_over(alloc, asked, bounds, source) {
        Ok(ended) => Ok(ended),
        Err(stopped) => {
            drain(source);
            Err(stopped)
        }
    }
}

/// Passes over the lines up to the end, or up to a fault.
fn pass_over<S: Source>(
    alloc: Global,
    asked: Asked,
    bounds: Bounds,
    source: &mut S,
) -> Result<Ended, Stopped>
    ensures later { S.faults source.old ≤ S.faults source.new }
    ensures no_fault { OnOk result (S.faults source.new ≡ S.faults source.old) }
    ensures fault { result ≡ Err Stopped.ReadFault → Rose (S.faults source.old) (S.faults source.new) }
    ensures known { IfOk result (IsEndWithin bounds (asked_read asked)) }
    ensures read { IfSome (S.left source.old) (λ input. IfOk result (IsReadIn (asked_in bounds (asked_read asked) (order_of input)) input)) }
    ensures stopped { IfSome (S.left source.old) (λ input. IfErr result (IsStoppedIn (asked_in bounds (asked_read asked) (order_of input)) input)) }
    ensures none_left { IfSome (S.left source.old) (λ input. OnOk result (S.left source.new ≡ Some [])) }
    ensures rest { IsRest (S.left source.old) (S.left source.new) }
{
    let mut reader = OrderedReader::new(alloc)?;
    let first = begin(&mut reader, bounds, source)?;
    let mut pass = Pass::new(alloc, bounds.within(asked, first))?;
    for _lines in 0..u64::MAX {
        match reader.advance(source) {
            Step::Line => take_line(alloc, &reader, &mut pass)?,
            Step::End => return end(alloc, reader.number(), pass),
            Step::Refused { number, fault } => return Err(Stopped::InForm { number, fault }),
            Step::Failed => return Err(Stopped::ReadFault),
            Step::TooLong => return Err(Stopped::TooLong),
            Step::Memory => return Err(Stopped::Memory),
        }
    }
    Err(Stopped::TooLong)
}

/// Takes the line that was given last.
fn take_line(alloc: Global, reader: &OrderedReader, pass: &mut Pass) -> Result<(), Stopped>
    ensures taken { (asked : asking.Asked) (past : List SaidSpec) → IsAt asked past pass.old → OnOk result (IsTaken asked past (said_now reader.now) pass.new) }
    ensures refused { (asked : asking.Asked) (past : List SaidSpec) → IsAt asked past pass.old
        → IfErr result (IsNotTaken asked past (number_now reader.now) (said_now reader.now)) }
{
    let number = reader.number();
    match pass.take(alloc, reader.said()) {
        Ok(()) => Ok(()),
        Err(Refused::Fault(cause)) => Err(Stopped::AtLine { number, cause }),
        Err(Refused::Memory) => Err(Stopped::Memory),
    }
}

/// What is known behind the last line, which has this number.
fn end(alloc: Global, number: u64, pass: Pass) -> Result<Ended, Stopped>
    ensures known { (asked : asking.Asked) (past : List SaidSpec) → IsAt asked past pass → IfOk result (IsKnown asked past) }
    ensures refused { (asked : asking.Asked) (past : List SaidSpec) → IsAt asked past pass → IfErr result (IsNotKnown asked past number) }
{
    match pass.end(alloc) {
        Ok(ended) => Ok(ended),
        Err(Refused::Fault(cause)) => Err(Stopped::AtLine { number, cause }),
        Err(Refused::Memory) => Err(Stopped::Memory),
    }
}

/// Reads what is left of a source, so that whoever writes into it isn't stopped. It takes no memory. It ends where a read fails.
pub fn drain<S: Source>(source: &mut S)
    ensures later { S.faults source.old ≤ S.faults source.new }
    ensures read_out { IfSome (S.left source.old) (λ input. IsReadOut input (S.left source.new) (S.faults source.old) (S.faults source.new)) }
{
    let mut piece = [0; DRAIN_PIECE];
    for _reads in 0..u64::MAX {
        match source.read(&mut piece) {
            Taken::Bytes(_) => {}
            Taken::End => return,
            Taken::Failed => return,
        }
    }
}

//! A source of lines and a sink of their table.
ghost use Rattle.std.specs.Prelude.{◌≡◌, ◌≢◌, ◌≤◌, ◌<◌, List, [], Err, Some, IfSome, IfOk, IfErr, OnOk};
ghost use Rattle.yds_port.specs.Count.{Rose};
ghost use Rattle.yds_kernel.specs.Event as trace;
ghost use Rattle.yds_kernel_order.specs.Ordering.{number_now, said_now};
ghost use Rattle.yds_trace_reading.specs.Reading.{IsRest, IsReadOut};
ghost use Rattle.yds_trace_threads.specs.Telling.{IsMade, IsHalted, Writes};
ghost use Rattle.yds_trace_threads.specs.Kept.{IsTally, IsTaken, IsNotTaken, IsTable, IsNoTable};

use crate::halt::Halt;
use crate::tally::Tally;
use std::alloc::Global;
use std::hash::RandomState;
use yds_kernel_order::{OrderedReader, Step};
use yds_port::{Sink, Source, write_all};
use yds_trace::Refused;
use yds_trace_reading::drain;

/// Reads a trace in one pass and writes the table of its threads, in order of the time that they ran. Threads are looked up with
/// these keys, on which no answer depends. The sink isn't flushed. The source is read to its end also where the table isn't made,
/// so that whoever writes into it isn't stopped.
pub fn tell_threads<S: Source, K: Sink>(
    alloc: Global,
    keys: RandomState,
    source: &mut S,
    sink: &mut K,
) -> Result<(), Halt>
    ensures source_later { S.faults source.old ≤ S.faults source.new }
    ensures sink_later { K.faults sink.old ≤ K.faults sink.new }
    ensures no_fault { OnOk result (S.faults source.new ≡ S.faults source.old) }
    ensures read_fault { result ≡ Err Halt.ReadFault → Rose (S.faults source.old) (S.faults source.new) }
    ensures write_fault { result ≡ Err Halt.WriteFault → Rose (K.faults sink.old) (K.faults sink.new) }
    ensures sink_rose { K.faults sink.old < K.faults sink.new → result ≡ Err Halt.WriteFault }
    ensures flushed_stays { K.flushed sink.new ≡ K.flushed sink.old }
    ensures flushes_stay { K.flushes sink.new ≡ K.flushes sink.old }
    ensures told { IfSome (S.left source.old) (λ input. Writes input result (K.written sink.old) (K.written sink.new)) }
    ensures none_left { IfSome (S.left source.old) (λ input. OnOk result (S.left source.new ≡ Some [])) }
    ensures read_out { IfSome (S.left source.old) (λ input. IsReadOut input (S.left source.new) (S.faults source.old) (S.faults source.new)) }
{
    match read_table(alloc, keys, source) {
        Ok(text) => {
            write_all(sink, &text)?;
            Ok(())
        }
        Err(halt) => {
            drain(source);
            Err(halt)
        }
    }
}

/// The table of a trace's threads, or why there is none.
fn read_table<S: Source>(alloc: Global, keys: RandomState, source: &mut S) -> Result<Vec<u8>, Halt>
    ensures later { S.faults source.old ≤ S.faults source.new }
    ensures no_fault { OnOk result (S.faults source.new ≡ S.faults source.old) }
    ensures fault { result ≡ Err Halt.ReadFault → Rose (S.faults source.old) (S.faults source.new) }
    ensures no_write { IfErr result (λ halt. halt ≢ Halt.WriteFault) }
    ensures made { IfSome (S.left source.old) (λ input. IfOk result (λ text. IsMade input text.items)) }
    ensures halted { IfSome (S.left source.old) (λ input. IfErr result (IsHalted input)) }
    ensures none_left { IfSome (S.left source.old) (λ input. OnOk result (S.left source.new ≡ Some [])) }
    ensures rest { IsRest (S.left source.old) (S.left source.new) }
{
    let mut reader = OrderedReader::new(alloc)?;
    let mut tally = Tally::new(alloc, keys)?;
    for _lines in 0..u64::MAX {
        match reader.advance(source) {
            Step::Line => take_line(alloc, &reader, &mut tally)?,
            Step::End => return table(alloc, reader.number(), tally),
            Step::Refused { number, fault } => return Err(Halt::InForm { number, fault }),
            Step::Failed => return Err(Halt::ReadFault),
            Step::TooLong => return Err(Halt::Endless),
            Step::Memory => return Err(Halt::Memory),
        }
    }
    Err(Halt::Endless)
}

/// Takes the line that was given last.
fn take_line(alloc: Global, reader: &OrderedReader, tally: &mut Tally) -> Result<(), Halt>
    ensures taken { (past : List trace.Said) → IsTally past tally.old → OnOk result (IsTaken past (said_now reader.now) tally.new) }
    ensures refused { (past : List trace.Said) → IsTally past tally.old → IfErr result (IsNotTaken past (number_now reader.now) (said_now reader.now)) }
    ensures no_write { IfErr result (λ halt. halt ≢ Halt.WriteFault) }
{
    let number = reader.number();
    match tally.take(alloc, &reader.said()) {
        Ok(()) => Ok(()),
        Err(Refused::Fault(cause)) => Err(Halt::AtLine { number, cause }),
        Err(Refused::Memory) => Err(Halt::Memory),
    }
}

/// The table behind the last line, which has this number.
fn table(alloc: Global, number: u64, tally: Tally) -> Result<Vec<u8>, Halt>
    ensures made { (past : List trace.Said) → IsTally past tally → IfOk result (λ text. IsTable past text.items) }
    ensures refused { (past : List trace.Said) → IsTally past tally → IfErr result (IsNoTable past number) }
    ensures no_write { IfErr result (λ halt. halt ≢ Halt.WriteFault) }
{
    match tally.table(alloc) {
        Ok(text) => Ok(text),
        Err(Refused::Fault(cause)) => Err(Halt::AtLine { number, cause }),
        Err(Refused::Memory) => Err(Halt::Memory),
    }
}

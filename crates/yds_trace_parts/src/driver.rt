//! A source of lines and a sink of parts.
ghost use Rattle.std.specs.Prelude.{◌≡◌, ◌≢◌, ◌+◌, ◌≤◌, ◌<◌, ℕ, List, [], ◌∷◌, Bool, Err, None, Some, IfSome, IfOk, IfErr, OnOk, length};
ghost use Rattle.yds_port.specs.Count.{Rose};
ghost use Rattle.yds_kernel.specs.Event as trace;
ghost use Rattle.yds_kernel.specs.Parts.{or_else};
ghost use Rattle.yds_kernel_order.specs.Order.{order_of};
ghost use Rattle.yds_kernel_order.specs.Ordering.{number_now, said_now};
ghost use Rattle.yds_trace.specs.Asked as asking;
ghost use Rattle.yds_trace.specs.Faults.{whole_fault};
ghost use Rattle.yds_trace.specs.Kept.{told_to_forget};
ghost use Rattle.yds_trace.specs.Parts as parts;
ghost use Rattle.yds_trace.specs.Views.{asked_read};
ghost use Rattle.yds_trace_bounds.specs.Bounds.{asked_from, asked_in};
ghost use Rattle.yds_trace_reading.specs.LineFault.{past_of};
ghost use Rattle.yds_trace_reading.specs.Reading.{IsReadOut};
ghost use Rattle.yds_trace_parts.specs.Plain.{HasRoom, IsGranted, IsPlainPass};
ghost use Rattle.yds_trace_parts.specs.Telling.{IsTelling, IsHaltFor, IsEnd, Adds, at_number};
ghost use Rattle.yds_trace_parts.specs.Told.{told_after, at_line, last_piece};
ghost use Rattle.yds_trace_parts.specs.Flushing.{count_on, times_told, IsFlushedSince, PassesOn};
ghost use Rattle.yds_trace_parts.specs.Driving.{WritesIn, Tells};

use crate::halt::Halt;
use crate::limits::MOST_LINES;
use crate::telling::Telling;
use std::alloc::Global;
use yds_kernel_order::{OrderedReader, Step};
use yds_port::{Flushed, Sink, Source, write_all};
use yds_trace::Asked;
use yds_trace_bounds::Bounds;
use yds_trace_reading::{begin, drain};

/// Reads a trace in one pass and writes its parts within these bounds, each as soon as it is whole, and flushes the sink behind
/// them, so that who follows a trace has each part then. The last parts, behind the trace's end, aren't flushed. A flush that fails
/// is a failed write. Where it ends before the trace does, the source is still read to its end, so that whoever writes into it
/// isn't stopped; not so where a write failed.
pub fn tell_parts<S: Source, K: Sink>(
    alloc: Global,
    asked: Asked,
    bounds: Bounds,
    strict: bool,
    source: &mut S,
    sink: &mut K,
) -> Result<(), Halt>
    requires { (first : ℕ) → IsGranted (asked_from first bounds (asked_read asked)) }
    ensures source_later { S.faults source.old ≤ S.faults source.new }
    ensures sink_later { K.faults sink.old ≤ K.faults sink.new }
    ensures no_fault { OnOk result (S.faults source.new ≡ S.faults source.old) }
    ensures read_fault { result ≡ Err Halt.ReadFault → Rose (S.faults source.old) (S.faults source.new) }
    ensures write_fault { result ≡ Err Halt.WriteFault → Rose (K.faults sink.old) (K.faults sink.new) }
    ensures sink_rose { K.faults sink.old < K.faults sink.new → result ≡ Err Halt.WriteFault }
    // Where it ends before the trace does, all that was written is flushed: each read may be the one that fails.
    ensures all_flushed { IfErr result (λ halt. halt ≢ Halt.WriteFault → IsFlushedSince K.written K.flushed sink.old sink.new) }
    ensures flushed_so_often { result ≢ Err Halt.WriteFault → (times : ℕ) × (K.flushes sink.new ≡ count_on times (K.flushes sink.old)) }
    ensures flushed_behind_each { IfSome (S.left source.old) (λ input. IfSome (asked_in bounds (asked_read asked) (order_of input)) (λ within.
        OnOk result (K.flushes sink.new ≡ count_on (times_told within strict (past_of (order_of input))) (K.flushes sink.old)))) }
    ensures told { IfSome (S.left source.old) (λ input.
        WritesIn (asked_in bounds (asked_read asked) (order_of input)) strict input result (K.written sink.old) (K.written sink.new)) }
    ensures none_left { IfSome (S.left source.old) (λ input. OnOk result (S.left source.new ≡ Some [])) }
    ensures read_out { result ≢ Err Halt.WriteFault
        → IfSome (S.left source.old) (λ input. IsReadOut input (S.left source.new) (S.faults source.old) (S.faults source.new)) }
{
    match tell(alloc, asked, bounds, strict, source, sink) {
        Ok(()) => Ok(()),
        Err(Halt::WriteFault) => Err(Halt::WriteFault),
        Err(halt) => {
            drain(source);
            Err(halt)
        }
    }
}

/// Writes the parts up to the end, or up to what halts it.
fn tell<S: Source, K: Sink>(
    alloc: Global,
    asked: Asked,
    bounds: Bounds,
    strict: bool,
    source: &mut S,
    sink: &mut K,
) -> Result<(), Halt>
    requires { (first : ℕ) → IsGranted (asked_from first bounds (asked_read asked)) }
    ensures { Tells S.left S.faults K.written K.flushed K.flushes K.faults bounds (asked_read asked) strict result source.old source.new sink.old sink.new }
{
    let mut reader = OrderedReader::new(alloc)?;
    let first = begin(&mut reader, bounds, source)?;
    let mut telling = Telling::new(alloc, bounds.within(asked, first), strict)?;
    for lines in 0..MOST_LINES {
        match reader.advance(source) {
            Step::Line => {
                let pieces = take_line(alloc, &reader, lines + 1, &mut telling)?;
                pass_on(&pieces, sink)?;
            }
            Step::End => {
                let text = end(alloc, &reader, lines, &mut telling)?;
                write_all(sink, &text)?;
                return Ok(());
            }
            Step::Refused { number, fault } => return Err(Halt::InForm { number, fault }),
            Step::Failed => return Err(Halt::ReadFault),
            Step::TooLong => return Err(Halt::Endless),
            Step::Memory => return Err(Halt::Memory),
        }
    }
    Err(Halt::Endless)
}

/// Writes the texts of parts that are whole and flushes the sink behind them. Without a text the sink is left as it is.
fn pass_on<K: Sink>(text: &[u8], sink: &mut K) -> Result<(), Halt>
    ensures { PassesOn K.written K.flushed K.flushes K.faults text.now result sink.old sink.new }
{
    if text.is_empty() {
        return Ok(());
    }
    write_all(sink, text)?;
    match sink.flush() {
        Flushed::Done => Ok(()),
        Flushed::Failed => Err(Halt::WriteFault),
    }
}

/// Takes the line that was given last, at this place in order of time. It gives the texts of the parts that are whole with it, or
/// tells by its number in the text why the trace isn't told further.
fn take_line(
    alloc: Global,
    reader: &OrderedReader,
    place: u64,
    telling: &mut Telling,
) -> Result<Vec<u8>, Halt>
    requires { HasRoom (told_to_forget telling.old.pass) telling.old.pass }
    ensures told { (asked : asking.Asked) (strict : Bool) (past : List trace.Said) → IsTelling asked strict past telling.old → place ≡ length past + 1
        → OnOk result (IsTelling asked strict (said_now reader.now ∷ past) telling.new) }
    ensures adds { (asked : asking.Asked) (strict : Bool) (past : List trace.Said) → IsTelling asked strict past telling.old → place ≡ length past + 1
        → IfOk result (λ piece. Adds asked strict past (said_now reader.now ∷ past) piece.items) }
    ensures halts { (asked : asking.Asked) (strict : Bool) (past : List trace.Said) → IsTelling asked strict past telling.old → place ≡ length past + 1
        → IfErr result (IsHaltFor (at_number (number_now reader.now) (told_after asked strict (said_now reader.now ∷ past)).halt)) }
{
    match telling.take(alloc, place, reader.said()) {
        Ok(pieces) => Ok(pieces),
        Err(halt) => Err(halt.with_number(reader.number())),
    }
}

/// Ends behind the last line, at this place in order of time. It gives the texts of the last parts, or tells by that line's number
/// in the text why there is none.
fn end(
    alloc: Global,
    reader: &OrderedReader,
    place: u64,
    telling: &mut Telling,
) -> Result<Vec<u8>, Halt>
    requires { IsPlainPass (told_to_forget telling.old.pass) telling.old.pass }
    ensures told { (asked : asking.Asked) (strict : Bool) (past : List trace.Said) → IsTelling asked strict past telling.old → place ≡ length past
        → IfOk result (λ text. IsEnd asked strict past text.items) }
    ensures sound { (asked : asking.Asked) (strict : Bool) (past : List trace.Said) → IsTelling asked strict past telling.old → place ≡ length past
        → OnOk result (whole_fault asked past ≡ None) }
    ensures halts { (asked : asking.Asked) (strict : Bool) (past : List trace.Said) → IsTelling asked strict past telling.old → place ≡ length past
        → IfErr result (IsHaltFor (at_number (number_now reader.now)
        (or_else (at_line place (whole_fault asked past)) (last_piece asked strict past (parts.processors_of asked past)).halt))) }
{
    match telling.end(alloc, place) {
        Ok(text) => Ok(text),
        Err(halt) => Err(halt.with_number(reader.number())),
    }
}

//! The run of the program.
ghost use Rattle.std.specs.Prelude.{◌≡◌, ◌≢◌, ◌<◌, ◌≤◌, ℕ, List, [], Ok, IfSome, Bool, true, false};
ghost use Rattle.yds_port.specs.Count.{Rose, next_count};
ghost use Rattle.yds_kernel_order.specs.Order.{order_of};
ghost use Rattle.yds_trace_words.specs.Request.{request_of, ReadTrace, ListThreads, IsFit};
ghost use Rattle.yds_trace_words.specs.Views.{words_of};
ghost use Rattle.yds_trace_reading.specs.LineFault.{past_of};
ghost use Rattle.yds_trace_document.specs.Kept.{IsPlain};
ghost use Rattle.yds_trace_parts.specs.Flushing.{count_on, times_told};
ghost use Rattle.yds_trace.specs.Views.{asked_read};
ghost use Rattle.yds_trace_bounds.specs.Bounds.{asked_from, asked_in};
ghost use Rattle.yds_trace_run.specs.Answer.{ReadsInput, TellsParts};
ghost use Rattle.yds_trace_run.specs.Endings.{Writes, IsEnded, IsDelivered, Tells, TellsHalt, TellsStop, Leaves, stopped_of, stopped_text, stopped_status};
ghost use Rattle.yds_trace_files.specs.Unread.{unread_read};
ghost use Rattle.yds_trace_run.specs.Worth.{HoldsWithin, OfTrace, OfAppended, IsWorth};

use crate::delivery::deliver;
use crate::fault_text::{
    MEMORY, NO_FIRST, TEXT_TOO_LONG, TOO_LONG, cause_line, document_line, form_line,
    long_part_line, not_known_line, not_known_part_line, part_line, place_line,
};
use arrayvec::ArrayString;
use std::alloc::Global;
use std::hash::RandomState;
use yds_model::Status;
use yds_port::Sink;
use yds_trace::{Asked, Ended};
use yds_trace_bounds::Bounds;
use yds_trace_files::{Input, Unread, read_fault_line};
use yds_trace_parts::{Halt, tell_parts};
use yds_trace_reading::{Stopped, read_trace};
use yds_trace_text::{NoText, document_text};
use yds_trace_threads as threads;
use yds_trace_threads::tell_threads;
use yds_trace_words::{HELP, LINE_BYTES, NoRequest, Request, VERSION, fault_line, read_words};

/// Runs what the words ask for: reads the source to its end in one pass, writes the text and flushes the sink: once behind the text, and
/// in parts also behind each line with which parts are whole, so that who follows a trace has each part then.
///
/// - `Done`: the text of a document, of all parts of a trace, of its threads, of `--help` or of `--version` was written whole.
/// - `Usage`: the words can't be taken. The source isn't read.
/// - `Refused`: the trace has a fault, or its document or a part passes a limit. Just a comment with the place, the cause and what
///   to do was written, and the line `failed`; in parts, behind those that were whole before. The source was read to its end, or up
///   to a fault of its own.
/// - `ReadFault`, `Memory`: the input couldn't be read, or memory ran out. A comment says so, and where the source names it, which file
///   couldn't be read; the last line is `failed`. In parts, this stands behind those of some lines.
/// - `WriteFault`: a front of one of these texts was written.
///
/// The lines of a trace are taken in order of time, and a line is told by its number in the text. Bounds may count from the first
/// event. Where the first line then tells of lost events, one of those may have been that event, and the trace is refused.
///
/// The source and the sink need not tell their bytes. Where both do, what was written is what the definitions say of the words and
/// of all bytes of the source. The code is one for all sources and sinks. Threads are looked up with these keys, on which no
/// answer depends.
pub fn run<S: Input, K: Sink>(
    alloc: Global,
    keys: RandomState,
    words: &[String],
    source: &mut S,
    sink: &mut K,
) -> Status
    // The counts of faults tell the faults of the source and of the sink.
    ensures source_later { S.faults source.old ≤ S.faults source.new }
    ensures sink_later { K.faults sink.old ≤ K.faults sink.new }
    ensures read_fault { result ≡ Status.ReadFault → Rose (S.faults source.old) (S.faults source.new) }
    ensures write_fault { result ≡ Status.WriteFault → Rose (K.faults sink.old) (K.faults sink.new) }
    ensures sink_rose { K.faults sink.old < K.faults sink.new → result ≡ Status.WriteFault }
    ensures no_fault_passed_over { result ≡ Status.Done → S.faults source.new ≡ S.faults source.old }

    // Words that ask for no trace leave the source unread. A trace that was told or refused was read to its end, also behind the line
    // that was refused, so that whoever writes into the source isn't stopped.
    ensures unread { ¬ ReadsInput (request_of (words_of words.now)) → source.new ≡ source.old }
    ensures read_to_its_end { ReadsInput (request_of (words_of words.now))
        → IfSome (S.left source.old) (λ input. Leaves result input (S.left source.new) (S.faults source.old) (S.faults source.new)) }
    ensures flushed { result ≢ Status.WriteFault → next_count (K.flushes sink.old) ≤ K.flushes sink.new }
    ensures flushed_once { ¬ TellsParts (request_of (words_of words.now)) → result ≢ Status.WriteFault → K.flushes sink.new ≡ next_count (K.flushes sink.old) }
    ensures flushed_behind_each { result ≡ Status.Done → TellsParts (request_of (words_of words.now))
        → OfTrace (request_of (words_of words.now)) (S.left source.old) (λ within strict past. K.flushes sink.new ≡ next_count (count_on (times_told within strict past) (K.flushes sink.old))) }

    // What was written is one of the texts for the words and all bytes of the source: the document with its status, or why there is none.
    ensures answer { IfSome (S.left source.old) (λ input.
        Writes (S.unread source.new) (request_of (words_of words.now)) input result (K.written sink.old) (K.written sink.new) (K.flushed sink.new)) }

    // What was written of a trace that was told to its end is worth what its reader takes it for: where what it is read as is feasible, no
    // job is late by a unit of time or more, and a comment names each that is late; it is read again; no job and no run is invented, and none
    // is missing; and parts are the whole. The record has these as fields: `nothing_late`, `read_again`, `faithful` and `whole`.
    ensures worth { result ≡ Status.Done
        → OfTrace (request_of (words_of words.now)) (S.left source.old) (λ within strict past. OfAppended (K.written sink.old) (K.written sink.new) (IsWorth within past)) }
{
    match read_words(alloc, words) {
        Ok(Request::Help) => deliver(HELP, Status::Done, sink),
        Ok(Request::Version) => deliver(VERSION, Status::Done, sink),
        Ok(
            Request::Trace {
                asked,
                bounds,
                strict,
            },
        ) => run_trace(alloc, asked, bounds, strict, source, sink),
        Ok(Request::Threads) => run_threads(alloc, keys, source, sink),
        Err(NoRequest::Fault(fault)) => {
            deliver(fault_line(&fault).as_bytes(), Status::Usage, sink)
        }
        Err(NoRequest::Memory) => deliver(MEMORY, Status::Memory, sink),
    }
}

/// Reads a trace and writes its document, or its parts.
fn run_trace<S: Input, K: Sink>(
    alloc: Global,
    asked: Asked,
    bounds: Bounds,
    strict: bool,
    source: &mut S,
    sink: &mut K,
) -> Status
    requires { (first : ℕ) → IsFit (asked_from first bounds (asked_read asked)) }
    ensures source_later { S.faults source.old ≤ S.faults source.new }
    ensures read_fault { result ≡ Status.ReadFault → Rose (S.faults source.old) (S.faults source.new) }
    ensures no_fault_passed_over { result ≡ Status.Done → S.faults source.new ≡ S.faults source.old }
    ensures read_to_its_end { IfSome (S.left source.old) (λ input. Leaves result input (S.left source.new) (S.faults source.old) (S.faults source.new)) }
    ensures sink { IsEnded K.written K.flushed K.flushes K.faults result sink.old sink.new }
    ensures flushed_once { asked.in_parts ≡ false → result ≢ Status.WriteFault → K.flushes sink.new ≡ next_count (K.flushes sink.old) }
    ensures flushed_behind_each { asked.in_parts ≡ true → IfSome (S.left source.old) (λ input. result ≡ Status.Done
        → HoldsWithin (asked_in bounds (asked_read asked) (order_of input)) (λ within.
        K.flushes sink.new ≡ next_count (count_on (times_told within strict (past_of (order_of input))) (K.flushes sink.old)))) }
    ensures answer { IfSome (S.left source.old) (λ input.
        Writes (S.unread source.new) (Ok (ReadTrace (asked_read asked) bounds strict)) input result (K.written sink.old) (K.written sink.new) (K.flushed sink.new)) }
{
    if asked.in_parts {
        run_in_parts(alloc, asked, bounds, strict, source, sink)
    } else {
        run_whole(alloc, asked, bounds, strict, source, sink)
    }
}

/// Reads a trace and writes its one document.
fn run_whole<S: Input, K: Sink>(
    alloc: Global,
    asked: Asked,
    bounds: Bounds,
    strict: bool,
    source: &mut S,
    sink: &mut K,
) -> Status
    requires fit { (first : ℕ) → IsFit (asked_from first bounds (asked_read asked)) }
    requires whole { asked.in_parts ≡ false }
    ensures source_later { S.faults source.old ≤ S.faults source.new }
    ensures read_fault { result ≡ Status.ReadFault → Rose (S.faults source.old) (S.faults source.new) }
    ensures no_fault_passed_over { result ≡ Status.Done → S.faults source.new ≡ S.faults source.old }
    ensures read_to_its_end { IfSome (S.left source.old) (λ input. Leaves result input (S.left source.new) (S.faults source.old) (S.faults source.new)) }
    ensures sink { IsEnded K.written K.flushed K.flushes K.faults result sink.old sink.new }
    ensures flushed_once { result ≢ Status.WriteFault → K.flushes sink.new ≡ next_count (K.flushes sink.old) }
    ensures answer { IfSome (S.left source.old) (λ input.
        Writes (S.unread source.new) (Ok (ReadTrace (asked_read asked) bounds strict)) input result (K.written sink.old) (K.written sink.new) (K.flushed sink.new)) }
{
    match read_trace(alloc, asked, bounds, source) {
        Ok(ended) => tell(alloc, &ended, strict, sink),
        Err(stopped) => tell_stopped(stopped, source.unread(), sink),
    }
}

/// Reads a trace and writes its parts, each as soon as it is whole.
fn run_in_parts<S: Input, K: Sink>(
    alloc: Global,
    asked: Asked,
    bounds: Bounds,
    strict: bool,
    source: &mut S,
    sink: &mut K,
) -> Status
    requires fit { (first : ℕ) → IsFit (asked_from first bounds (asked_read asked)) }
    requires in_parts { asked.in_parts ≡ true }
    ensures source_later { S.faults source.old ≤ S.faults source.new }
    ensures read_fault { result ≡ Status.ReadFault → Rose (S.faults source.old) (S.faults source.new) }
    ensures no_fault_passed_over { result ≡ Status.Done → S.faults source.new ≡ S.faults source.old }
    ensures read_to_its_end { IfSome (S.left source.old) (λ input. Leaves result input (S.left source.new) (S.faults source.old) (S.faults source.new)) }
    ensures sink { IsEnded K.written K.flushed K.flushes K.faults result sink.old sink.new }
    ensures flushed_behind_each { IfSome (S.left source.old) (λ input. result ≡ Status.Done
        → HoldsWithin (asked_in bounds (asked_read asked) (order_of input)) (λ within.
        K.flushes sink.new ≡ next_count (count_on (times_told within strict (past_of (order_of input))) (K.flushes sink.old)))) }
    ensures answer { IfSome (S.left source.old) (λ input.
        Writes (S.unread source.new) (Ok (ReadTrace (asked_read asked) bounds strict)) input result (K.written sink.old) (K.written sink.new) (K.flushed sink.new)) }
{
    match tell_parts(alloc, asked, bounds, strict, source, sink) {
        Ok(()) => finish(sink),
        Err(halt) => tell_halt(&halt, source.unread(), sink),
    }
}

/// Reads a trace and writes the table of its threads.
fn run_threads<S: Input, K: Sink>(
    alloc: Global,
    keys: RandomState,
    source: &mut S,
    sink: &mut K,
) -> Status
    ensures source_later { S.faults source.old ≤ S.faults source.new }
    ensures read_fault { result ≡ Status.ReadFault → Rose (S.faults source.old) (S.faults source.new) }
    ensures no_fault_passed_over { result ≡ Status.Done → S.faults source.new ≡ S.faults source.old }
    ensures read_to_its_end { IfSome (S.left source.old) (λ input. Leaves result input (S.left source.new) (S.faults source.old) (S.faults source.new)) }
    ensures sink { IsEnded K.written K.flushed K.flushes K.faults result sink.old sink.new }
    ensures flushed_once { result ≢ Status.WriteFault → K.flushes sink.new ≡ next_count (K.flushes sink.old) }
    ensures answer { IfSome (S.left source.old) (λ input.
        Writes (S.unread source.new) (Ok ListThreads) input result (K.written sink.old) (K.written sink.new) (K.flushed sink.new)) }
{
    match tell_threads(alloc, keys, source, sink) {
        Ok(()) => finish(sink),
        Err(halt) => tell_no_threads(halt, source.unread(), sink),
    }
}

/// Writes why a trace's threads aren't told. Where a write failed nothing more is written.
fn tell_no_threads<K: Sink>(halt: threads::Halt, unread: Unread<'_>, sink: &mut K) -> Status
    ensures { TellsStop K.written K.flushed K.flushes K.faults (unread_read unread.entry) (stopped_of halt) result sink.old sink.new }
{
    match halt {
        threads::Halt::WriteFault => Status::WriteFault,
        threads::Halt::ReadFault => tell_stopped(Stopped::ReadFault, unread, sink),
        threads::Halt::Memory => tell_stopped(Stopped::Memory, unread, sink),
        threads::Halt::Endless => tell_stopped(Stopped::TooLong, unread, sink),
        threads::Halt::InForm { number, fault } => {
            tell_stopped(Stopped::InForm { number, fault }, unread, sink)
        }
        threads::Halt::AtLine { number, cause } => {
            tell_stopped(Stopped::AtLine { number, cause }, unread, sink)
        }
    }
}

/// Flushes the sink behind what was written whole.
fn finish<K: Sink>(sink: &mut K) -> Status
    ensures { IsDelivered K.written K.flushed K.flushes K.faults [] Status.Done result sink.old sink.new }
{
    deliver(b"", Status::Done, sink)
}

/// Writes why a trace isn't told further, behind the parts that were written.
fn tell_halt<K: Sink>(halt: &Halt, unread: Unread<'_>, sink: &mut K) -> Status
    ensures { TellsHalt K.written K.flushed K.flushes K.faults (unread_read unread.entry) halt.now result sink.old sink.new }
{
    match halt {
        Halt::WriteFault => Status::WriteFault,
        Halt::ReadFault => deliver(read_fault_line(unread).as_bytes(), Status::ReadFault, sink),
        Halt::Memory => deliver(MEMORY, Status::Memory, sink),
        Halt::NoFirst => deliver(NO_FIRST, Status::Refused, sink),
        Halt::Endless => deliver(TOO_LONG, Status::Refused, sink),
        Halt::InForm { number, fault } => refuse(&form_line(*number, *fault), sink),
        Halt::AtLine { number, cause } => refuse(&cause_line(*number, *cause), sink),
        Halt::Limit {
            processor,
            part,
            fault,
        } => refuse(&part_line(*processor, *part, *fault), sink),
        Halt::NotKnown {
            processor,
            part,
            place,
            name,
            reason,
        } => refuse(
            &not_known_part_line(*processor, *part, *place, name, *reason),
            sink,
        ),
        Halt::TooLong { processor, part } => refuse(&long_part_line(*processor, *part), sink),
        Halt::NoPlace { name, begin, late } => refuse(&place_line(name, *begin, *late), sink),
    }
}

/// Writes why a trace is refused.
fn refuse<K: Sink>(line: &ArrayString<LINE_BYTES>, sink: &mut K) -> Status
    ensures { IsDelivered K.written K.flushed K.flushes K.faults line.now.bytes Status.Refused result sink.old sink.new }
{
    deliver(line.as_bytes(), Status::Refused, sink)
}

/// Writes why a trace wasn't read to what is known at its end.
fn tell_stopped<K: Sink>(stopped: Stopped, unread: Unread<'_>, sink: &mut K) -> Status
    ensures { IsDelivered K.written K.flushed K.flushes K.faults (stopped_text (unread_read unread.entry) stopped) (stopped_status stopped) result sink.old sink.new }
{
    match stopped {
        Stopped::ReadFault => deliver(read_fault_line(unread).as_bytes(), Status::ReadFault, sink),
        Stopped::Memory => deliver(MEMORY, Status::Memory, sink),
        Stopped::NoFirst => deliver(NO_FIRST, Status::Refused, sink),
        Stopped::TooLong => deliver(TOO_LONG, Status::Refused, sink),
        Stopped::InForm { number, fault } => refuse(&form_line(number, fault), sink),
        Stopped::AtLine { number, cause } => refuse(&cause_line(number, cause), sink),
    }
}

/// Writes the document of what is known at a trace's end, or why there is none.
fn tell<K: Sink>(alloc: Global, ended: &Ended, strict: bool, sink: &mut K) -> Status
    requires { IsPlain ended.now }
    ensures { Tells K.written K.flushed K.flushes K.faults ended.now strict result sink.old sink.new }
{
    match document_text(alloc, ended, strict) {
        Ok(text) => deliver(&text, Status::Done, sink),
        Err(NoText::Limit(fault)) => refuse(&document_line(fault), sink),
        Err(
            NoText::NotKnown {
                place,
                name,
                reason,
            },
        ) => refuse(&not_known_line(place, &name, reason), sink),
        Err(NoText::TooLong) => deliver(TEXT_TOO_LONG, Status::Refused, sink),
        Err(NoText::Memory) => deliver(MEMORY, Status::Memory, sink),
    }
}

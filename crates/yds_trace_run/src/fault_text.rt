//! The texts of a run that tells no document, or not all parts.
ghost use Rattle.std.specs.Prelude.{◌≡◌, ◌≤◌, ◌+◌, ◌++◌, codes, drop, length, decimal, Some};
ghost use Rattle.arrayvec.specs.ArrayString.{array_string_len};
ghost use Rattle.yds_trace_reading.specs.LineFault.{InForm, AtLine};
ghost use Rattle.yds_trace_text.specs.Limit.{Beyond, NotKnown};
ghost use Rattle.yds_trace_text.specs.Text.{in_seconds, in_milliseconds, reason_text};
ghost use Rattle.yds_trace_parts.specs.Told.{OfDocument, OfText, NoPlace};
ghost use Rattle.yds_trace_run.specs.FaultText as spec;

use arrayvec::ArrayString;
use itoa::Buffer;
use yds_kernel::{LineFault, Reason};
use yds_trace::{Cause, Reason as LeftReason};
use yds_trace_document::{DocumentFault, LeftOut};
use yds_trace_text::reason_words;
use yds_trace_words::{LINE_BYTES, MAX_UNIT, push_shown};

/// The text for want of memory. It takes none.
pub(crate) const MEMORY: &[u8] =
    b"# out of memory; ask for fewer tasks, or choose a shorter time by --from and --to\nfailed\n";

/// The text for bounds that count from a first event which was lost.
pub(crate) const NO_FIRST: &[u8] =
    b"# events were lost before the first one; give --from and --to as times of the trace's clock\nfailed\n";

/// The text for a trace of as many bytes or lines as are counted.
pub(crate) const TOO_LONG: &[u8] =
    b"# the trace has more bytes or lines than are counted; give a part of it\nfailed\n";

/// The text for a document that is longer than a document may be.
pub(crate) const TEXT_TOO_LONG: &[u8] =
    b"# the document is longer than 8388608 bytes; choose a shorter time by --from and --to\nfailed\n";

/// The last line of each of these texts, with the end of the comment before it.
const FAILED: &str = "\nfailed\n";

/// The text for a line whose form is refused.
pub(crate) fn form_line(number: u64, fault: LineFault) -> ArrayString<LINE_BYTES>
    ensures { result.bytes ≡ spec.failed (spec.line_text (InForm (record { line = number; column = fault.column; reason = fault.reason }))) }
{
    let mut line = ArrayString::new();
    line.push_str("# line ");
    line.push_str(Buffer::new().format(number));
    line.push_str(", column ");
    line.push_str(Buffer::new().format(fault.column));
    line.push_str(": ");
    line.push_str(form_text(fault.reason));
    line.push_str(FAILED);
    line
}

/// What is wrong with a line's form, and what to do.
fn form_text(reason: Reason) -> &'static str
    ensures text { result.now ≡ spec.form_text reason }
    ensures short { length result.now ≤ 160 }
{
    match reason {
        Reason::Processor => "the number of the processor is above 4294967295; leave the line out",
        Reason::Time => {
            "the time has more than nine digits behind the point, or is too great; leave the line out"
        }
        Reason::UnknownSwitch => {
            "a switch in an unknown form, or cut short; leave the line out, or write the trace anew"
        }
        Reason::UnknownWakeUp => {
            "a wake-up in an unknown form, or cut short; leave the line out, or write the trace anew"
        }
        Reason::UnknownSpeed => {
            "a cpu_frequency line in an unknown form, or cut short; leave the line out, or write the trace anew"
        }
        Reason::Long => "the line is longer than 65536 bytes; leave it out",
        Reason::Cut => "the last line is cut short; leave it out, or write the trace anew",
    }
}

/// The text for a line that can't stand behind those before it, or for a whole trace that tells nothing, at its last line.
pub(crate) fn cause_line(number: u64, cause: Cause) -> ArrayString<LINE_BYTES>
    ensures { result.bytes ≡ spec.failed (spec.line_text (AtLine number cause)) }
{
    let mut line = ArrayString::new();
    line.push_str("# line ");
    line.push_str(Buffer::new().format(number));
    line.push_str(": ");
    push_cause(cause, &mut line);
    line.push_str(FAILED);
    line
}

/// Why a line can't stand there, and what to do.
fn push_cause(cause: Cause, line: &mut ArrayString<LINE_BYTES>)
    requires { array_string_len line.old ≤ 40 }
    ensures text { line.new.bytes ≡ line.old.bytes ++ spec.cause_text cause }
    ensures short { array_string_len line.new ≤ 270 }
{
    match cause {
        Cause::Unseen(number) => push_placed(
            "no line names task ",
            number,
            " of --tasks; write its name as the trace has it, a * isn't taken; --tasks '?' lists the threads of the trace",
            line,
        ),
        Cause::ProcessorTooGreat => line.push_str(
            "the number of the processor is above 8191; leave the line out",
        ),
        Cause::TimeTooGreat => line.push_str(
            "the time is above 9223372036.854775807 seconds; leave the line out",
        ),
        Cause::TimeGoesBack => line.push_str(
            "its time is before that of an earlier line, by more than a millisecond, behind more than 64 lines, or over lost events; sort the lines by their times",
        ),
        Cause::EventsLost => line.push_str(
            "events were lost before it; record with a larger buffer, choose --from and --to around it, or go on by --lost cut",
        ),
        Cause::LineMissing => line.push_str(
            "a switch of a task is missing before it; record with a larger buffer, or go on by --lost cut",
        ),
        Cause::SpeedChanged => line.push_str(
            "it tells another speed than --fixed does; leave out --fixed, or give --start",
        ),
        Cause::UnknownState => line.push_str(
            "a task leaves in a state that the kernel doesn't have; write the trace anew",
        ),
        Cause::TwoThreads => line.push_str(
            "a task's name is that of another thread before; threads are renamed at their start, too: give the number, which stays, by PID=NAME:DEADLINE",
        ),
        Cause::Exited => line.push_str(
            "a task's thread was over before, and its number is that of another thread now; choose --from and --to around it",
        ),
        Cause::Renamed => line.push_str(
            "a task's thread has another name here, so it isn't followed; give its number, which stays, by PID=NAME:DEADLINE",
        ),
        Cause::TwoTasks => line.push_str(
            "one thread is two tasks, by its number and by its name; leave one out",
        ),
        Cause::TooLong => line.push_str(
            "more than 250000 lines tell of the tasks; choose a shorter time by --from and --to, or fewer tasks",
        ),
        Cause::NoLine => line.push_str(
            "no line of a kernel's trace; write it as text, by trace-cmd report or perf script with cpu and time among its fields: a line has a processor as [001] and a time with a point as 12.345678: before its event's name",
        ),
        Cause::NotWoken => line.push_str(
            "a task comes behind a sleep without a wake-up, twice in one job or before any of it; record sched_waking, sched_wakeup and sched_wakeup_new, let jobs begin at their first run by --begin run, or go on by --lost cut",
        ),
        Cause::PartWritten => line.push_str(
            "it changes jobs of a part that was written; choose --from and --to around it",
        ),
    }
}

/// The text for a document that is beyond a limit.
pub(crate) fn document_line(fault: DocumentFault) -> ArrayString<LINE_BYTES>
    ensures { result.bytes ≡ spec.failed (spec.document_text fault) }
{
    let mut line = ArrayString::new();
    line.push_str("# ");
    push_document(fault, &mut line);
    line.push_str(FAILED);
    line
}

/// The text for a document with the job of this name, found at a place, of which it isn't known whether it is late.
pub(crate) fn not_known_line(
    place: usize,
    name: &[u8],
    reason: Option<LeftReason>,
) -> ArrayString<LINE_BYTES>
    ensures { result.bytes ≡ spec.failed (spec.not_known_text place name.now reason) }
{
    let mut line = ArrayString::new();
    line.push_str("# ");
    push_not_known(place, name, reason, &mut line);
    line.push_str(FAILED);
    line
}

/// Of which job it isn't known whether it is late, why, and what to do.
fn push_not_known(
    place: usize,
    name: &[u8],
    reason: Option<LeftReason>,
    line: &mut ArrayString<LINE_BYTES>,
)
    requires { array_string_len line.old ≤ 70 }
    ensures text { line.new.bytes ≡ line.old.bytes ++ spec.not_known_text place name.now reason }
    ensures short { array_string_len line.new ≤ 340 }
{
    line.push_str("found job ");
    push_place(place, line);
    line.push_str(": it isn't known whether ");
    push_shown(name, line);
    line.push_str(" is late (");
    push_unsure(reason, line);
}

/// Why it isn't known, and what to do. A job that stands has just no end in the trace.
fn push_unsure(reason: Option<LeftReason>, line: &mut ArrayString<LINE_BYTES>)
    requires { array_string_len line.old ≤ 220 }
    ensures text { line.new.bytes ≡ line.old.bytes ++ spec.unsure_text reason }
    ensures short { array_string_len line.new ≤ 340 }
{
    match reason {
        None => line.push_str("its end isn't in the trace); record longer"),
        Some(reason) => push_reason(reason, line),
    }
}

/// A reason, and what to do.
fn push_reason(reason: LeftReason, line: &mut ArrayString<LINE_BYTES>)
    requires { array_string_len line.old ≤ 220 }
    ensures text { line.new.bytes ≡ line.old.bytes ++ (reason_text (Some reason) ++ codes "); " ++ spec.remedy reason) }
    ensures short { array_string_len line.new ≤ 340 }
{
    line.push_str(reason_words(reason));
    line.push_str("); ");
    line.push_str(remedy(reason));
}

/// Which limit it is, and what to do.
fn push_document(fault: DocumentFault, line: &mut ArrayString<LINE_BYTES>)
    requires { array_string_len line.old ≤ 70 }
    ensures text { line.new.bytes ≡ line.old.bytes ++ spec.document_text fault }
    ensures short { array_string_len line.new ≤ 285 }
{
    match fault {
        DocumentFault::TooManyJobs => {
            line.push_str("more than 4000 jobs; choose a shorter time by --from and --to");
        }
        DocumentFault::TooManyRuns => line.push_str(
            "more than 100000 runs; choose a shorter time by --from and --to, or a greater unit by --us",
        ),
        DocumentFault::NameTooLong(place) => push_placed(
            "written job ",
            place,
            ": its name is longer than 64 bytes; choose a shorter time by --from and --to",
            line,
        ),
        DocumentFault::TimeTooGreat(place) => push_placed(
            "written job ",
            place,
            ": its times are above 1000000000 units; choose a greater unit by --us, or a later --from",
            line,
        ),
        DocumentFault::WorkTooGreat { place, work, us } => push_work(place, work, us, line),
        DocumentFault::SpeedTooCoarse(place) => push_placed(
            "found job ",
            place,
            ": it ran at a speed that is 0, or off by more than a twentieth in its unit; choose a smaller unit by --khz",
            line,
        ),
        DocumentFault::SpeedTooGreat(place) => push_placed(
            "found job ",
            place,
            ": it ran at a speed above 1000000 units; choose a greater unit by --khz",
            line,
        ),
        DocumentFault::NoJob(left) => push_no_job(left, line),
        DocumentFault::NoJobAnywhere => line.push_str(
            "no job can be written of any processor; choose one of them by --cpu, and the reason is told",
        ),
        DocumentFault::NotKnown(place) => push_placed(
            "found job ",
            place,
            ": it isn't known whether it is late; record longer",
            line,
        ),
        DocumentFault::Missed(place) => push_placed(
            "found job ",
            place,
            ": it doesn't stand as it is, or its thread was over with it, and --strict is given; leave that out, or choose --from and --to around the job",
            line,
        ),
    }
}

/// That the work of the job at a place is too great, and a unit of time in microseconds that serves for it.
fn push_work(place: usize, work: u64, us: u64, line: &mut ArrayString<LINE_BYTES>)
    requires { array_string_len line.old ≤ 70 }
    ensures text { line.new.bytes ≡ line.old.bytes ++ spec.work_text place work us }
    ensures short { array_string_len line.new ≤ 285 }
{
    line.push_str("written job ");
    push_place(place, line);
    line.push_str(": its work is ");
    line.push_str(Buffer::new().format(work));
    line.push_str(", above 1000000; ");
    push_units(us, line);
}

/// How much greater the units have to be.
fn push_units(us: u64, line: &mut ArrayString<LINE_BYTES>)
    requires { array_string_len line.old ≤ 181 }
    ensures text { line.new.bytes ≡ line.old.bytes ++ spec.units_text us }
    ensures short { array_string_len line.new ≤ array_string_len line.old + 110 }
{
    if us > MAX_UNIT {
        line.push_str("choose greater units by --us and --khz, and the points in the same --khz");
    } else {
        push_us(us, line);
    }
}

/// A unit of time in microseconds that serves for the job, and where it stands then.
fn push_us(us: u64, line: &mut ArrayString<LINE_BYTES>)
    requires { array_string_len line.old ≤ 181 }
    ensures text { line.new.bytes ≡ line.old.bytes ++ spec.us_text us }
    ensures short { array_string_len line.new ≤ array_string_len line.old + 110 }
{
    line.push_str("give --us ");
    line.push_str(Buffer::new().format(us));
    line.push_str(
        " and keep --khz, here and for yds-points: then it is the job line of that number",
    );
}

/// Why no job can be written, and what to do.
fn push_no_job(left: Option<LeftOut>, line: &mut ArrayString<LINE_BYTES>)
    requires { array_string_len line.old ≤ 70 }
    ensures text { line.new.bytes ≡ line.old.bytes ++ spec.no_job_text left }
    ensures short { array_string_len line.new ≤ 285 }
{
    match left {
        None => line.push_str(
            "no job of the tasks is found; choose a later --to, or record longer",
        ),
        Some(left) => push_left_out(left, line),
    }
}

/// The reason for which most jobs are left out.
fn push_left_out(left: LeftOut, line: &mut ArrayString<LINE_BYTES>)
    requires { array_string_len line.old ≤ 70 }
    ensures text { line.new.bytes ≡ line.old.bytes ++ spec.no_job_text (Some left) }
    ensures short { array_string_len line.new ≤ 285 }
{
    push_counts(left, line);
    push_why(left.reason, line);
}

/// How many jobs are left out for one reason, and how many there are.
fn push_counts(left: LeftOut, line: &mut ArrayString<LINE_BYTES>)
    requires { array_string_len line.old ≤ 70 }
    ensures text { line.new.bytes ≡ line.old.bytes ++ spec.counts_text left }
    ensures short { array_string_len line.new ≤ 140 }
{
    line.push_str("no job can be written: ");
    line.push_str(Buffer::new().format(left.count as u64));
    line.push_str(" of ");
    line.push_str(Buffer::new().format(left.all as u64));
}

/// For which reason, and what to do.
fn push_why(reason: LeftReason, line: &mut ArrayString<LINE_BYTES>)
    requires { array_string_len line.old ≤ 140 }
    ensures text { line.new.bytes ≡ line.old.bytes ++ spec.why_text reason }
    ensures short { array_string_len line.new ≤ 285 }
{
    line.push_str(" left out (");
    line.push_str(reason_words(reason));
    line.push_str("); ");
    line.push_str(remedy(reason));
}

/// What to do where most jobs are left out for this reason.
fn remedy(reason: LeftReason) -> &'static str
    ensures text { result.now ≡ spec.remedy reason }
    ensures short { length result.now ≤ 80 }
{
    match reason {
        LeftReason::BeforeFrom => "choose an earlier --from",
        LeftReason::AfterTo => "choose a later --to",
        LeftReason::NotEnded => "record longer",
        LeftReason::EventsLost => {
            "record with a larger buffer, or choose --from and --to around the loss"
        }
        LeftReason::SwitchMissing => "record the switches of all threads, without a filter",
        LeftReason::BeginUnseen => "record sched_waking, and longer, or give --begin run",
        LeftReason::DueBefore => "choose a smaller unit by --us, or leave PERIOD out",
        LeftReason::Moved => "choose another processor by --cpu, or give --moved parts",
        LeftReason::SpeedUnknown => "give the speed by --start",
    }
}

/// The text for a part that is beyond a limit; where each processor has documents of its own, for one of this processor's.
pub(crate) fn part_line(
    processor: Option<u64>,
    part: u64,
    fault: DocumentFault,
) -> ArrayString<LINE_BYTES>
    ensures { result.bytes ≡ spec.halt_text (OfDocument processor part (Beyond fault)) }
{
    let mut line = part_front(processor, part);
    push_document(fault, &mut line);
    line.push_str(FAILED);
    line
}

/// The text for a part with the job of this name, found at a place, of which it isn't known whether it is late.
pub(crate) fn not_known_part_line(
    processor: Option<u64>,
    part: u64,
    place: usize,
    name: &[u8],
    reason: Option<LeftReason>,
) -> ArrayString<LINE_BYTES>
    ensures { result.bytes ≡ spec.halt_text (OfDocument processor part (NotKnown place name.now reason)) }
{
    let mut line = part_front(processor, part);
    push_not_known(place, name, reason, &mut line);
    line.push_str(FAILED);
    line
}

/// The text for a part that is longer than a document may be.
pub(crate) fn long_part_line(processor: Option<u64>, part: u64) -> ArrayString<LINE_BYTES>
    ensures { result.bytes ≡ spec.halt_text (OfText processor part) }
{
    let mut line = part_front(processor, part);
    line.push_str(
        "the document is longer than 8388608 bytes; choose fewer tasks, or greater units by --us and --khz",
    );
    line.push_str(FAILED);
    line
}

/// The begin of a comment on the part of this number, of this processor where each has documents of its own.
fn part_front(processor: Option<u64>, part: u64) -> ArrayString<LINE_BYTES>
    ensures text { result.bytes ≡ codes "# " ++ (codes "part " ++ decimal part ++ spec.on_processor processor ++ codes ": ") }
    ensures short { array_string_len result ≤ 70 }
{
    let mut line = ArrayString::new();
    line.push_str("# part ");
    line.push_str(Buffer::new().format(part));
    if let Some(processor) = processor {
        line.push_str(" of processor ");
        line.push_str(Buffer::new().format(processor));
    }
    line.push_str(": ");
    line
}

/// The text where too much waits and there is no place to cut: the job that has been open longest, or else the first that waits,
/// with its begin on the trace's clock and by how much it is known to be late, in nanoseconds.
pub(crate) fn place_line(name: &[u8], begin: u64, late: Option<u64>) -> ArrayString<LINE_BYTES>
    ensures { result.bytes ≡ spec.halt_text (NoPlace name.now begin late) }
{
    let mut line = ArrayString::new();
    line.push_str("# no part can end, since the processor is never quiet; look at job ");
    push_shown(name, &mut line);
    line.push_str(", begun at ");
    push_seconds(begin, &mut line);
    line.push_str(" s, ");
    push_late(late, &mut line);
    line.push_str(": choose --from and --to around it, or leave its task out");
    line.push_str(FAILED);
    line
}

/// By how much a job is known to be late.
fn push_late(late: Option<u64>, line: &mut ArrayString<LINE_BYTES>)
    requires { array_string_len line.old ≤ 190 }
    ensures text { line.new.bytes ≡ line.old.bytes ++ spec.late_text late }
    ensures short { array_string_len line.new ≤ array_string_len line.old + 64 }
{
    match late {
        None => line.push_str("not known to be late"),
        Some(late) => {
            line.push_str("known to be late by ");
            push_milliseconds(late, line);
            line.push_str(" ms");
        }
    }
}

/// Nanoseconds, told in seconds.
fn push_seconds(time: u64, line: &mut ArrayString<LINE_BYTES>)
    requires { array_string_len line.old ≤ 220 }
    ensures text { line.new.bytes ≡ line.old.bytes ++ in_seconds time }
    ensures short { array_string_len line.new ≤ array_string_len line.old + 41 }
{
    line.push_str(Buffer::new().format(time / 1_000_000_000));
    line.push_str(".");
    push_behind_first(1_000_000_000 + time % 1_000_000_000, line);
}

/// Nanoseconds, told in milliseconds.
fn push_milliseconds(time: u64, line: &mut ArrayString<LINE_BYTES>)
    requires { array_string_len line.old ≤ 220 }
    ensures text { line.new.bytes ≡ line.old.bytes ++ in_milliseconds time }
    ensures short { array_string_len line.new ≤ array_string_len line.old + 41 }
{
    line.push_str(Buffer::new().format(time / 1_000_000));
    line.push_str(".");
    push_behind_first(1_000_000 + time % 1_000_000, line);
}

/// The digits of a number but for the first one.
fn push_behind_first(number: u64, line: &mut ArrayString<LINE_BYTES>)
    requires { array_string_len line.old ≤ 260 }
    ensures text { line.new.bytes ≡ line.old.bytes ++ drop 1 (decimal number) }
    ensures short { array_string_len line.new ≤ array_string_len line.old + 20 }
{
    let mut buffer = Buffer::new();
    let digits = buffer.format(number);
    line.push_str(&digits[1..]);
}

/// What is wrong with the job or the task at a place, which counts from 0.
fn push_placed(which: &str, place: usize, text: &str, line: &mut ArrayString<LINE_BYTES>)
    requires room { array_string_len line.old ≤ 70 }
    requires which { length which.now ≤ 20 }
    requires text { length text.now ≤ 140 }
    ensures text { line.new.bytes ≡ line.old.bytes ++ (which.now ++ decimal (place + 1) ++ text.now) }
    ensures short { array_string_len line.new ≤ 270 }
{
    line.push_str(which);
    push_place(place, line);
    line.push_str(text);
}

/// A place that counts from 1, of one that counts from 0.
fn push_place(place: usize, line: &mut ArrayString<LINE_BYTES>)
    requires { array_string_len line.old ≤ 90 }
    ensures text { line.new.bytes ≡ line.old.bytes ++ decimal (place + 1) }
    ensures short { array_string_len line.new ≤ array_string_len line.old + 40 }
{
    line.push_str(Buffer::new().format(u128::from(place as u64) + 1));
}

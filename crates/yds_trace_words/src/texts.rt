//! The texts that answer words alone.
ghost use Rattle.std.specs.Prelude.{◌≡◌, ◌<◌, ◌≤◌, ◌+◌, ◌++◌, length, decimal};
ghost use Rattle.arrayvec.specs.ArrayString.{array_string_len};
ghost use Rattle.yds_trace_words.specs.Texts as spec;
ghost use Rattle.yds_trace_words.specs.Views.{fault_read};

use crate::fault::{Place, Reason, WordFault};
use arrayvec::ArrayString;
use itoa::Buffer;

/// The text of `--help`.
pub const HELP: &[u8] = b"\
yds_trace: the jobs and runs of tasks on one processor, from a kernel's trace

usage: yds_trace --tasks NAME:DEADLINE[:APART[:PERIOD]],.. [WORDS] [FILE ..] > DOCUMENT

It reads sched_switch, sched_waking, sched_wakeup, sched_wakeup_new and cpu_frequency as text: the kernel's trace file,
trace-cmd report, perf script, or Perfetto's export. It writes a document, which yds_cli reads: a job begins where its
thread is woken and ends where that leaves the processor to sleep.

  --tasks LIST   the tasks, parted by commas: NAME:DEADLINE or PID=NAME:DEADLINE, in milliseconds from a job's begin.
                 With :APART behind, a wake-up less than so many milliseconds after a job's begin goes on with that job.
                 With :PERIOD behind that, a job is due no later than so many milliseconds behind the one before; APART may
                 be empty, as in decode:16::20.
                 A backslash before a comma, a colon, an equals sign or a backslash makes that a byte of a name
  --tasks ?      writes no document: the threads of the trace, those that ran longest first
  --cpu N        the processor (0)
  --cpu all      each processor, in documents of its own, as with --parts
  --us N         so many microseconds are a unit of time (10)
  --khz N        so many kilohertz are a unit of speed (10000)
  --start KHZ    the speed of each processor before the trace tells one, in kilohertz; or CPU:KHZ,CPU:KHZ,.. for these
                 processors, and then that of others isn't known before the trace tells it
  --fixed KHZ    the speed of each processor throughout, also behind lost events; a line that tells another one is a fault.
                 It doesn't go with --start
  --from S       from this time on, in seconds of the trace's clock; +2 counts from the trace's first line that has a time
  --to S         up to this time
  --begin run    jobs begin at their first run, and wake-ups aren't read
  --lost cut     goes on where events were lost, or switches of tasks are missing, and leaves out the jobs that may have
                 been open there
  --moved parts  shares out a job that ran on several processors: the documents of each have what it ran there, as NAME@CPU
  --others spans tells in comments who else had the processor while a job waited
  --parts        writes documents one behind the other, each as soon as it is whole, for a trace of any length
  --strict       fails where a job is left out for another reason than --from and --to
  --help         writes this
  --version      writes the version

A word and its value are two words, or one with an equals sign between them: --cpu 3 or --cpu=3. A word that doesn't begin
with a hyphen is a file, and each word behind -- is one. The trace is the files one behind the other, in their order; - is
standard input, which is read where no file is given. A file that another one follows ends with a line feed, or is empty.

status: 0 done, 2 the words can't be taken, 3 the trace has a fault, 4 the input couldn't be read, 5 the output couldn't be
written, 6 want of memory, 7 a word isn't text. What is written ends with the line 'failed' for each other than 0 and 5, so
that no reader of documents takes it for one.
";

/// The line of `--version`.
pub const VERSION: &[u8] = b"yds_trace 2.0.0\n";

/// How many bytes the text of a fault has at most.
pub const LINE_BYTES: usize = 352;

/// The comment that tells why words can't be taken, and the line that no reader of documents takes. It is made on the stack.
pub fn fault_line(fault: &WordFault<'_>) -> ArrayString<LINE_BYTES>
    ensures { result.bytes ≡ spec.fault_text (fault_read fault.now) }
{
    let mut line = ArrayString::new();
    line.push_str("# ");
    push_shown(fault.word, &mut line);
    push_place(fault.place, &mut line);
    line.push_str(": ");
    line.push_str(reason_text(fault.reason));
    line.push_str("\nfailed\n");
    line
}

/// Where it stands in the list that the word gives.
fn push_place(place: Option<Place>, line: &mut ArrayString<LINE_BYTES>)
    requires { array_string_len line.old ≤ 100 }
    ensures shown { line.new.bytes ≡ line.old.bytes ++ spec.place_text place }
    ensures short { array_string_len line.new ≤ array_string_len line.old + 28 }
{
    match place {
        Some(Place::Task(number)) => push_number(", task ", number, line),
        Some(Place::Speed(number)) => push_number(", speed ", number, line),
        None => {}
    }
}

/// A number behind a text.
fn push_number(text: &str, number: usize, line: &mut ArrayString<LINE_BYTES>)
    requires room { array_string_len line.old ≤ 100 }
    requires few { length text.now ≤ 8 }
    ensures shown { line.new.bytes ≡ line.old.bytes ++ text.now ++ decimal number }
    ensures short { array_string_len line.new ≤ array_string_len line.old + 28 }
{
    line.push_str(text);
    line.push_str(Buffer::new().format(number));
}

/// The first 64 bytes of a word, as a comment shows them.
pub fn push_shown(word: &[u8], line: &mut ArrayString<LINE_BYTES>)
    requires { array_string_len line.old ≤ 200 }
    ensures shown { line.new.bytes ≡ line.old.bytes ++ spec.shown_word word.now }
    ensures short { array_string_len line.new ≤ array_string_len line.old + 64 }
{
    let front = &word[..word.len().min(64)];
    for byte in front {
        line.push(shown(*byte));
    }
}

/// A byte as a comment shows it.
fn shown(byte: u8) -> char
    ensures shown { result ≡ spec.shown byte }
    ensures ascii { result < 128 }
{
    if byte.is_ascii_graphic() || byte == b' ' {
        char::from(byte)
    } else {
        '?'
    }
}

/// What is wrong, and what to do.
fn reason_text(reason: Reason) -> &'static str
    ensures text { result.now ≡ spec.reason_text reason }
    ensures short { length result.now ≤ 160 }
{
    match reason {
        Reason::Unknown => "no such word; --help lists them",
        Reason::Needless => "it has no value; leave out the equals sign and what is behind it",
        Reason::NoValue => "its value is missing; write it behind",
        Reason::Twice => "given twice; give it once",
        Reason::Processor =>
            "no number of a processor; write a whole number from 0 to 8191, or all",
        Reason::Unit => "no unit of time; write whole microseconds from 1 to 1000000000",
        Reason::Speed => "no speed; write whole kilohertz from 1 to 4294967295",
        Reason::SpeedProcessor => {
            "no number of a processor before the colon; write a whole number from 0 to 8191"
        }
        Reason::SpeedForm => {
            "no colon behind the processor; write CPU:KHZ, with the speed in kilohertz, or one speed for all processors"
        }
        Reason::TooManySpeeds =>
            "more than 1000 speeds; list fewer, or give one for all processors",
        Reason::ProcessorTwice => "another speed is of the same processor; give it once",
        Reason::WithStart => "given with --start; give one of both",
        Reason::Time => {
            "no time; write seconds to 9223372036.854775807, with at most nine digits behind the point; +2 counts from the first line"
        }
        Reason::FromNotBefore => "not before --to; give an earlier time, or a later one there",
        Reason::Begin => {
            "no way in which jobs begin; write run, or leave it out for jobs that begin at wake-ups"
        }
        Reason::Lost => "no way to go on behind lost events; write cut, or leave it out",
        Reason::Moved => "no way to tell of jobs that moved; write parts, or leave it out",
        Reason::Others => "nothing else is told of other threads; write spans, or leave it out",
        Reason::EachProcessor => "it is told of one processor; give its number with --cpu",
        Reason::Threads => {
            "it says nothing of the list of threads; leave it out, or name the tasks"
        }
        Reason::NoTasks => {
            "missing; write --tasks NAME:DEADLINE, with the deadline in milliseconds"
        }
        Reason::TooManyTasks => "more than 1000 tasks; ask for fewer at a time",
        Reason::TaskForm => {
            "no colon behind the name; write NAME:DEADLINE, with the deadline in milliseconds"
        }
        Reason::Label => {
            "no name for jobs; it has 1 to 53 visible ASCII characters: for a thread of another name write PID=NAME:DEADLINE"
        }
        Reason::Pid => {
            "no number of a thread before the equals sign; write a whole number from 1 to 4294967295, or a backslash before the sign"
        }
        Reason::Deadline => {
            "no deadline; write milliseconds to 9223372036854.775807, with at most six digits behind the point"
        }
        Reason::ShortDeadline => {
            "its deadline is less than a unit of time; write a later one, or a smaller unit by --us"
        }
        Reason::Apart => {
            "no time behind the second colon; write milliseconds, with at most six digits behind the point"
        }
        Reason::Period => {
            "no time above 0 behind the third colon; write milliseconds, with at most six digits behind the point"
        }
        Reason::LabelTwice => {
            "another task has the same name; write PID=NAME:DEADLINE with another name"
        }
        Reason::ThreadTwice => "another task is the same thread; list it once",
    }
}

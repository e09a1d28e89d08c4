//! The program `yds_trace`: it takes the words of the command line, and runs over the files that they name, or over standard input,
//! and standard output.
//!
//! It stands on `yds_trace_run`, whose `run` does what the words ask for and answers with a status, on `yds_trace_words` for which
//! words are files, on `yds_trace_files`, which reads these one behind the other, and on `yds_port` for the streams. It carries the promise that the program ends with the number of that status, and where the words can't be taken, as
//! where one isn't text, with that of want of memory or with `NO_WORDS`. Then too the last line is `failed`, so that no reader of
//! documents takes the output for one. Nothing is written to standard error.
#![tactic(auto)]

ghost use Rattle.std.specs.Prelude.{◌≡◌, IfOk, drop};
ghost use Rattle.std.specs.Result.{IfErr};
ghost use Rattle.base.specs.Status.{status_code};
ghost use Rattle.yds_trace_cli.specs.Codes.{code_without_words};
ghost use Rattle.yds_trace_cli.specs.Telling.{Tells, text_without_words};

mod disk;
mod small_writes;

use base::Status;
use disk::Disk;
use small_writes::SmallWrites;
use std::hash::RandomState;
use std::io::{BufWriter, ErrorKind};
use std::process::ExitCode;
use std::random::RandomSource;
use std::{env, io};
use yds_port::{Flushed, Sink, StdSink, write_all};
use yds_trace_files::Files;
use yds_trace_run::run;
use yds_trace_words::inputs;

/// How many bytes of the output are gathered before they are written, at most.
const OUTPUT_BUFFER: usize = 65_536;

/// The exit status where the words can't be taken, as where one isn't text. It is the number after those of `Status`.
const NO_WORDS: u8 = 7;

/// Takes the words from the environment, runs over the files that they name and standard output, and ends with the run's status.
fn main(rt: HostRuntime) -> ExitCode {
    let ended = run_words(&rt).map_err(|error| error.kind());
    let mut sink = StdSink::new(rt.stdout());
    ExitCode::from(exit_code(ended, &mut sink))
}

/// The program's exit status, after a run that ended so or after words that couldn't be taken. Then a text says why, since no run
/// wrote one. It takes no memory.
fn exit_code<K: Sink>(ended: Result<Status, ErrorKind>, sink: &mut K) -> u8
    ensures run { IfOk ended (λ status. (result ≡ status_code status) × (sink.new ≡ sink.old)) }
    ensures no_words { IfErr ended (λ kind. Tells (text_without_words kind) (code_without_words kind) result
        (K.written sink.old) (K.written sink.new) (K.flushed sink.new) (K.faults sink.old) (K.faults sink.new)) }
{
    match ended {
        Ok(status) => status.code(),
        Err(kind) => tell_no_words(kind, sink),
    }
}

/// Writes why the words can't be taken. The exit status is that of the cause, or that of a fault of the sink.
fn tell_no_words<K: Sink>(kind: ErrorKind, sink: &mut K) -> u8
    ensures { Tells (text_without_words kind) (code_without_words kind) result
        (K.written sink.old) (K.written sink.new) (K.flushed sink.new) (K.faults sink.old) (K.faults sink.new) }
{
    tell(text_without_words(kind), code_without_words(kind), sink)
}

/// Why the words can't be taken, and the line `failed`.
fn text_without_words(kind: ErrorKind) -> &'static [u8]
    ensures { result.now ≡ text_without_words kind }
{
    match kind {
        ErrorKind::OutOfMemory => b"# out of memory\nfailed\n",
        _ => b"# a word isn't text; write the words in UTF-8\nfailed\n",
    }
}

/// The exit status where the words can't be taken.
fn code_without_words(kind: ErrorKind) -> u8
    ensures { result ≡ code_without_words kind }
{
    match kind {
        ErrorKind::OutOfMemory => Status::Memory.code(),
        _ => NO_WORDS,
    }
}

/// Writes a text and flushes the sink. The exit status is this one, or that of a fault of the sink.
fn tell<K: Sink>(text: &[u8], code: u8, sink: &mut K) -> u8
    ensures { Tells text.now code result
        (K.written sink.old) (K.written sink.new) (K.flushed sink.new) (K.faults sink.old) (K.faults sink.new) }
{
    if write_all(sink, text).is_err() {
        return Status::WriteFault.code();
    }
    match sink.flush() {
        Flushed::Done => code,
        Flushed::Failed => Status::WriteFault.code(),
    }
}

/// Runs over the files that the words name, or standard input, one open at a time, and over standard output with a buffer before it,
/// which is given small pieces and which `run` flushes.
fn run_words(rt: &HostRuntime) -> io::Result<Status> {
    let line: Vec<String> = env::args(rt)?.collect(rt.alloc())?;
    let output = BufWriter::with_capacity(rt.alloc(), OUTPUT_BUFFER, rt.stdout())?;
    let words = words_of(&line);
    let names = inputs(rt.alloc(), words).map_err(|_error| io::Error::from(
        ErrorKind::OutOfMemory,
    ))?;
    let mut source = Files::new(Disk::new(rt), &names);
    let mut sink = SmallWrites::new(StdSink::new(output));
    let keys = drawn_keys(rt)?;
    Ok(run(rt.alloc(), keys, words, &mut source, &mut sink))
}

/// The keys that threads are looked up with, drawn anew in each run, so that nobody can choose threads that are slow to look up.
/// Fixed ones where the machine gives no random bytes: no answer depends on them.
fn drawn_keys(random: &impl RandomSource) -> io::Result<RandomState> {
    RandomState::new(random).or_else(|_error| RandomState::new(&FixedBytes))
}

/// What is drawn where there are no random bytes: bytes that are all 0.
struct FixedBytes;

impl RandomSource for FixedBytes {
    fn fill_bytes(&self, bytes: &mut [u8]) -> io::Result<()> {
        bytes.fill(0);
        Ok(())
    }
}

/// The words of a command line: all behind the program's name.
fn words_of(line: &[String]) -> &[String]
    ensures { result.now ≡ drop 1 line.now }
{
    match line.split_first() {
        Some((_name, words)) => words,
        None => line,
    }
}

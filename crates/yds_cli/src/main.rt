//! The program: it takes the words of the command line, and runs over standard input and standard output.
//!
//! It stands on `yds_run`, whose `run` does what the words ask for and answers with a status, and on
//! `yds_port` for the two streams. It carries the promise that the program ends with the number of that
//! status, and where the words can't be taken with that of want of memory or, for another cause, with `NO_WORDS`.
//! Nothing is written to standard error.
#![tactic(auto)]

use base::Status;
use std::hash::RandomState;
use std::io::BufWriter;
use std::process::ExitCode;
use std::random::RandomSource;
use std::rt::Env;
use std::{env, io};
use yds_port::{StdSink, StdSource};
use yds_run::run;
use yds_words::exit_code;

/// How many bytes of the output are gathered before they are written, at most.
const OUTPUT_BUFFER: usize = 65_536;

/// Takes the words from the environment, runs over standard input and standard output, and ends with
/// the run's status.
fn main(rt: HostRuntime) -> ExitCode {
    let ended = run_words(&rt).map_err(|error| error.kind());
    ExitCode::from(exit_code(ended))
}

/// Runs over standard input, and over standard output with a buffer before it, which `run` flushes.
fn run_words(rt: &HostRuntime) -> io::Result<Status> {
    let words = command_words(rt)?;
    let output = BufWriter::with_capacity(rt.alloc(), OUTPUT_BUFFER, rt.stdout())?;
    let mut source = StdSource::new(rt.stdin());
    let mut sink = StdSink::new(output);
    let keys = drawn_keys(rt)?;
    Ok(run(rt.alloc(), keys, &words, &mut source, &mut sink))
}

/// The keys that names are looked up with, drawn anew in each run, so that nobody can choose names that are slow to look
/// up. Fixed ones where the machine gives no random bytes: no answer depends on them.
fn drawn_keys(random: &impl RandomSource) -> io::Result<RandomState> {
    RandomState::new(random).or_else(|_error| RandomState::new(&FixedBytes))
}

/// What is drawn where there are no random bytes: bytes that are all 0.
struct FixedBytes;

impl RandomSource for FixedBytes {
    fn fill_bytes(&self, bytes: &mut [u8]) -> io::Result<()> {
        bytes.fill(0);
        Ok(())
    }
}

/// The words of the command line, without the program's name.
fn command_words(rt: &(impl Env + AllocGlobal)) -> io::Result<Vec<String>> {
    let mut words = env::args(rt)?;
    let _program = words.next();
    Ok(words.collect(rt.alloc())?)
}

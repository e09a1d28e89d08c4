//! The files of the system, opened by their names.
ghost use Rattle.std.specs.Prelude.{None};

use std::fs::File;
use std::io;
use std::io::{Read, Stdin};
use yds_port::StdSource;
use yds_trace_files::Opens;

/// What is read: standard input, or a file.
#[derive(Drop)]
pub(crate) enum Stream {
    Input(Stdin),
    File(File),
}

impl Read for Stream {
    fn read(&mut self, buffer: &mut [u8]) -> io::Result<usize> {
        match self {
            Stream::Input(input) => input.read(buffer),
            Stream::File(file) => file.read(buffer),
        }
    }
}

/// The files of the system. A hyphen is standard input.
#[derive(Drop)]
pub(crate) struct Disk<'a> {
    rt: &'a HostRuntime,
}

impl<'a> Disk<'a> {
    pub(crate) fn new(rt: &'a HostRuntime) -> Disk<'a> {
        Disk { rt }
    }
}

impl Opens for Disk<'_> {
    type Opened = StdSource<Stream>;

    // The system tells nothing of what a file holds.
    ghost holds = { λ _ _. None };

    fn open(&self, name: &str) -> Option<StdSource<Stream>> {
        if name == "-" {
            return Some(StdSource::new(Stream::Input(self.rt.stdin())));
        }
        let file = File::open(self.rt, name).ok()?;
        Some(StdSource::new(Stream::File(file)))
    }
}

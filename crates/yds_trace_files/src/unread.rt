//! What a read that failed was of.
ghost use Rattle.std.specs.Prelude.{◌≡◌};

use yds_port::{MemorySource, Source, SteadySource};

/// Why a file can't be read.
#[derive(Clone, Copy, Debug, PartialEq, Eq)]
pub enum FileFault {
    /// It can't be opened.
    NotOpened,
    /// A read of it failed.
    NotRead,
    /// It ends within a line, and another file stands behind it.
    NoLineFeed,
}

/// What a read that failed was of.
#[derive(Clone, Copy, Debug, PartialEq, Eq)]
pub enum Unread<'a> {
    /// An input without a name.
    Input,
    /// A file.
    File {
        /// Its number among the files, from 1.
        number: usize,
        /// Its name.
        name: &'a str,
        /// Why it can't be read.
        fault: FileFault,
    },
}

/// A source that tells what a read which failed was of.
pub trait Input: Source {
    ghost use Rattle.yds_trace_files.specs.Unread.{Unread, unread_read};

    // What the read was of that failed last.
    ghost unread: { Self → Unread };

    /// What the read was of that failed last.
    fn unread(&self) -> Unread<'_>
        ensures { unread_read result ≡ unread self.now };
}

impl Input for MemorySource {
    ghost use Rattle.yds_trace_files.specs.Unread.{NoName};

    ghost unread = { λ _. NoName };

    fn unread(&self) -> Unread<'_> {
        Unread::Input
    }
}

impl Input for SteadySource {
    ghost use Rattle.yds_trace_files.specs.Unread.{NoName};

    ghost unread = { λ _. NoName };

    fn unread(&self) -> Unread<'_> {
        Unread::Input
    }
}

ghost use Rattle.std.specs.Prelude.{◌≡◌, None};
ghost use Rattle.yds_port.specs.Adapter.{given_by, flushed_by};

use crate::sink::{Flushed, Given, Sink};
use std::io;
use std::io::Write;

/// Any writer of std. Each error of the writer is a fault, `Interrupted` too, and so is a write that
/// takes no byte.
#[derive(Debug, Drop)]
pub struct StdSink<W> {
    inner: W,
    flushes: u64,
    faults: u64,
}

impl<W: Write> StdSink<W> {
    /// A sink over this writer, with no flush and no fault yet.
    pub fn new(inner: W) -> StdSink<W>
        ensures written { ⟦<StdSink<W> as Sink>⟧.written result ≡ W.contents inner }
        ensures flushes { ⟦<StdSink<W> as Sink>⟧.flushes result ≡ 0 }
        ensures faults { ⟦<StdSink<W> as Sink>⟧.faults result ≡ 0 }
    {
        StdSink {
            inner,
            flushes: 0,
            faults: 0,
        }
    }
}

impl<W: Write> Sink for StdSink<W> {
    ghost use Rattle.yds_port.specs.Adapter.{writer_of, write_faults, flush_calls};

    // What the writer tells.
    ghost written = { λ sink. W.contents (writer_of sink) };

    // std's writers tell nothing of it.
    ghost flushed = { λ _. None };

    ghost flushes = { flush_calls };

    ghost faults = { write_faults };

    fn write(&mut self, piece: &[u8]) -> Given {
        let given = given_by(self.inner.write(piece));
        if given == Given::Failed {
            self.faults = self.faults.saturating_add(1);
        }
        given
    }

    fn flush(&mut self) -> Flushed {
        self.flushes = self.flushes.saturating_add(1);
        let flushed = flushed_by(self.inner.flush());
        if flushed == Flushed::Failed {
            self.faults = self.faults.saturating_add(1);
        }
        flushed
    }
}

/// What a writer's answer to a piece that isn't empty means to a sink. A write of no byte failed.
fn given_by(answer: io::Result<usize>) -> Given
    ensures { result ≡ given_by answer }
{
    match answer {
        Ok(0) => Given::Failed,
        Ok(count) => Given::Bytes(count),
        Err(_) => Given::Failed,
    }
}

/// What a writer's answer to a flush means to a sink.
fn flushed_by(answer: io::Result<()>) -> Flushed
    ensures { result ≡ flushed_by answer }
{
    match answer {
        Ok(()) => Flushed::Done,
        Err(_) => Flushed::Failed,
    }
}

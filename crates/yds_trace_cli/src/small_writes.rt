//! A sink that is written to in small pieces.
ghost use Rattle.std.specs.Prelude.{◌≡◌};

use yds_port::{Flushed, Given, Sink};

/// How many bytes one write hands on, at most. It is less than the buffer before standard output holds: what is longer than that is
/// written past it, and an interrupted write isn't tried again there.
const WRITE_PIECE: usize = 4_096;

/// A sink that hands on its writes to another one, each a small piece.
#[derive(Drop)]
pub(crate) struct SmallWrites<K> {
    inner: K,
}

impl<K: Sink> SmallWrites<K> {
    /// A sink before this one.
    pub(crate) fn new(inner: K) -> SmallWrites<K>
        ensures written { ⟦<SmallWrites<K> as Sink>⟧.written result ≡ K.written inner }
        ensures flushes { ⟦<SmallWrites<K> as Sink>⟧.flushes result ≡ K.flushes inner }
        ensures faults { ⟦<SmallWrites<K> as Sink>⟧.faults result ≡ K.faults inner }
    {
        SmallWrites { inner }
    }
}

impl<K: Sink> Sink for SmallWrites<K> {
    ghost use Rattle.yds_trace_cli.specs.Small.{inner_of};

    ghost written = { λ sink. K.written (inner_of sink) };

    ghost flushed = { λ sink. K.flushed (inner_of sink) };

    ghost flushes = { λ sink. K.flushes (inner_of sink) };

    ghost faults = { λ sink. K.faults (inner_of sink) };

    fn write(&mut self, piece: &[u8]) -> Given {
        let front = piece.len().min(WRITE_PIECE);
        self.inner.write(&piece[..front])
    }

    fn flush(&mut self) -> Flushed {
        self.inner.flush()
    }
}

ghost use Rattle.std.specs.Prelude.{◌≡◌, ℕ, List, Option, ◌<◌, length};
ghost use Rattle.std.specs.Io.KnownBytes.{Keeps};

/// What one write took.
#[derive(Clone, Copy, Debug, PartialEq, Eq)]
pub enum Given {
    /// So many bytes from the front of the piece, at least one.
    Bytes(usize),
    /// The write failed. The sink counted a fault, and nothing was appended.
    Failed,
}

/// What one flush did.
#[derive(Clone, Copy, Debug, PartialEq, Eq)]
pub enum Flushed {
    /// All that was written is flushed.
    Done,
    /// The flush failed, and the sink counted a fault.
    Failed,
}

/// Where bytes go to.
pub trait Sink {
    ghost use Rattle.yds_port.specs.Sink.{Writes, Flushes};
    ghost use Rattle.yds_port.specs.Count.{next_count};

    // The bytes that were written, where the sink tells them.
    ghost written: { Self → Option (List ℕ) };

    // How many of the written bytes were flushed, where the sink tells it.
    ghost flushed: { Self → Option ℕ };

    // How often the sink was flushed, or tried to be.
    ghost flushes: { Self → ℕ };

    // How many faults there were.
    ghost faults: { Self → ℕ };

    /// Appends bytes from the front of `piece`, which isn't empty.
    fn write(&mut self, piece: &[u8]) -> Given
        requires { 0 < length piece.now }
        ensures writes { Writes result piece.now (written self.old) (written self.new)
            (faults self.old) (faults self.new) }
        ensures flushed_stays { flushed self.new ≡ flushed self.old }
        ensures flushes_stay { flushes self.new ≡ flushes self.old };

    /// Passes on all that was written. Each call counts, one that fails too.
    fn flush(&mut self) -> Flushed
        ensures flushes { Flushes result (written self.new) (flushed self.new)
            (faults self.old) (faults self.new) }
        ensures written_stays { Keeps (written self.old) (written self.new) }
        ensures counted { flushes self.new ≡ next_count (flushes self.old) };
}

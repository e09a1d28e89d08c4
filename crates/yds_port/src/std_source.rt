ghost use Rattle.std.specs.Prelude.{◌≡◌};
ghost use Rattle.yds_port.specs.Adapter.{taken_by};

use crate::source::{Source, Taken};
use std::io;
use std::io::Read;

/// Any reader of std. Each error of the reader is a fault, `Interrupted` too.
#[derive(Debug, Drop)]
pub struct StdSource<R> {
    inner: R,
    faults: u64,
}

impl<R: Read> StdSource<R> {
    /// A source over this reader, with no fault yet.
    pub fn new(inner: R) -> StdSource<R>
        ensures left { ⟦<StdSource<R> as Source>⟧.left result ≡ R.remaining inner }
        ensures faults { ⟦<StdSource<R> as Source>⟧.faults result ≡ 0 }
    {
        StdSource { inner, faults: 0 }
    }
}

impl<R: Read> Source for StdSource<R> {
    ghost use Rattle.yds_port.specs.Adapter.{reader_of, read_faults};

    // What the reader tells.
    ghost left = { λ source. R.remaining (reader_of source) };

    ghost faults = { read_faults };

    fn read(&mut self, into: &mut [u8]) -> Taken {
        let taken = taken_by(self.inner.read(into));
        if taken == Taken::Failed {
            self.faults = self.faults.saturating_add(1);
        }
        taken
    }
}

/// What a reader's answer means to a source. A read of no byte is the end.
fn taken_by(answer: io::Result<usize>) -> Taken
    ensures { result ≡ taken_by answer }
{
    match answer {
        Ok(0) => Taken::End,
        Ok(count) => Taken::Bytes(count),
        Err(_) => Taken::Failed,
    }
}

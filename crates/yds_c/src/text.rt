ghost use Rattle.std.specs.Prelude.{◌≡◌, [], Some, None};

use std::alloc::Global;
use std::marker::Model;
use yds_port::{Flushed, Given, Sink};

/// A text that grows as it is written. A write fails for want of memory alone. Nothing is held back, so a flush does nothing.
#[derive(Drop)]
pub(crate) struct Text {
    bytes: Vec<u8>,
    flushes: u64,
    faults: u64,
}

impl Model for Text {
    ghost use Rattle.yds_c.specs.Text.{TextState};

    ghost Value = { TextState };

    ghost view = { λ text. record {
      written = text.bytes.items;
      flushes = text.flushes;
      faults = text.faults;
    } };
}

impl Text {
    /// A text without a byte. It takes no memory.
    pub(crate) fn new(alloc: Global) -> Text
        ensures { result ≡ record {
          written = [];
          flushes = 0;
          faults = 0;
        } }
    {
        Text {
            bytes: Vec::new(alloc),
            flushes: 0,
            faults: 0,
        }
    }

    /// What was written.
    pub(crate) fn bytes(&self) -> &[u8]
        ensures { result.now ≡ self.now.written }
    {
        &self.bytes
    }
}

impl Sink for Text {
    ghost written = { λ text. Some text.written };

    ghost flushed = { λ _. None };

    ghost flushes = { λ text. text.flushes };

    ghost faults = { λ text. text.faults };

    fn write(&mut self, piece: &[u8]) -> Given {
        if self.bytes.extend_from_slice(piece).is_err() {
            self.faults = self.faults.saturating_add(1);
            return Given::Failed;
        }
        Given::Bytes(piece.len())
    }

    fn flush(&mut self) -> Flushed {
        self.flushes = self.flushes.saturating_add(1);
        Flushed::Done
    }
}

ghost use Rattle.std.specs.Prelude.{◌≡◌, ◌↔◌, ◌<◌, ◌≤◌, ℕ, length, min, Some, Contains};
ghost use Rattle.yds_port.specs.Count.{next_count};
ghost use Rattle.yds_port.specs.Source.{Reads};

use crate::shared::{copy_front, is_failing};
use crate::source::{Source, Taken};
use std::marker::Model;

/// Bytes in memory, of which chosen reads fail.
#[derive(Debug, Drop)]
pub struct MemorySource {
    bytes: Vec<u8>,
    read: usize,
    piece: usize,
    failing: Vec<u32>,
    calls: u64,
    faults: u64,
}

impl Model for MemorySource {
    ghost use Rattle.std.specs.Prelude.{◌≤◌, drop, vec_len};
    ghost use Rattle.yds_port.specs.Memory.{SourceState};

    ghost Value = { SourceState };

    ghost view = { λ s. record {
      left = drop s.read s.bytes.items;
      piece = s.piece;
      failing = s.failing.items;
      calls = s.calls;
      faults = s.faults;
    } };

    ghost invariant = { λ s. (s.read ≤ vec_len s.bytes) × (1 ≤ s.piece) };
}

impl MemorySource {
    /// A source that gives these bytes, at most `piece` of them in a read. The reads whose numbers,
    /// counted from 1, stand in `failing` fail. It takes no memory.
    pub fn new(bytes: Vec<u8>, piece: usize, failing: Vec<u32>) -> MemorySource
        requires { 1 ≤ piece }
        ensures { result ≡ record {
          left = bytes.items;
          piece = piece;
          failing = failing.items;
          calls = 0;
          faults = 0;
        } }
    {
        MemorySource {
            bytes,
            read: 0,
            piece,
            failing,
            calls: 0,
            faults: 0,
        }
    }
}

impl Source for MemorySource {
    ghost left = { λ s. Some s.left };

    ghost faults = { λ s. s.faults };

    fn read(&mut self, into: &mut [u8]) -> Taken
        requires { 0 < length into.old }
        ensures reads { Reads result into.new (Some self.old.left) (Some self.new.left)
            self.old.faults self.new.faults }

        // Exactly the numbered calls fail, and each counts one fault.
        ensures numbered { self.new.calls ≡ next_count self.old.calls }
        ensures fails { (result ≡ Taken.Failed) ↔ Contains self.old.failing self.new.calls }
        ensures counts { result ≡ Taken.Failed → self.new.faults ≡ next_count self.old.faults }

        // Any other call gives as much as there is, up to a piece and the buffer.
        ensures gives { (n : ℕ) → result ≡ Taken.Bytes n
            → n ≡ min (min (length self.old.left) (length into.old)) self.old.piece }
        ensures settings { (self.new.piece ≡ self.old.piece) × (self.new.failing ≡ self.old.failing) }
    {
        self.calls = self.calls.saturating_add(1);
        if is_failing(&self.failing, self.calls) {
            self.faults = self.faults.saturating_add(1);
            return Taken::Failed;
        }
        let count = copy_front(&self.bytes[self.read..], into, self.piece);
        if count == 0 {
            return Taken::End;
        }
        self.read += count;
        Taken::Bytes(count)
    }
}

ghost use Rattle.std.specs.Prelude.{◌≡◌, ◌↔◌, ◌⊎◌, ◌<◌, ◌≤◌, ◌-◌, ℕ, [], length, min, Some, IfOk, Contains};
ghost use Rattle.yds_port.specs.Count.{next_count};
ghost use Rattle.yds_port.specs.Sink.{Writes, Flushes};

use crate::shared::is_failing;
use crate::sink::{Flushed, Given, Sink};
use base::Memory;
use std::alloc::Global;
use std::marker::Model;

/// Room in memory for bytes, of which chosen writes and flushes fail.
#[derive(Debug, Drop)]
pub struct MemorySink {
    bytes: Vec<u8>,
    flushed: usize,
    room: usize,
    piece: usize,
    failing: Vec<u32>,
    calls: u64,
    flushes: u64,
    faults: u64,
}

impl Model for MemorySink {
    ghost use Rattle.std.specs.Prelude.{◌≤◌, vec_len, vec_capacity};
    ghost use Rattle.yds_port.specs.Memory.{SinkState};

    ghost Value = { SinkState };

    ghost view = { λ s. record {
      written = s.bytes.items;
      flushed = s.flushed;
      room = s.room;
      piece = s.piece;
      failing = s.failing.items;
      calls = s.calls;
      flushes = s.flushes;
      faults = s.faults;
    } };

    ghost invariant = { λ s. (vec_len s.bytes ≤ s.room) × (s.room ≤ vec_capacity s.bytes) × (1 ≤ s.piece) };
}

impl MemorySink {
    /// A sink that holds at most `room` bytes. A write takes at most `piece` of them, and at most what
    /// is left of the room; a write into a full room fails. The calls of `write` and `flush` whose
    /// numbers, counted from 1 together, stand in `failing` fail. The only error is want of memory.
    pub fn with_room(
        alloc: Global,
        room: usize,
        piece: usize,
        failing: Vec<u32>,
    ) -> Result<MemorySink, Memory>
        requires { 1 ≤ piece }
        ensures { IfOk result (λ sink. sink ≡ record {
          written = [];
          flushed = 0;
          room = room;
          piece = piece;
          failing = failing.items;
          calls = 0;
          flushes = 0;
          faults = 0;
        }) }
    {
        let bytes = Vec::with_capacity(alloc, room)?;
        Ok(MemorySink {
            bytes,
            flushed: 0,
            room,
            piece,
            failing,
            calls: 0,
            flushes: 0,
            faults: 0,
        })
    }

    /// The bytes that were written. It takes no memory.
    pub fn bytes(&self) -> &[u8]
        ensures { result.now ≡ self.now.written }
    {
        &self.bytes
    }
}

impl Sink for MemorySink {
    ghost written = { λ s. Some s.written };

    ghost flushed = { λ s. Some s.flushed };

    ghost flushes = { λ s. s.flushes };

    ghost faults = { λ s. s.faults };

    fn write(&mut self, piece: &[u8]) -> Given
        requires { 0 < length piece.now }
        ensures writes { Writes result piece.now (Some self.old.written) (Some self.new.written)
            self.old.faults self.new.faults }
        ensures flushed_stays { self.new.flushed ≡ self.old.flushed }
        ensures flushes_stay { self.new.flushes ≡ self.old.flushes }

        // Exactly the numbered calls fail, and those into a full room, and each counts one fault.
        ensures numbered { self.new.calls ≡ next_count self.old.calls }
        ensures fails { (result ≡ Given.Failed)
            ↔ (Contains self.old.failing self.new.calls ⊎ (length self.old.written ≡ self.old.room)) }
        ensures counts { result ≡ Given.Failed → self.new.faults ≡ next_count self.old.faults }

        // Any other call takes as much as there is, up to a piece and the room.
        ensures takes { (n : ℕ) → result ≡ Given.Bytes n
            → n ≡ min (min (length piece.now) self.old.piece) (self.old.room - length self.old.written) }
        ensures settings { (self.new.room ≡ self.old.room) × (self.new.piece ≡ self.old.piece)
            × (self.new.failing ≡ self.old.failing) }
    {
        self.calls = self.calls.saturating_add(1);
        let room = self.room - self.bytes.len();
        let count = piece.len().min(self.piece).min(room);
        if count == 0 || is_failing(&self.failing, self.calls) {
            self.faults = self.faults.saturating_add(1);
            return Given::Failed;
        }
        self.bytes.extend_from_slice(&piece[..count]).unwrap();
        Given::Bytes(count)
    }

    fn flush(&mut self) -> Flushed
        ensures flushes { Flushes result (Some self.new.written) (Some self.new.flushed)
            self.old.faults self.new.faults }
        ensures written_stays { self.new.written ≡ self.old.written }
        ensures counted { self.new.flushes ≡ next_count self.old.flushes }

        // Exactly the numbered calls fail. Each counts one fault, and flushes nothing more.
        ensures numbered { self.new.calls ≡ next_count self.old.calls }
        ensures fails { (result ≡ Flushed.Failed) ↔ Contains self.old.failing self.new.calls }
        ensures counts { result ≡ Flushed.Failed → self.new.faults ≡ next_count self.old.faults }
        ensures not_flushed { result ≡ Flushed.Failed → self.new.flushed ≡ self.old.flushed }
        ensures settings { (self.new.room ≡ self.old.room) × (self.new.piece ≡ self.old.piece)
            × (self.new.failing ≡ self.old.failing) }
    {
        self.calls = self.calls.saturating_add(1);
        self.flushes = self.flushes.saturating_add(1);
        if is_failing(&self.failing, self.calls) {
            self.faults = self.faults.saturating_add(1);
            return Flushed::Failed;
        }
        self.flushed = self.bytes.len();
        Flushed::Done
    }
}

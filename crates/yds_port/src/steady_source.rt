ghost use Rattle.std.specs.Prelude.{◌≡◌, ◌≢◌, ◌<◌, length, Some};
ghost use Rattle.yds_port.specs.Source.{Reads};

use crate::shared::copy_front;
use crate::source::{Source, Taken};
use std::marker::Model;

/// Bytes in memory, which are read with no fault.
#[derive(Debug, Drop)]
pub struct SteadySource {
    bytes: Vec<u8>,
    read: usize,
}

impl Model for SteadySource {
    ghost use Rattle.std.specs.Prelude.{ℕ, List, ◌≤◌, drop, vec_len};

    ghost Value = { List ℕ };

    ghost view = { λ s. drop s.read s.bytes.items };

    ghost invariant = { λ s. s.read ≤ vec_len s.bytes };
}

impl SteadySource {
    /// A source that gives these bytes. It takes no memory.
    pub fn new(bytes: Vec<u8>) -> SteadySource
        ensures { result ≡ bytes.items }
    {
        SteadySource { bytes, read: 0 }
    }
}

impl Source for SteadySource {
    ghost left = { λ s. Some s };

    ghost faults = { λ _. 0 };

    fn read(&mut self, into: &mut [u8]) -> Taken
        requires { 0 < length into.old }
        ensures reads { Reads result into.new (Some self.old) (Some self.new) 0 0 }
        ensures steady { result ≢ Taken.Failed }
    {
        let rest = &self.bytes[self.read..];
        let count = copy_front(rest, into, rest.len());
        if count == 0 {
            return Taken::End;
        }
        self.read += count;
        Taken::Bytes(count)
    }
}

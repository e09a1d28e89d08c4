ghost use Rattle.std.specs.Prelude.{ℕ, List, Option, ◌<◌, length};

/// What one read gave.
#[derive(Clone, Copy, Debug, PartialEq, Eq)]
pub enum Taken {
    /// So many bytes, at least one, stand at the front of the buffer.
    Bytes(usize),
    /// Nothing is left.
    End,
    /// The read failed. The source counted a fault, and what was left is still left.
    Failed,
}

/// Where bytes come from.
pub trait Source {
    ghost use Rattle.yds_port.specs.Source.{Reads};

    // The bytes that are left, where the source tells them.
    ghost left: { Self → Option (List ℕ) };

    // How many faults there were.
    ghost faults: { Self → ℕ };

    /// Reads the next bytes into the front of `into`, which isn't empty.
    fn read(&mut self, into: &mut [u8]) -> Taken
        requires { 0 < length into.old }
        ensures { Reads result into.new (left self.old) (left self.new)
            (faults self.old) (faults self.new) };
}

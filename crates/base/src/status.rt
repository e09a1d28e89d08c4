ghost use Rattle.std.specs.Prelude.{◌≡◌};
ghost use Rattle.base.specs.Status.{status_code};

/// How a run of the program ended.
#[derive(Clone, Copy, Debug, PartialEq, Eq)]
pub enum Status {
    /// The command's answer was written whole.
    Done,
    /// The answer was written whole, and it is no: the certificate isn't proper, the slots aren't
    /// feasible or aren't on the operating points, or the top operating point is too slow.
    No,
    /// The words name no command.
    Usage,
    /// The document has a fault or is too long, or a table is wanted and there is none.
    Refused,
    /// The input couldn't be read; nothing was written.
    ReadFault,
    /// The output couldn't be written; a front of the answer was.
    WriteFault,
    /// Want of memory; nothing was written.
    Memory,
}

impl Status {
    /// The program's exit status, from 0 for `Done` to 6 for `Memory`.
    pub fn code(self) -> u8
        ensures { result ≡ status_code self }
    {
        match self {
            Status::Done => 0,
            Status::No => 1,
            Status::Usage => 2,
            Status::Refused => 3,
            Status::ReadFault => 4,
            Status::WriteFault => 5,
            Status::Memory => 6,
        }
    }
}

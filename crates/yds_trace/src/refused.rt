//! Why a line isn't taken, or a trace isn't told.
ghost use Rattle.std.specs.Prelude.{◌≡◌};

use crate::fault::Cause;
use base::Memory;

/// Why a line isn't taken, or what is known at the end isn't told.
#[derive(Clone, Copy, Debug, PartialEq, Eq)]
pub enum Refused {
    /// The trace has a fault.
    Fault(Cause),
    /// Out of memory.
    Memory,
}

impl From<Memory> for Refused {
    ghost use Rattle.std.specs.Prelude.{◌≡◌};
    ghost use Rattle.yds_trace.specs.declared.refused.Refused.TheVariants as refusals;

    ghost from_gives = { λ _ refused. refused ≡ refusals.Memory };

    fn from(_error: Memory) -> Refused {
        Refused::Memory
    }
}

impl From<Cause> for Refused {
    ghost use Rattle.std.specs.Prelude.{◌≡◌};
    ghost use Rattle.yds_trace.specs.declared.refused.Refused.TheVariants as refusals;

    ghost from_gives = { λ cause refused. refused ≡ refusals.Fault cause };

    fn from(cause: Cause) -> Refused {
        Refused::Fault(cause)
    }
}

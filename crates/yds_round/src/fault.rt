use thiserror::Error;
use yds_model::Memory;

/// Why a plan isn't rounded.
#[derive(Clone, Copy, Debug, PartialEq, Eq, Error)]
pub enum RoundFault {
    /// The plan's first level is faster than the table's last point.
    #[error("a level of work {work} in {length} time units is faster than the top speed {top}")]
    TooSlow {
        /// The level's work, in units of work.
        work: u64,
        /// The level's length, in time units.
        length: u64,
        /// The speed of the table's last point, in work per time unit.
        top: u32,
    },
    /// Want of memory.
    #[error("out of memory")]
    Memory,
}

impl From<Memory> for RoundFault {
    ghost use Rattle.std.specs.Prelude.{◌≡◌};
    ghost use Rattle.yds_round.specs.declared.fault.RoundFault.{RoundFault};

    ghost from_gives = { λ _ fault. fault ≡ RoundFault.Memory };

    fn from(_error: Memory) -> RoundFault {
        RoundFault::Memory
    }
}

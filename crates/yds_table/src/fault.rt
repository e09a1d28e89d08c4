use thiserror::Error;
use yds_model::Memory;

/// Why a table is refused, or one more point of it, in the order in which the causes are tried.
#[derive(Clone, Copy, Debug, PartialEq, Eq, Error)]
pub enum TableFault {
    /// The first point has a speed other than 0.
    #[error("the first operating point has a speed other than 0")]
    NoIdle,
    /// The point isn't faster than the one before it.
    #[error("an operating point that isn't faster than the one before it")]
    NotRising,
    /// The least common multiple of the gaps between the speeds of the lower hull is too great.
    #[error("gaps between operating points that are too fine")]
    GapsTooFine,
    /// Want of memory.
    #[error("out of memory")]
    Memory,
}

impl From<Memory> for TableFault {
    ghost use Rattle.std.specs.Prelude.{◌≡◌};
    ghost use Rattle.yds_table.specs.declared.fault.TableFault.{TableFault};

    ghost from_gives = { λ _ fault. fault ≡ TableFault.Memory };

    fn from(_error: Memory) -> TableFault {
        TableFault::Memory
    }
}

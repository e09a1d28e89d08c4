ghost use Rattle.std.specs.Prelude.{◌≡◌, ℕ, ◌+◌, ◌<◌, ◌≤◌, ◌↔◌, IsTrue, IfOk, length, true, false, nat_le, nat_lt};
ghost use Rattle.std.specs.List.Sorted.{IsPartitionPoint};
ghost use Rattle.base.specs.declared.limits.TheConstants.{MAX_LEVELS};
ghost use Rattle.yds_checker.specs.Placed.{holding};
ghost use Rattle.yds_checker.specs.PiecesInTurn.{AreInTurn, AreJoined};

use crate::heights::{are_within, heights};
use crate::placed::Placed;
use std::alloc::Global;
use std::marker::Model;
use yds_model::Memory;

/// Pieces one after another, made ready for telling what they cover.
#[derive(Drop)]
pub(crate) struct PiecesInTurn {
    placed: Vec<Placed>,
    nodes: Vec<u32>,
}

impl Model for PiecesInTurn {
    ghost use Rattle.std.specs.Prelude.{List};
    ghost use Rattle.yds_checker.specs.declared.placed.Placed.{Placed as PlacedPiece};
    ghost use Rattle.yds_checker.specs.PiecesInTurn.{ArePiecesInTurn};

    ghost Value = { List PlacedPiece };

    ghost view = { λ r. r.placed.items };

    ghost invariant = { λ r. ArePiecesInTurn r.placed.items r.nodes.items };
}

/// The number of pieces that have ended by this time.
fn ended_by(placed: &[Placed], time: u32) -> usize
    requires { AreInTurn placed.now }
    ensures bound { result ≤ length placed.now }
    ensures place { IsPartitionPoint (λ piece. nat_le piece.to time ≡ true) (λ piece. nat_le piece.to time ≡ false) placed.now result }
{
    placed.partition_point(|piece| piece.to <= time)
}

/// The number of pieces that begin before this time.
fn begun_before(placed: &[Placed], time: u32) -> usize
    requires { AreInTurn placed.now }
    ensures bound { result ≤ length placed.now }
    ensures place { IsPartitionPoint (λ piece. nat_lt piece.from time ≡ true) (λ piece. nat_lt piece.from time ≡ false) placed.now result }
{
    placed.partition_point(|piece| piece.from < time)
}

impl PiecesInTurn {
    /// The run of these pieces.
    pub(crate) fn new(alloc: Global, placed: Vec<Placed>) -> Result<PiecesInTurn, Memory>
        requires { AreInTurn placed.items }
        ensures { IfOk result (λ run. run ≡ placed.items) }
    {
        let nodes = heights(alloc, &placed)?;
        Ok(PiecesInTurn { placed, nodes })
    }

    /// Whether the pieces from one to before another are of this level and earlier ones, and each begins where the one
    /// before ends.
    fn are_joined(&self, level: u32, first: usize, end: usize) -> bool
        requires some { first < end }
        requires within { end ≤ length self.now }
        ensures { level < MAX_LEVELS → (IsTrue result ↔ AreJoined self.now level first end) }
    {
        let leaves = self.placed.len();
        self.placed[end - 1].level <= level
            && are_within(&self.nodes, leaves + first, leaves + end - 1, level)
    }

    /// Whether each unit of time from one time to another lies in a piece of this level or of an earlier one.
    pub(crate) fn covers(&self, level: u32, from: u32, to: u32) -> bool
        requires { from < to }
        ensures { level < MAX_LEVELS →
            (IsTrue result ↔ ((time : ℕ) → from ≤ time → time < to → 1 ≤ holding (level + 1) time self.now)) }
    {
        let first = ended_by(&self.placed, from);
        let end = begun_before(&self.placed, to);
        if end <= first || from < self.placed[first].from || self.placed[end - 1].to < to {
            return false;
        }
        self.are_joined(level, first, end)
    }
}

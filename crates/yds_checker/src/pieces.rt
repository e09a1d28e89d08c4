ghost use Rattle.std.specs.Prelude.{◌<◌, ◌≤◌, ◌↔◌, IsTrue, IfOk, length};
ghost use Rattle.base.specs.declared.limits.TheConstants.{MAX_LEVELS};
ghost use Rattle.base.specs.Numbers.{Each};
ghost use Rattle.yds_model.specs.Piece.{PiecesFrom};
ghost use Rattle.yds_model.specs.Level.{level_at};
ghost use Rattle.yds_checker.specs.Standing.{IsOrdered, IsFound};

use crate::placed::{Placed, levels_apart, placed_pieces};
use std::alloc::Global;
use yds_certificate::{Level, Piece};
use yds_model::Memory;

/// What is found of the pieces of all levels.
#[derive(Debug, Drop)]
pub(crate) enum Standing {
    /// They stand; here they are in rising order.
    Apart(Vec<Placed>),
    /// The first level whose pieces don't stand.
    Wrong(u32),
}

/// Whether the pieces lie one after another, and each takes time.
fn are_in_order(pieces: &[Piece]) -> bool
    ensures { IsTrue result ↔ PiecesFrom 0 pieces.now }
{
    let mut end = 0;
    for piece in pieces {
        if piece.from < end || piece.to <= piece.from {
            return false;
        }
        end = piece.to;
    }
    true
}

/// Whether the level has a piece, and its pieces lie one after another.
fn is_ordered(level: &Level) -> bool
    ensures { IsTrue result ↔ IsOrdered level.now }
{
    !level.pieces.is_empty() && are_in_order(&level.pieces)
}

/// The number of levels before the first whose pieces don't lie one after another.
fn levels_ordered(levels: &[Level]) -> usize
    ensures bound { result ≤ length levels.now }
    ensures before { Each result (λ i. IsOrdered (level_at levels.now i)) }
    ensures first { result < length levels.now → IsOrdered (level_at levels.now result) → ⊥ }
{
    for (i, level) in levels.iter().enumerate() {
        if !is_ordered(level) {
            return i;
        }
    }
    levels.len()
}

/// The pieces of all levels in rising order, or the first level whose pieces don't stand.
pub(crate) fn standing_of(alloc: Global, levels: &[Level]) -> Result<Standing, Memory>
    requires { length levels.now ≤ MAX_LEVELS }
    ensures { IfOk result (IsFound levels.now) }
{
    let ordered = levels_ordered(levels);
    let placed = placed_pieces(alloc, &levels[..ordered])?;
    let apart = levels_apart(&placed, ordered as u32);
    if (apart as usize) < levels.len() {
        return Ok(Standing::Wrong(apart));
    }
    Ok(Standing::Apart(placed))
}

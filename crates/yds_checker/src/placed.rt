ghost use Rattle.std.specs.Prelude.{◌+◌, ◌<◌, ◌≤◌, ◌↔◌, IsTrue, IfOk, OnOk, length};
ghost use Rattle.std.specs.List.{All};
ghost use Rattle.base.specs.declared.limits.TheConstants.{MAX_LEVELS};
ghost use Rattle.yds_model.specs.Piece.{IsForward};
ghost use Rattle.yds_checker.specs.Placed.{PlacesMore, ArePlaced, AreByStart, AreApartBelow};

use std::alloc::Global;
use yds_certificate::{Level, Piece};
use yds_model::Memory;

/// A piece of a level, among those of all levels.
#[derive(Clone, Copy, Debug)]
pub(crate) struct Placed {
    /// The time at which it begins.
    pub(crate) from: u32,
    /// The time at which it ends.
    pub(crate) to: u32,
    /// The number of its level.
    pub(crate) level: u32,
}

/// Puts the pieces of a level last.
fn place(placed: &mut Vec<Placed>, pieces: &[Piece], level: u32) -> Result<(), Memory>
    requires { All IsForward pieces.now }
    ensures { OnOk result (PlacesMore placed.old.items placed.new.items pieces.now level) }
{
    for piece in pieces {
        placed.push(Placed {
            from: piece.from,
            to: piece.to,
            level,
        })?;
    }
    Ok(())
}

/// The pieces of these levels, in no order.
fn gathered(alloc: Global, levels: &[Level]) -> Result<Vec<Placed>, Memory>
    requires few { length levels.now ≤ MAX_LEVELS }
    requires forward { All (λ level. All IsForward level.pieces) levels.now }
    ensures { IfOk result (λ placed. ArePlaced levels.now (length levels.now) placed.items) }
{
    let mut placed = Vec::new(alloc);
    for (i, level) in levels.iter().enumerate() {
        place(&mut placed, &level.pieces, i as u32)?;
    }
    Ok(placed)
}

/// The pieces of these levels, in rising order of the times at which they begin.
pub(crate) fn placed_pieces(alloc: Global, levels: &[Level]) -> Result<Vec<Placed>, Memory>
    requires few { length levels.now ≤ MAX_LEVELS }
    requires forward { All (λ level. All IsForward level.pieces) levels.now }
    ensures placed { IfOk result (λ placed. ArePlaced levels.now (length levels.now) placed.items) }
    ensures rising { IfOk result (λ placed. AreByStart placed.items) }
{
    let mut placed = gathered(alloc, levels)?;
    placed.sort_by_key(|piece| piece.from)?;
    Ok(placed)
}

/// Whether no two pieces of the first so many levels overlap.
fn are_apart(placed: &[Placed], levels: u32) -> bool
    requires rising { AreByStart placed.now }
    requires each { All (λ piece. piece.from < piece.to) placed.now }
    ensures { IsTrue result ↔ AreApartBelow levels placed.now }
{
    let mut end = 0;
    for piece in placed {
        if piece.level < levels {
            if piece.from < end {
                return false;
            }
            end = piece.to;
        }
    }
    true
}

/// The greatest number, up to this one, of first levels of which no two pieces overlap.
pub(crate) fn levels_apart(placed: &[Placed], levels: u32) -> u32
    requires rising { AreByStart placed.now }
    requires each { All (λ piece. piece.from < piece.to) placed.now }
    ensures bound { result ≤ levels }
    ensures apart { AreApartBelow result placed.now }
    ensures greatest { result < levels → AreApartBelow (result + 1) placed.now → ⊥ }
{
    if are_apart(placed, levels) {
        return levels;
    }
    let mut apart = 0;
    let mut not_apart = levels;
    while apart + 1 < not_apart {
        let middle = apart + (not_apart - apart) / 2;
        if are_apart(placed, middle) {
            apart = middle;
        } else {
            not_apart = middle;
        }
    }
    apart
}

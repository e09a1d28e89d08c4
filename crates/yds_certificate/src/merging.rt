ghost use Rattle.std.specs.Prelude.{◌≡◌, ◌<◌, ◌≤◌, ◌↔◌, ◌++◌, length, IsTrue, IfOk, OnOk};
ghost use Rattle.std.specs.List.Sorted.{IsPermutation, IsNonDecreasing, IsNonDecreasingBy};
ghost use Rattle.yds_model.specs.Piece.{PiecesFrom};
ghost use Rattle.yds_certificate.specs.Merging.{AreSeparate, end_of, Touches, IsExtended, IsJoined};

use crate::piece::Piece;
use std::alloc::Global;
use yds_model::Memory;

/// Whether the last of the pieces ends where this one begins.
fn touches(pieces: &[Piece], piece: &Piece) -> bool
    ensures { IsTrue result ↔ Touches pieces.now piece.now }
{
    match pieces {
        [.., last] => last.to == piece.from,
        [] => false,
    }
}

/// Puts a piece after others. It joins the last of them where they touch.
fn append(joined: &mut Vec<Piece>, piece: Piece) -> Result<(), Memory>
    requires forward { piece.from < piece.to }
    requires after { end_of joined.old.items ≤ piece.from }
    requires separate { AreSeparate joined.old.items }
    ensures { OnOk result (IsExtended joined.old.items joined.new.items piece) }
{
    if touches(joined, &piece) {
        let place = joined.len() - 1;
        let last = &mut joined[place];
        last.to = piece.to;
        return Ok(());
    }
    let _from = piece.from;
    joined.push(piece)?;
    Ok(())
}

/// The same time as these pieces, which lie one after another, with touching ones joined.
pub(crate) fn join_touching(alloc: Global, pieces: &[Piece]) -> Result<Vec<Piece>, Memory>
    requires { PiecesFrom 0 pieces.now }
    ensures { IfOk result (λ joined. IsJoined pieces.now joined.items) }
{
    let mut joined = Vec::new(alloc);
    for piece in pieces {
        append(&mut joined, *piece)?;
    }
    Ok(joined)
}

/// The pieces of both, in rising order of their starts.
pub(crate) fn by_start(
    alloc: Global,
    first: &[Piece],
    second: &[Piece],
) -> Result<Vec<Piece>, Memory>
    ensures same { IfOk result (λ all. IsPermutation (first.now ++ second.now) all.items) }
    ensures rising { IfOk result (λ all. IsNonDecreasingBy (λ piece. piece.from) all.items) }
{
    let mut all = Vec::from_slice(alloc, first)?;
    all.extend_from_slice(second)?;
    all.sort_by_key(|piece| piece.from)?;
    Ok(all)
}

/// The members of both, rising.
pub(crate) fn in_order(alloc: Global, first: &[u32], second: &[u32]) -> Result<Vec<u32>, Memory>
    ensures same { IfOk result (λ all. IsPermutation (first.now ++ second.now) all.items) }
    ensures rising { IfOk result (λ all. IsNonDecreasing all.items) }
{
    let mut all = Vec::from_slice(alloc, first)?;
    all.extend_from_slice(second)?;
    all.sort()?;
    Ok(all)
}

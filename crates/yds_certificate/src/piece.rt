use std::marker::Model;

/// A piece of time, between two whole times of at most `MAX_TIME`.
///
/// That it begins before it ends isn't kept, since foreign pieces are read too.
#[derive(Clone, Copy, Debug, PartialEq, Eq)]
pub struct Piece {
    /// The time at which it begins, in time units.
    pub from: u32,
    /// The time at which it ends, in time units.
    pub to: u32,
}

impl Model for Piece {
    ghost use Rattle.yds_model.specs.Piece.{Piece as PieceOfTime};
    ghost use Rattle.yds_model.specs.Within.{IsPiece};

    ghost Value = { PieceOfTime };

    ghost view = { λ p. record { from = p.from; to = p.to } };

    ghost invariant = { λ p. IsPiece (record { from = p.from; to = p.to }) };

    ghost inverse = { λ p. record { from = p.from; to = p.to } };
}

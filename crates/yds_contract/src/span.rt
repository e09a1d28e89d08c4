use std::marker::Model;

/// A span of time in parts of a time unit.
#[derive(Clone, Copy, Debug)]
pub(crate) struct Span {
    /// Where it begins, in parts.
    pub from: u64,
    /// Where it ends, in parts.
    pub to: u64,
}

impl Model for Span {
    ghost use Rattle.yds_model.specs.Piece.{Piece};

    ghost Value = { Piece };

    ghost view = { λ s. record { from = s.from; to = s.to } };

    ghost inverse = { λ p. record { from = p.from; to = p.to } };
}

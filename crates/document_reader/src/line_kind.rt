//! The kinds of line, by the word that each begins with.

ghost use Rattle.std.specs.Prelude.{◌≡◌};
ghost use Rattle.yds_model.specs.Reading.{kind_of};
ghost use Rattle.document_reader.specs.LineKinds.{kind_told};

/// What a line is, by its first word.
#[derive(Clone, Copy, Debug, PartialEq, Eq)]
pub(crate) enum LineKind {
    Job,
    Point,
    Slot,
    Level,
    Piece,
    Member,
    Ticks,
    Run,
    Grid,
    Energy,
}

impl LineKind {
    /// The kind of a line whose first field is this word.
    pub(crate) fn of(word: &[u8]) -> Option<LineKind>
        ensures { kind_told result ≡ kind_of word.now }
    {
        match word {
            b"job" => Some(LineKind::Job),
            b"point" => Some(LineKind::Point),
            b"slot" => Some(LineKind::Slot),
            b"level" => Some(LineKind::Level),
            b"piece" => Some(LineKind::Piece),
            b"member" => Some(LineKind::Member),
            b"ticks" => Some(LineKind::Ticks),
            b"run" => Some(LineKind::Run),
            b"grid" => Some(LineKind::Grid),
            b"energy" => Some(LineKind::Energy),
            _ => None,
        }
    }
}

ghost use Rattle.std.specs.Prelude.{◌≡◌, Some};
ghost use Rattle.yds_model.specs.Reason.{reason_text};

use std::fmt;

/// Why a line of a document is refused. The reasons are tried in this order, but for those of the
/// fields, which are tried field by field from left to right.
#[derive(Clone, Copy, Debug, PartialEq, Eq)]
pub enum Reason {
    /// The first field is no kind of line.
    UnknownKind,
    /// The line may not stand here: a piece or a member before any level, a run before the ticks, or a
    /// second line of ticks, grid or energy.
    Misplaced,
    /// One line of its kind more than a document may have.
    TooMany,
    /// More or fewer fields than the kind of line has.
    FieldCount,
    /// The field isn't a name.
    BadName,
    /// A job of this name is there already.
    DuplicateName,
    /// No job of this name is there.
    UnknownName,
    /// The field isn't a number, or a fraction where one may stand.
    BadNumber,
    /// A number outside its limits.
    OutOfRange,
    /// A job whose deadline isn't after its release.
    EmptyWindow,
    /// A slot whose two ends have different denominators.
    MixedEnds,
    /// A slot or a run whose work has another denominator than an earlier work of its job.
    MixedGrain,
    /// The first operating point has a speed other than 0.
    NoIdle,
    /// An operating point that isn't faster than the one before it.
    NotRising,
    /// The gaps between the speeds of the table's lower hull have a least common multiple that is too
    /// great.
    GapsTooFine,
}

impl Reason {
    /// The word that stands for the reason in a refusal.
    pub fn word(self) -> &'static str
        ensures { result.now ≡ reason_text self }
    {
        match self {
            Reason::UnknownKind => "UnknownKind",
            Reason::Misplaced => "Misplaced",
            Reason::TooMany => "TooMany",
            Reason::FieldCount => "FieldCount",
            Reason::BadName => "BadName",
            Reason::DuplicateName => "DuplicateName",
            Reason::UnknownName => "UnknownName",
            Reason::BadNumber => "BadNumber",
            Reason::OutOfRange => "OutOfRange",
            Reason::EmptyWindow => "EmptyWindow",
            Reason::MixedEnds => "MixedEnds",
            Reason::MixedGrain => "MixedGrain",
            Reason::NoIdle => "NoIdle",
            Reason::NotRising => "NotRising",
            Reason::GapsTooFine => "GapsTooFine",
        }
    }
}

impl fmt::Display for Reason {
    ghost output = { λ r. Some (reason_text r) };

    fn fmt<W: fmt::Write>(&self, f: &mut fmt::Formatter<W>) -> fmt::Result {
        f.write_str(self.word())
    }
}

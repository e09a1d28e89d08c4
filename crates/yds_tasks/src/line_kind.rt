//! The kinds of line, by the word that each begins with.
ghost use Rattle.std.specs.Prelude.{◌≡◌};
ghost use Rattle.yds_tasks.specs.LineKinds.{line_kind_of};

/// What a line is, by its first word.
#[derive(Clone, Copy, Debug, PartialEq, Eq)]
pub(crate) enum LineKind {
    Horizon,
    Task,
}

impl LineKind {
    /// The kind of a line whose first field is this word.
    pub(crate) fn of(word: &[u8]) -> Option<LineKind>
        ensures { result ≡ line_kind_of word.now }
    {
        if word == b"horizon".as_slice() {
            Some(LineKind::Horizon)
        } else if word == b"task".as_slice() {
            Some(LineKind::Task)
        } else {
            None
        }
    }
}

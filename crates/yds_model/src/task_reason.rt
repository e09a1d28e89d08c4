ghost use Rattle.std.specs.Prelude.{◌≡◌, Some};
ghost use Rattle.yds_model.specs.Reason.{task_reason_text};

use std::fmt;

/// Why a line of a document of tasks is refused. The reasons are tried in this order, but for those of the
/// fields, which are tried field by field from left to right.
#[derive(Clone, Copy, Debug, PartialEq, Eq)]
pub enum TaskReason {
    /// The first field is no kind of line.
    UnknownKind,
    /// The line may not stand here: a task before the horizon, or a second horizon.
    Misplaced,
    /// One task more than there may be.
    TooMany,
    /// More or fewer fields than the kind of line has.
    FieldCount,
    /// The field isn't a name, or is one that is too long for a task.
    BadName,
    /// A task of this name is there already.
    DuplicateName,
    /// The field isn't a number.
    BadNumber,
    /// A number outside its limits.
    OutOfRange,
    /// With this task the tasks have more jobs than a document may have.
    TooManyJobs,
}

impl TaskReason {
    /// The word that stands for the reason in a refusal.
    pub fn word(self) -> &'static str
        ensures { result.now ≡ task_reason_text self }
    {
        match self {
            TaskReason::UnknownKind => "UnknownKind",
            TaskReason::Misplaced => "Misplaced",
            TaskReason::TooMany => "TooMany",
            TaskReason::FieldCount => "FieldCount",
            TaskReason::BadName => "BadName",
            TaskReason::DuplicateName => "DuplicateName",
            TaskReason::BadNumber => "BadNumber",
            TaskReason::OutOfRange => "OutOfRange",
            TaskReason::TooManyJobs => "TooManyJobs",
        }
    }
}

impl fmt::Display for TaskReason {
    ghost output = { λ r. Some (task_reason_text r) };

    fn fmt<W: fmt::Write>(&self, f: &mut fmt::Formatter<W>) -> fmt::Result {
        f.write_str(self.word())
    }
}

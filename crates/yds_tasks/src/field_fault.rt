ghost use Rattle.std.specs.Prelude.{◌≡◌};
ghost use Rattle.yds_model.specs.TaskReading.{task_reason_of};

use yds_model::{NumberFault, TaskReason};
use yds_text::FieldCount;

/// Why the fields of a line weren't taken. They are read without memory, so want of it is no cause.
#[derive(Clone, Copy, Debug, PartialEq, Eq)]
pub(crate) struct FieldFault {
    // The place of the field in its line, counted from 1 in bytes.
    pub(crate) column: u32,
    pub(crate) reason: TaskReason,
}

impl From<FieldCount> for FieldFault {
    ghost use Rattle.std.specs.Prelude.{◌≡◌};
    ghost use Rattle.yds_tasks.specs.Fields.{task_count_fault};

    ghost from_gives = { λ count fault. fault ≡ task_count_fault count };

    fn from(count: FieldCount) -> FieldFault {
        FieldFault::at(count.column, TaskReason::FieldCount)
    }
}

impl FieldFault {
    /// A fault of the field at this column, from 1.
    pub(crate) fn at(column: u32, reason: TaskReason) -> FieldFault
        ensures { result ≡ record { column = column; reason = reason } }
    {
        FieldFault { column, reason }
    }

    /// What is wrong with the number at this column, from 1.
    pub(crate) fn of_number(column: u32, fault: NumberFault) -> FieldFault
        ensures { result ≡ record { column = column; reason = task_reason_of fault } }
    {
        match fault {
            NumberFault::BadNumber => FieldFault::at(column, TaskReason::BadNumber),
            NumberFault::OutOfRange => FieldFault::at(column, TaskReason::OutOfRange),
        }
    }
}

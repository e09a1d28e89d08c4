ghost use Rattle.std.specs.Prelude.{◌≡◌};
ghost use Rattle.yds_tasks.specs.declared.line_fault.LineFault.TheVariants as faults;

use crate::field_fault::FieldFault;
use std::alloc::{AllocError, AllocFailed};
use yds_model::TaskReason;
use yds_text::FieldCount;

/// Why a line wasn't taken.
#[derive(Clone, Copy, Debug, PartialEq, Eq)]
pub(crate) enum LineFault {
    // A fault at this column.
    At { column: u32, reason: TaskReason },
    // Out of memory.
    Memory,
}

impl From<AllocError> for LineFault {
    ghost use Rattle.yds_tasks.specs.declared.line_fault.LineFault.TheVariants as faults;

    ghost from_gives = { λ _ fault. fault ≡ faults.Memory };

    fn from(_error: AllocError) -> LineFault {
        LineFault::Memory
    }
}

impl<T: Drop> From<AllocFailed<T>> for LineFault {
    ghost use Rattle.yds_tasks.specs.declared.line_fault.LineFault.TheVariants as faults;

    ghost from_gives = { λ _ fault. fault ≡ faults.Memory };

    fn from(_error: AllocFailed<T>) -> LineFault {
        LineFault::Memory
    }
}

impl From<FieldFault> for LineFault {
    ghost use Rattle.std.specs.Prelude.{◌≡◌};
    ghost use Rattle.yds_tasks.specs.Fields.{task_fault_of};

    ghost from_gives = { λ field fault. fault ≡ task_fault_of field };

    fn from(field: FieldFault) -> LineFault {
        LineFault::at(field.column, field.reason)
    }
}

impl From<FieldCount> for LineFault {
    ghost use Rattle.std.specs.Prelude.{◌≡◌};
    ghost use Rattle.yds_tasks.specs.Fields.{task_count_fault, task_fault_of};

    ghost from_gives = { λ count fault. fault ≡ task_fault_of (task_count_fault count) };

    fn from(count: FieldCount) -> LineFault {
        LineFault::at(count.column, TaskReason::FieldCount)
    }
}

impl LineFault {
    /// A fault of the field at this column, from 1.
    pub(crate) fn at(column: u32, reason: TaskReason) -> LineFault
        ensures { result ≡ faults.At column reason }
    {
        LineFault::At { column, reason }
    }
}

ghost use Rattle.std.specs.Prelude.{◌≡◌};
ghost use Rattle.document_reader.specs.declared.line_fault.LineFault.TheVariants as faults;

use crate::field_fault::FieldFault;
use yds_model::{Memory, Reason};
use yds_text::FieldCount;

/// Why a line wasn't taken.
#[derive(Clone, Copy, Debug, PartialEq, Eq)]
pub(crate) enum LineFault {
    // A fault at this column.
    At { column: u32, reason: Reason },
    // Out of memory.
    Memory,
}

impl From<Memory> for LineFault {
    ghost use Rattle.document_reader.specs.declared.line_fault.LineFault.TheVariants as faults;

    ghost from_gives = { λ _ fault. fault ≡ faults.Memory };

    fn from(_error: Memory) -> LineFault {
        LineFault::Memory
    }
}

impl From<FieldFault> for LineFault {
    ghost use Rattle.std.specs.Prelude.{◌≡◌};
    ghost use Rattle.document_reader.specs.Fields.{line_fault_of};

    ghost from_gives = { λ field fault. fault ≡ line_fault_of field };

    fn from(field: FieldFault) -> LineFault {
        LineFault::at(field.column, field.reason)
    }
}

impl From<FieldCount> for LineFault {
    ghost use Rattle.std.specs.Prelude.{◌≡◌};
    ghost use Rattle.document_reader.specs.Fields.{count_fault, line_fault_of};

    ghost from_gives = { λ count fault. fault ≡ line_fault_of (count_fault count) };

    fn from(count: FieldCount) -> LineFault {
        LineFault::at(count.column, Reason::FieldCount)
    }
}

impl LineFault {
    /// A fault of the field at this column, from 1.
    pub(crate) fn at(column: u32, reason: Reason) -> LineFault
        ensures { result ≡ faults.At column reason }
    {
        LineFault::At { column, reason }
    }
}

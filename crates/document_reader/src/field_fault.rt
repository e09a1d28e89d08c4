ghost use Rattle.std.specs.Prelude.{◌≡◌};
ghost use Rattle.yds_model.specs.Reading.{reason_of};

use yds_model::{NumberFault, Reason};
use yds_text::FieldCount;

/// Why the fields of a line weren't taken. They are read without memory, so want of it is no cause.
#[derive(Clone, Copy, Debug, PartialEq, Eq)]
pub(crate) struct FieldFault {
    // The place of the field in its line, counted from 1 in bytes.
    pub(crate) column: u32,
    pub(crate) reason: Reason,
}

impl From<FieldCount> for FieldFault {
    ghost use Rattle.std.specs.Prelude.{◌≡◌};
    ghost use Rattle.document_reader.specs.Fields.{count_fault};

    ghost from_gives = { λ count fault. fault ≡ count_fault count };

    fn from(count: FieldCount) -> FieldFault {
        FieldFault::at(count.column, Reason::FieldCount)
    }
}

impl FieldFault {
    /// A fault of the field at this column, from 1.
    pub(crate) fn at(column: u32, reason: Reason) -> FieldFault
        ensures { result ≡ record { column = column; reason = reason } }
    {
        FieldFault { column, reason }
    }

    /// What is wrong with the number at this column, from 1.
    pub(crate) fn of_number(column: u32, fault: NumberFault) -> FieldFault
        ensures { result ≡ record { column = column; reason = reason_of fault } }
    {
        match fault {
            NumberFault::BadNumber => FieldFault::at(column, Reason::BadNumber),
            NumberFault::OutOfRange => FieldFault::at(column, Reason::OutOfRange),
        }
    }
}

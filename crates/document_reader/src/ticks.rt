//! The line of ticks: in how many a time unit is divided, for the runs after it. It isn't printed.

ghost use Rattle.std.specs.Prelude.{◌≡◌, ◌≤◌, ◌∷◌, [], None, OnOk, IfOk};
ghost use Rattle.base.specs.declared.limits.TheConstants.{MAX_TICKS};
ghost use Rattle.yds_model.specs.Entry.{TicksEntry};
ghost use Rattle.base.specs.Fields.{no_field};
ghost use Rattle.yds_model.specs.Reading.{TicksLine, read_ticks};
ghost use Rattle.yds_text.specs.Read.{field_read};
ghost use Rattle.document_reader.specs.Draft.{IsDraft, ReadsFields, Takes};
ghost use Rattle.document_reader.specs.Fields.{Gives};

use crate::draft::Draft;
use crate::field_fault::FieldFault;
use crate::fields::small_in;
use yds_model::limits::MAX_TICKS;
use yds_text::{Field, Fields, one_field};

/// Reads the line whose first field is `kind`, and keeps its ticks.
pub(crate) fn read<'a>(
    draft: &mut Draft<'a>,
    kind: Field<'a>,
    fields: Fields<'a>,
) -> Result<(), FieldFault>
    requires kept { IsDraft draft.old }
    requires first { draft.old.ticks ≡ None }
    ensures kept { OnOk result (IsDraft draft.new) }
    ensures reads { ReadsFields TicksLine (field_read kind.entry ∷ fields.entry.fields) result draft.old draft.new }
{
    let ticks = one_field(kind, fields)?;
    let ticks = ticks_in(ticks)?;
    add(draft, ticks);
    Ok(())
}

/// What the field says.
fn ticks_in(ticks: Field<'_>) -> Result<u32, FieldFault>
    ensures gives { Gives (λ ticks. TicksEntry ticks) result (read_ticks (no_field ∷ field_read ticks.entry ∷ [])) }
    ensures within { IfOk result (λ ticks. (1 ≤ ticks) × (ticks ≤ MAX_TICKS)) }
{
    small_in(ticks, 1, MAX_TICKS)
}

/// Keeps the ticks in a time unit that the line tells.
fn add(draft: &mut Draft<'_>, ticks: u32)
    requires kept { IsDraft draft.old }
    requires first { draft.old.ticks ≡ None }
    requires within { (1 ≤ ticks) × (ticks ≤ MAX_TICKS) }
    ensures kept { IsDraft draft.new }
    ensures takes { Takes draft.old draft.new (TicksEntry ticks) }
{
    draft.ticks = Some(ticks);
}

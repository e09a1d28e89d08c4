//! The line of the energy that the slots take.

ghost use Rattle.std.specs.Prelude.{◌≡◌, ◌≤◌, ◌∷◌, [], None, OnOk, IfOk};
ghost use Rattle.base.specs.declared.limits.TheConstants.{MAX_ENERGY};
ghost use Rattle.yds_model.specs.Entry.{EnergyEntry};
ghost use Rattle.base.specs.Fields.{no_field};
ghost use Rattle.yds_model.specs.Reading.{EnergyLine, read_energy};
ghost use Rattle.yds_text.specs.Read.{field_read};
ghost use Rattle.document_reader.specs.Draft.{IsDraft, ReadsFields, Takes};
ghost use Rattle.document_reader.specs.Fields.{Gives};

use crate::draft::Draft;
use crate::field_fault::FieldFault;
use crate::fields::fraction_in;
use yds_fraction::Amount;
use yds_model::limits::MAX_ENERGY;
use yds_text::{Field, Fields, one_field};

/// Reads the line whose first field is `kind`, and keeps its energy.
pub(crate) fn read<'a>(
    draft: &mut Draft<'a>,
    kind: Field<'a>,
    fields: Fields<'a>,
) -> Result<(), FieldFault>
    requires kept { IsDraft draft.old }
    requires first { draft.old.energy ≡ None }
    ensures kept { OnOk result (IsDraft draft.new) }
    ensures reads { ReadsFields EnergyLine (field_read kind.entry ∷ fields.entry.fields) result draft.old draft.new }
{
    let energy = one_field(kind, fields)?;
    let energy = energy_in(energy)?;
    add(draft, energy);
    Ok(())
}

/// What the field says.
fn energy_in(energy: Field<'_>) -> Result<Amount, FieldFault>
    ensures gives { Gives (λ energy. EnergyEntry energy) result (read_energy (no_field ∷ field_read energy.entry ∷ [])) }
    ensures within { IfOk result (λ energy. energy.whole ≤ MAX_ENERGY) }
{
    fraction_in(energy, MAX_ENERGY)
}

/// Keeps the energy that the line tells.
fn add(draft: &mut Draft<'_>, energy: Amount)
    requires kept { IsDraft draft.old }
    requires first { draft.old.energy ≡ None }
    requires within { energy.whole ≤ MAX_ENERGY }
    ensures kept { IsDraft draft.new }
    ensures takes { Takes draft.old draft.new (EnergyEntry energy) }
{
    draft.energy = Some(energy);
}

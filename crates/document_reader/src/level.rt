//! The lines of levels: the work and the length of a level. Its pieces and members stand on the lines after it.

ghost use Rattle.std.specs.Prelude.{◌<◌, ◌≤◌, ◌∷◌, [], length, OnOk, IfOk, IfSome};
ghost use Rattle.base.specs.declared.limits.TheConstants.{MAX_LEVELS, MAX_LEVEL_WORK, MAX_LEVEL_LENGTH};
ghost use Rattle.yds_model.specs.Entry.{LevelEntry};
ghost use Rattle.base.specs.Fields.{no_field};
ghost use Rattle.yds_model.specs.Reading.{LevelLine, read_level};
ghost use Rattle.yds_text.specs.Read.{field_read};
ghost use Rattle.document_reader.specs.Draft.{IsDraft, Reads, Takes};
ghost use Rattle.document_reader.specs.Fields.{Gives};
ghost use Rattle.document_reader.specs.Plain.{SaysTwo, read_level_fields};

use crate::draft::Draft;
use crate::field_fault::FieldFault;
use crate::fields::number_in;
use crate::line_fault::LineFault;
use std::alloc::Global;
use yds_certificate::Level;
use yds_model::Memory;
use yds_model::limits::{MAX_LEVEL_LENGTH, MAX_LEVEL_WORK};
use yds_text::{Field, Fields, two_fields};

/// Reads the line whose first field is `kind`, and adds its level.
pub(crate) fn read<'a>(
    draft: &mut Draft<'a>,
    alloc: Global,
    kind: Field<'a>,
    fields: Fields<'a>,
) -> Result<(), LineFault>
    requires kept { IsDraft draft.old }
    requires room { length draft.old.certificate < MAX_LEVELS }
    ensures kept { OnOk result (IsDraft draft.new) }
    ensures reads { Reads LevelLine (field_read kind.entry ∷ fields.entry.fields) result draft.old draft.new }
{
    if let Some((work, len)) = plain_level(fields.again()) {
        add(draft, alloc, work, len)?;
        return Ok(());
    }
    read_each(draft, alloc, kind, fields)
}

/// The same, with the fields read one by one.
fn read_each<'a>(
    draft: &mut Draft<'a>,
    alloc: Global,
    kind: Field<'a>,
    fields: Fields<'a>,
) -> Result<(), LineFault>
    requires kept { IsDraft draft.old }
    requires room { length draft.old.certificate < MAX_LEVELS }
    ensures kept { OnOk result (IsDraft draft.new) }
    ensures reads { Reads LevelLine (field_read kind.entry ∷ fields.entry.fields) result draft.old draft.new }
{
    let (work, len) = two_fields(kind, fields)?;
    let (work, len) = level_in(work, len)?;
    add(draft, alloc, work, len)?;
    Ok(())
}

/// What the fields say, where they are plain and say a level: the work and the length.
fn plain_level(mut fields: Fields<'_>) -> Option<(u64, u64)>
    ensures says { IfSome result (λ said. SaysTwo read_level_fields fields.entry.fields (LevelEntry said.0 said.1)) }
    ensures work { IfSome result (λ said. (1 ≤ said.0) × (said.0 ≤ MAX_LEVEL_WORK)) }
    ensures len { IfSome result (λ said. (1 ≤ said.1) × (said.1 ≤ MAX_LEVEL_LENGTH)) }
{
    let work = fields.plain_number(1, MAX_LEVEL_WORK)?;
    let len = fields.plain_number(1, MAX_LEVEL_LENGTH)?;
    if fields.at_end() {
        Some((work, len))
    } else {
        None
    }
}

/// What the fields say: the work and the length.
fn level_in(work: Field<'_>, len: Field<'_>) -> Result<(u64, u64), FieldFault>
    ensures gives { Gives (λ said. LevelEntry said.0 said.1) result (read_level (no_field ∷ field_read work.entry ∷ field_read len.entry ∷ [])) }
    ensures work { IfOk result (λ said. (1 ≤ said.0) × (said.0 ≤ MAX_LEVEL_WORK)) }
    ensures len { IfOk result (λ said. (1 ≤ said.1) × (said.1 ≤ MAX_LEVEL_LENGTH)) }
{
    let work = number_in(work, 1, MAX_LEVEL_WORK)?;
    let len = number_in(len, 1, MAX_LEVEL_LENGTH)?;
    Ok((work, len))
}

/// Puts a level of no pieces and no members last.
fn add(draft: &mut Draft<'_>, alloc: Global, work: u64, len: u64) -> Result<(), Memory>
    requires kept { IsDraft draft.old }
    requires work { (1 ≤ work) × (work ≤ MAX_LEVEL_WORK) }
    requires len { (1 ≤ len) × (len ≤ MAX_LEVEL_LENGTH) }
    requires room { length draft.old.certificate < MAX_LEVELS }
    ensures kept { OnOk result (IsDraft draft.new) }
    ensures takes { OnOk result (Takes draft.old draft.new (LevelEntry work len)) }
{
    let _levels = draft.certificate.levels();
    draft.certificate.push(Level {
        work,
        length: len,
        pieces: Vec::new(alloc),
        members: Vec::new(alloc),
    })?;
    Ok(())
}

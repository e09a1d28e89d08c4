//! The lines of members: a job of the level before, by its name.

ghost use Rattle.std.specs.Prelude.{◌<◌, ◌≤◌, ◌∷◌, length, OnOk, IfOk, IfSome};
ghost use Rattle.base.specs.declared.limits.TheConstants.{MAX_MEMBERS};
ghost use Rattle.yds_model.specs.Entry.{MemberEntry};
ghost use Rattle.yds_model.specs.Reading.{MemberLine};
ghost use Rattle.yds_text.specs.Read.{field_read};
ghost use Rattle.document_reader.specs.Draft.{IsDraft, Reads, Takes};
ghost use Rattle.document_reader.specs.Fields.{Gives};
ghost use Rattle.document_reader.specs.Member.{member_of};
ghost use Rattle.document_reader.specs.Plain.{SaysOne};

use crate::draft::Draft;
use crate::field_fault::FieldFault;
use crate::fields::known_job;
use crate::line_fault::LineFault;
use yds_instance::Instance;
use yds_model::Memory;
use yds_text::{Field, Fields, one_field};

/// Reads the line whose first field is `kind`, and adds its member to the last level.
pub(crate) fn read<'a>(
    draft: &mut Draft<'a>,
    kind: Field<'a>,
    fields: Fields<'a>,
) -> Result<(), LineFault>
    requires kept { IsDraft draft.old }
    requires some { 1 ≤ length draft.old.certificate }
    requires room { draft.old.members < MAX_MEMBERS }
    ensures kept { OnOk result (IsDraft draft.new) }
    ensures reads { Reads MemberLine (field_read kind.entry ∷ fields.entry.fields) result draft.old draft.new }
{
    if let Some(job) = plain_member(&draft.instance, fields.again()) {
        add(draft, job)?;
        return Ok(());
    }
    read_each(draft, kind, fields)
}

/// The same, with the field read by itself.
fn read_each<'a>(
    draft: &mut Draft<'a>,
    kind: Field<'a>,
    fields: Fields<'a>,
) -> Result<(), LineFault>
    requires kept { IsDraft draft.old }
    requires some { 1 ≤ length draft.old.certificate }
    requires room { draft.old.members < MAX_MEMBERS }
    ensures kept { OnOk result (IsDraft draft.new) }
    ensures reads { Reads MemberLine (field_read kind.entry ∷ fields.entry.fields) result draft.old draft.new }
{
    let name = one_field(kind, fields)?;
    let job = member_in(&draft.instance, name)?;
    add(draft, job)?;
    Ok(())
}

/// What the field says, where it is plain and names a job.
fn plain_member(instance: &Instance<'_>, mut fields: Fields<'_>) -> Option<u32>
    ensures says { IfSome result (λ job. SaysOne (member_of instance.now.names) fields.entry.fields (MemberEntry job)) }
    ensures known { IfSome result (λ job. job < length instance.now.jobs) }
{
    let Ok(job) = known_job(instance, fields.next()?) else {
        return None;
    };
    if fields.at_end() { Some(job) } else { None }
}

/// What the field says.
fn member_in(instance: &Instance<'_>, name: Field<'_>) -> Result<u32, FieldFault>
    ensures gives { Gives (λ job. MemberEntry job) result (member_of instance.now.names (field_read name.entry)) }
    ensures known { IfOk result (λ job. job < length instance.now.jobs) }
{
    known_job(instance, name)
}

/// Puts the job last among the members of the last level.
fn add(draft: &mut Draft<'_>, job: u32) -> Result<(), Memory>
    requires kept { IsDraft draft.old }
    requires known { job < length draft.old.instance.jobs }
    requires some { 1 ≤ length draft.old.certificate }
    requires room { draft.old.members < MAX_MEMBERS }
    ensures kept { OnOk result (IsDraft draft.new) }
    ensures takes { OnOk result (Takes draft.old draft.new (MemberEntry job)) }
{
    draft.certificate.member(job)?;
    draft.members += 1;
    Ok(())
}

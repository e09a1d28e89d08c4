//! The lines of jobs: a job with a name of its own.

ghost use Rattle.std.specs.Prelude.{◌≡◌, ◌<◌, ◌∷◌, ℕ, List, length, None, OnOk, OnErr, IfOk, IfSome, IsTrue, IsFalse};
ghost use Rattle.base.specs.declared.limits.TheConstants.{MAX_JOBS};
ghost use Rattle.yds_model.specs.Entry.{JobEntry};
ghost use Rattle.yds_model.specs.Reading.{JobLine};
ghost use Rattle.base.specs.Spelling.{is_name};
ghost use Rattle.yds_instance.specs.Named.{number_of};
ghost use Rattle.yds_text.specs.Read.{field_read};
ghost use Rattle.document_reader.specs.Draft.{IsDraft, Reads, Takes};
ghost use Rattle.document_reader.specs.Fields.{Gives};
ghost use Rattle.document_reader.specs.Job.{job_of};
ghost use Rattle.document_reader.specs.Plain.{SaysFour};

use crate::draft::Draft;
use crate::field_fault::FieldFault;
use crate::fields::{new_name, small_in};
use crate::line_fault::LineFault;
use yds_instance::{AddFault, Instance};
use yds_model::limits::{MAX_TIME, MAX_WORK};
use yds_model::{JobRow, Memory, Reason};
use yds_text::{Field, Fields, four_fields};

/// Reads the line whose first field is `kind`, and adds its job.
pub(crate) fn read<'a>(
    draft: &mut Draft<'a>,
    kind: Field<'a>,
    fields: Fields<'a>,
) -> Result<(), LineFault>
    requires kept { IsDraft draft.old }
    requires room { length draft.old.instance.names < MAX_JOBS }
    ensures kept { OnOk result (IsDraft draft.new) }
    ensures reads { Reads JobLine (field_read kind.entry ∷ fields.entry.fields) result draft.old draft.new }
{
    if let Some((name, row)) = plain_job(fields.again()) {
        if add_new(draft, name, row)? {
            return Ok(());
        }
    }
    read_each(draft, kind, fields)
}

/// The same, with the fields read one by one.
fn read_each<'a>(
    draft: &mut Draft<'a>,
    kind: Field<'a>,
    fields: Fields<'a>,
) -> Result<(), LineFault>
    requires kept { IsDraft draft.old }
    requires room { length draft.old.instance.names < MAX_JOBS }
    ensures kept { OnOk result (IsDraft draft.new) }
    ensures reads { Reads JobLine (field_read kind.entry ∷ fields.entry.fields) result draft.old draft.new }
{
    let (name, release, deadline, work) = four_fields(kind, fields)?;
    match job_in(&draft.instance, name, release, deadline, work) {
        Ok((name, row)) => {
            add(draft, name, row)?;
            Ok(())
        }
        Err(fault) => Err(LineFault::from(fault)),
    }
}

/// What the fields say, where they are plain and say a job if its name is new.
fn plain_job(mut fields: Fields<'_>) -> Option<(&str, JobRow)>
    ensures says { IfSome result (λ said. (names : List (List ℕ)) → number_of names said.0.now ≡ None
        → SaysFour (job_of names) fields.entry.fields (JobEntry said.0.now said.1)) }
    ensures named { IfSome result (λ said. IsTrue (is_name said.0.now)) }
{
    let name = fields.plain_name()?;
    let from = fields.plain_small(0, MAX_TIME)?;
    let to = fields.plain_small(0, MAX_TIME)?;
    let work = fields.plain_small(0, MAX_WORK)?;
    if !fields.at_end() || to <= from {
        return None;
    }
    Some((name, JobRow::new(from, to, work)))
}

/// What the fields say.
fn job_in<'a>(
    instance: &Instance<'a>,
    name: Field<'a>,
    release: Field<'a>,
    deadline: Field<'a>,
    work: Field<'a>,
) -> Result<(&'a str, JobRow), FieldFault>
    ensures gives { Gives (λ said. JobEntry said.0.now said.1) result
        (job_of instance.now.names (field_read name.entry) (field_read release.entry) (field_read deadline.entry) (field_read work.entry)) }
    ensures named { IfOk result (λ said. IsTrue (is_name said.0.now)) }
    ensures new { IfOk result (λ said. number_of instance.now.names said.0.now ≡ None) }
{
    let name = new_name(instance, name)?;
    let from = small_in(release, 0, MAX_TIME)?;
    let to = small_in(deadline, 0, MAX_TIME)?;
    let work = small_in(work, 0, MAX_WORK)?;
    if from < to {
        Ok((name, JobRow::new(from, to, work)))
    } else {
        Err(FieldFault::at(deadline.column, Reason::EmptyWindow))
    }
}

/// Puts the job last, if no other has its name: whether that is so. Only a job of a new name can want memory.
fn add_new<'a>(draft: &mut Draft<'a>, name: &'a str, row: JobRow) -> Result<bool, Memory>
    requires kept { IsDraft draft.old }
    requires named { IsTrue (is_name name.now) }
    requires room { length draft.old.instance.names < MAX_JOBS }
    ensures kept { OnOk result (IsDraft draft.new) }
    ensures new { IfOk result (λ added. IsTrue added → number_of draft.old.instance.names name.entry.now ≡ None) }
    ensures takes { IfOk result (λ added. IsTrue added → Takes draft.old draft.new (JobEntry name.entry.now row)) }
    ensures same { IfOk result (λ added. IsFalse added → draft.new ≡ draft.old) }
    ensures memory { OnErr result (number_of draft.old.instance.names name.entry.now ≡ None) }
{
    let jobs = draft.instance.rows().len() as u32;
    match draft.instance.add(name, row) {
        Ok(_) => {
            draft.schedule.widen(jobs + 1);
            Ok(true)
        }
        Err(AddFault::Duplicate(_)) => Ok(false),
        Err(AddFault::Full | AddFault::Memory) => Err(Memory),
    }
}

/// Puts a job of a new name last.
fn add<'a>(draft: &mut Draft<'a>, name: &'a str, row: JobRow) -> Result<(), Memory>
    requires kept { IsDraft draft.old }
    requires named { IsTrue (is_name name.now) }
    requires new { number_of draft.old.instance.names name.now ≡ None }
    requires room { length draft.old.instance.names < MAX_JOBS }
    ensures kept { OnOk result (IsDraft draft.new) }
    ensures takes { OnOk result (Takes draft.old draft.new (JobEntry name.entry.now row)) }
{
    let jobs = draft.instance.rows().len() as u32;
    draft.instance.add_new(name, row)?;
    draft.schedule.widen(jobs + 1);
    Ok(())
}

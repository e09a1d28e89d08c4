//! The lines of slots: a job by its name, two ends that are alike, and a work alike with its job's others.

ghost use Rattle.std.specs.Prelude.{◌≡◌, ◌<◌, ◌∷◌, length, OnOk, IfOk, IfSome, IsTrue};
ghost use Rattle.base.specs.declared.limits.TheConstants.{MAX_SLOTS};
ghost use Rattle.yds_model.specs.Entry.{SlotEntry};
ghost use Rattle.yds_model.specs.Reading.{SlotLine};
ghost use Rattle.yds_slots.specs.Schedule.{FitsGrain};
ghost use Rattle.yds_text.specs.Read.{field_read};
ghost use Rattle.document_reader.specs.Draft.{IsDraft, Reads, Takes};
ghost use Rattle.document_reader.specs.Fields.{Gives};
ghost use Rattle.document_reader.specs.Plain.{SaysFour};
ghost use Rattle.document_reader.specs.Slot.{fits_among, fits_test, FitsGrainOf, slot_of};

use crate::draft::Draft;
use crate::field_fault::FieldFault;
use crate::fields::{fraction_in, known_job, plain_fraction};
use crate::line_fault::LineFault;
use yds_fraction::Amount;
use yds_instance::Instance;
use yds_model::limits::{MAX_SLOT_WORK, MAX_TIME};
use yds_model::{Memory, Reason};
use yds_slots::{Schedule, Slot};
use yds_text::{Field, Fields, four_fields};

/// Reads the line whose first field is `kind`, and adds its slot.
pub(crate) fn read<'a>(
    draft: &mut Draft<'a>,
    kind: Field<'a>,
    fields: Fields<'a>,
) -> Result<(), LineFault>
    requires kept { IsDraft draft.old }
    requires room { length draft.old.schedule.slots < MAX_SLOTS }
    ensures kept { OnOk result (IsDraft draft.new) }
    ensures reads { Reads SlotLine (field_read kind.entry ∷ fields.entry.fields) result draft.old draft.new }
{
    if let Some(slot) = plain_slot(&draft.instance, &draft.schedule, fields.again()) {
        add(draft, slot)?;
        return Ok(());
    }
    read_each(draft, kind, fields)
}

/// The same, with the fields read one by one.
fn read_each<'a>(
    draft: &mut Draft<'a>,
    kind: Field<'a>,
    fields: Fields<'a>,
) -> Result<(), LineFault>
    requires kept { IsDraft draft.old }
    requires room { length draft.old.schedule.slots < MAX_SLOTS }
    ensures kept { OnOk result (IsDraft draft.new) }
    ensures reads { Reads SlotLine (field_read kind.entry ∷ fields.entry.fields) result draft.old draft.new }
{
    let fields = four_fields(kind, fields)?;
    let slot = slot_in(&draft.instance, &draft.schedule, fields)?;
    add(draft, slot)?;
    Ok(())
}

/// What the fields say, where they are plain and say a slot that may stand there.
fn plain_slot(instance: &Instance<'_>, schedule: &Schedule, mut fields: Fields<'_>) -> Option<Slot>
    requires { schedule.now.jobs ≡ length instance.now.jobs }
    ensures says { IfSome result (λ slot. SaysFour (slot_of instance.now.names schedule.now.slots) fields.entry.fields (SlotEntry slot)) }
    ensures known { IfSome result (λ slot. slot.job < length instance.now.jobs) }
    ensures grain { IfSome result (λ slot. FitsGrain schedule.now.slots slot) }
{
    let Ok(job) = known_job(instance, fields.next()?) else {
        return None;
    };
    let latest = u64::from(MAX_TIME);
    let from = plain_fraction(&mut fields, latest)?;
    let to = plain_fraction(&mut fields, latest)?;
    let work = plain_fraction(&mut fields, MAX_SLOT_WORK)?;
    if !fields.at_end() || !from.alike(to) || !fits_grain(schedule, job, work) {
        return None;
    }
    Some(Slot {
        job,
        from,
        to,
        work,
    })
}

/// What the fields say, a name, two ends and a work: a slot whose work is alike with those that its job got before.
fn slot_in(
    instance: &Instance<'_>,
    schedule: &Schedule,
    fields: (Field<'_>, Field<'_>, Field<'_>, Field<'_>),
) -> Result<Slot, FieldFault>
    requires { schedule.now.jobs ≡ length instance.now.jobs }
    ensures gives { Gives (λ slot. SlotEntry slot) result
        (slot_of instance.now.names schedule.now.slots (field_read fields.entry.0) (field_read fields.entry.1) (field_read fields.entry.2) (field_read fields.entry.3)) }
    ensures known { IfOk result (λ slot. slot.job < length instance.now.jobs) }
    ensures grain { IfOk result (λ slot. FitsGrain schedule.now.slots slot) }
{
    let (name, from, to, work) = fields;
    let job = known_job(instance, name)?;
    let begin = fraction_in(from, u64::from(MAX_TIME))?;
    let end = fraction_in(to, u64::from(MAX_TIME))?;
    let amount = fraction_in(work, MAX_SLOT_WORK)?;
    if !begin.alike(end) {
        return Err(FieldFault::at(to.column, Reason::MixedEnds));
    }
    if !fits_grain(schedule, job, amount) {
        return Err(FieldFault::at(work.column, Reason::MixedGrain));
    }
    Ok(Slot {
        job,
        from: begin,
        to: end,
        work: amount,
    })
}

/// Whether the work is alike with each work that the schedule gives the job.
pub(crate) fn fits_grain(schedule: &Schedule, job: u32, work: Amount) -> bool
    requires { job < schedule.now.jobs }
    ensures value { result ≡ fits_among schedule.now.slots job work }
    ensures fits { IsTrue result → FitsGrainOf schedule.now.slots job work }
{
    // Reading the slots shows that the works of a job are alike.
    let _slots = schedule.slots();
    is_in_grain(work.den(), schedule.grain(job))
}

/// Whether a work of this denominator fits the grain of its job.
fn is_in_grain(den: u64, grain: u64) -> bool
    ensures { result ≡ fits_test den grain }
{
    den == grain || den == 1 || grain == 1
}

/// Puts the slot last.
pub(crate) fn add(draft: &mut Draft<'_>, slot: Slot) -> Result<(), Memory>
    requires kept { IsDraft draft.old }
    requires known { slot.job < length draft.old.instance.jobs }
    requires grain { FitsGrain draft.old.schedule.slots slot }
    requires room { length draft.old.schedule.slots < MAX_SLOTS }
    ensures kept { OnOk result (IsDraft draft.new) }
    ensures takes { OnOk result (Takes draft.old draft.new (SlotEntry slot)) }
{
    draft.schedule.push(slot)?;
    Ok(())
}

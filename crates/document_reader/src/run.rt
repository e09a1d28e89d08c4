//! The lines of runs: a job runs from one tick to another at a speed. That is the slot of the speed times the
//! time, and is printed as one.

ghost use Rattle.std.specs.Prelude.{◌≡◌, ◌*◌, ◌<◌, ◌≤◌, ◌∷◌, length, OnOk, IfOk, IfSome};
ghost use Rattle.base.specs.declared.limits.TheConstants.{MAX_RUN_SPEED, MAX_SLOTS, MAX_TICKS, MAX_TIME};
ghost use Rattle.yds_model.specs.Entry.{SlotEntry};
ghost use Rattle.yds_model.specs.Reading.{RunLine};
ghost use Rattle.yds_slots.specs.Schedule.{FitsGrain};
ghost use Rattle.yds_text.specs.Read.{field_read};
ghost use Rattle.document_reader.specs.Draft.{IsDraft, Reads};
ghost use Rattle.document_reader.specs.Fields.{Gives};
ghost use Rattle.document_reader.specs.Run.{run_after, run_between, run_of};
ghost use Rattle.document_reader.specs.Plain.{SaysFour};

use crate::draft::Draft;
use crate::field_fault::FieldFault;
use crate::fields::{known_job, number_in};
use crate::line_fault::LineFault;
use crate::slot::{add, fits_grain};
use yds_fraction::{Amount, Moment};
use yds_instance::Instance;
use yds_model::Reason;
use yds_model::limits::{MAX_RUN_SPEED, MAX_SLOT_WORK, MAX_TIME};
use yds_slots::{Schedule, Slot};
use yds_text::{Field, Fields, four_fields};

/// A run of a job: the ticks at which it begins and ends, and its speed, in work per time unit.
#[derive(Clone, Copy, Debug)]
struct Run {
    job: u32,
    from: u64,
    to: u64,
    speed: u64,
}

/// Reads the line whose first field is `kind`, and adds its slot.
pub(crate) fn read<'a>(
    draft: &mut Draft<'a>,
    kind: Field<'a>,
    fields: Fields<'a>,
) -> Result<(), LineFault>
    requires kept { IsDraft draft.old }
    requires room { length draft.old.schedule.slots < MAX_SLOTS }
    ensures kept { OnOk result (IsDraft draft.new) }
    ensures reads { Reads RunLine (field_read kind.entry ∷ fields.entry.fields) result draft.old draft.new }
{
    let ticks = draft.ticks.unwrap_or(1);
    if let Some(slot) = plain_run(&draft.instance, &draft.schedule, ticks, fields.again()) {
        add(draft, slot)?;
        return Ok(());
    }
    read_each(draft, kind, fields)
}

/// The same, with the fields read one by one.
fn read_each<'a>(
    draft: &mut Draft<'a>,
    kind: Field<'a>,
    fields: Fields<'a>,
) -> Result<(), LineFault>
    requires kept { IsDraft draft.old }
    requires room { length draft.old.schedule.slots < MAX_SLOTS }
    ensures kept { OnOk result (IsDraft draft.new) }
    ensures reads { Reads RunLine (field_read kind.entry ∷ fields.entry.fields) result draft.old draft.new }
{
    let (name, from, to, speed) = four_fields(kind, fields)?;
    let ticks = draft.ticks.unwrap_or(1);
    let slot = run_in(draft, ticks, name, (from, to, speed))?;
    add(draft, slot)?;
    Ok(())
}

/// What the fields say, where they are plain and say a run whose slot may stand there.
fn plain_run(
    instance: &Instance<'_>,
    schedule: &Schedule,
    ticks: u32,
    mut fields: Fields<'_>,
) -> Option<Slot>
    requires jobs { schedule.now.jobs ≡ length instance.now.jobs }
    requires ticks { (1 ≤ ticks) × (ticks ≤ MAX_TICKS) }
    ensures says { IfSome result (λ slot. SaysFour (run_of instance.now.names schedule.now.slots ticks) fields.entry.fields (SlotEntry slot)) }
    ensures known { IfSome result (λ slot. slot.job < length instance.now.jobs) }
    ensures grain { IfSome result (λ slot. FitsGrain schedule.now.slots slot) }
{
    let Ok(job) = known_job(instance, fields.next()?) else {
        return None;
    };
    let most = u64::from(MAX_TIME) * u64::from(ticks);
    let from = fields.plain_number(0, most)?;
    let to = fields.plain_number(0, most)?;
    let speed = fields.plain_number(0, u64::from(MAX_RUN_SPEED))?;
    if !fields.at_end() {
        return None;
    }
    let run = Run {
        job,
        from,
        to,
        speed,
    };
    let Ok(slot) = slot_of_run(schedule, ticks, run, 0) else {
        return None;
    };
    Some(slot)
}

/// What the fields say.
fn run_in<'a>(
    draft: &Draft<'a>,
    ticks: u32,
    name: Field<'a>,
    fields: (Field<'a>, Field<'a>, Field<'a>),
) -> Result<Slot, FieldFault>
    requires kept { IsDraft draft.now }
    requires ticks { (1 ≤ ticks) × (ticks ≤ MAX_TICKS) }
    ensures gives { Gives (λ slot. SlotEntry slot) result
        (run_of draft.now.instance.names draft.now.schedule.slots ticks (field_read name.entry) (field_read fields.entry.0) (field_read fields.entry.1) (field_read fields.entry.2)) }
    ensures known { IfOk result (λ slot. slot.job < length draft.now.instance.jobs) }
    ensures grain { IfOk result (λ slot. FitsGrain draft.now.schedule.slots slot) }
{
    let job = known_job(&draft.instance, name)?;
    slot_at(&draft.schedule, ticks, job, fields)
}

/// The slot of a run of this job, of which these are the other fields.
fn slot_at(
    schedule: &Schedule,
    ticks: u32,
    job: u32,
    fields: (Field<'_>, Field<'_>, Field<'_>),
) -> Result<Slot, FieldFault>
    requires known { job < schedule.now.jobs }
    requires ticks { (1 ≤ ticks) × (ticks ≤ MAX_TICKS) }
    ensures gives { Gives (λ slot. SlotEntry slot) result
        (run_after schedule.now.slots ticks job (field_read fields.entry.0) (field_read fields.entry.1) (field_read fields.entry.2)) }
    ensures job { IfOk result (λ slot. slot.job ≡ job) }
    ensures grain { IfOk result (λ slot. FitsGrain schedule.now.slots slot) }
{
    let (from, to, speed) = fields;
    let most = u64::from(MAX_TIME) * u64::from(ticks);
    let begin = number_in(from, 0, most)?;
    let end = number_in(to, 0, most)?;
    let rate = number_in(speed, 0, u64::from(MAX_RUN_SPEED))?;
    let run = Run {
        job,
        from: begin,
        to: end,
        speed: rate,
    };
    slot_of_run(schedule, ticks, run, speed.column)
}

/// The slot of a run: the speed times the time, and its work alike with those that the job got before. A fault is told at this column.
fn slot_of_run(schedule: &Schedule, ticks: u32, run: Run, column: u32) -> Result<Slot, FieldFault>
    requires known { run.job < schedule.now.jobs }
    requires ticks { (1 ≤ ticks) × (ticks ≤ MAX_TICKS) }
    requires begins { run.from ≤ MAX_TIME * ticks }
    requires ends { run.to ≤ MAX_TIME * ticks }
    requires speed { run.speed ≤ MAX_RUN_SPEED }
    ensures gives { Gives (λ slot. SlotEntry slot) result (run_between schedule.now.slots ticks run.job run.from run.to run.speed column) }
    ensures job { IfOk result (λ slot. slot.job ≡ run.job) }
    ensures grain { IfOk result (λ slot. FitsGrain schedule.now.slots slot) }
{
    let den = u64::from(ticks);
    let parts = u128::from(run.speed) * u128::from(run.to.saturating_sub(run.from));
    if parts / u128::from(den) > u128::from(MAX_SLOT_WORK) {
        return Err(FieldFault::at(column, Reason::OutOfRange));
    }
    let work = Amount::of_parts(parts, den);
    if !fits_grain(schedule, run.job, work) {
        return Err(FieldFault::at(column, Reason::MixedGrain));
    }
    Ok(Slot {
        job: run.job,
        from: Moment::of_parts(u128::from(run.from), den),
        to: Moment::of_parts(u128::from(run.to), den),
        work,
    })
}

//! What a field of a line is tried for: a number, a fraction, the name of a job.

ghost use Rattle.std.specs.Prelude.{◌≡◌, ◌<◌, ◌≤◌, length, None, Ok, IfOk, IfSome, IsTrue};
ghost use Rattle.base.specs.declared.limits.TheConstants.{MAX_WHOLE};
ghost use Rattle.yds_model.specs.Reading.{number_in, fraction_in};
ghost use Rattle.base.specs.Spelling.{is_name};
ghost use Rattle.yds_model.specs.Spelling.{fraction_at};
ghost use Rattle.yds_model.specs.Within.{IsFraction};
ghost use Rattle.yds_instance.specs.Named.{number_of};
ghost use Rattle.yds_text.specs.Read.{field_read};
ghost use Rattle.yds_text.specs.Plain.{ReadsText};
ghost use Rattle.document_reader.specs.Fields.{Gives, new_name_of, known_job_of};

use crate::field_fault::FieldFault;
use yds_fraction::Amount;
use yds_instance::Instance;
use yds_model::Reason;
use yds_text::{Field, Fields, mixed, name, number_from};

/// The number that the field spells.
pub(crate) fn number_in(field: Field<'_>, least: u64, most: u64) -> Result<u64, FieldFault>
    ensures gives { Gives (λ n. n) result (number_in least most (field_read field.entry)) }
    ensures within { IfOk result (λ n. (least ≤ n) × (n ≤ most)) }
{
    match number_from(field, least, most) {
        Ok(number) => Ok(number),
        Err(fault) => Err(FieldFault::of_number(field.column, fault)),
    }
}

/// The same of a number of 32 bits.
pub(crate) fn small_in(field: Field<'_>, least: u32, most: u32) -> Result<u32, FieldFault>
    ensures gives { Gives (λ n. n) result (number_in least most (field_read field.entry)) }
    ensures within { IfOk result (λ n. (least ≤ n) × (n ≤ most)) }
{
    let number = number_in(field, u64::from(least), u64::from(most))?;
    Ok(number as u32)
}

/// The fraction that the field spells.
pub(crate) fn fraction_in(field: Field<'_>, most: u64) -> Result<Amount, FieldFault>
    requires { most ≤ MAX_WHOLE }
    ensures gives { Gives (λ x. x) result (fraction_in most (field_read field.entry)) }
    ensures within { IfOk result (IsFraction most) }
{
    match mixed(field, most) {
        Ok(value) => {
            // Reading a part shows that the fraction is within its limits.
            let _den = value.den();
            Ok(value)
        }
        Err(fault) => Err(FieldFault::of_number(field.column, fault)),
    }
}

/// The fraction that the next field spells, where it is plain.
pub(crate) fn plain_fraction(fields: &mut Fields<'_>, most: u64) -> Option<Amount>
    requires { most ≤ MAX_WHOLE }
    ensures says { IfSome result (λ value. ReadsText (λ text. fraction_at most text ≡ Ok value) fields.old.fields fields.new.fields) }
    ensures within { IfSome result (IsFraction most) }
{
    let value = fields.plain_fraction(most)?;
    // Reading a part shows that the fraction is within its limits.
    let _den = value.den();
    Some(value)
}

/// A name that no job has yet.
pub(crate) fn new_name<'a>(instance: &Instance<'a>, field: Field<'a>) -> Result<&'a str, FieldFault>
    ensures gives { Gives (λ name. name.now) result (new_name_of instance.now.names (field_read field.entry)) }
    ensures named { IfOk result (λ name. IsTrue (is_name name.now)) }
    ensures new { IfOk result (λ name. number_of instance.now.names name.now ≡ None) }
{
    let Some(name) = name(field) else {
        return Err(FieldFault::at(field.column, Reason::BadName));
    };
    match instance.find(name) {
        Some(_) => Err(FieldFault::at(field.column, Reason::DuplicateName)),
        None => Ok(name),
    }
}

/// The number of the job of this name.
pub(crate) fn known_job(instance: &Instance<'_>, field: Field<'_>) -> Result<u32, FieldFault>
    ensures gives { Gives (λ job. job) result (known_job_of instance.now.names (field_read field.entry)) }
    ensures known { IfOk result (λ job. job < length instance.now.jobs) }
{
    if let Some(job) = instance.find_at_once(field.text) {
        return Ok(job);
    }
    let Some(name) = name(field) else {
        return Err(FieldFault::at(field.column, Reason::BadName));
    };
    match instance.find(name) {
        Some(job) => Ok(job),
        None => Err(FieldFault::at(field.column, Reason::UnknownName)),
    }
}

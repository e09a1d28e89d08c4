//! How many fields stand on a line after its first one.
ghost use Rattle.std.specs.Prelude.{◌≡◌, ◌∷◌, []};
ghost use Rattle.base.specs.Fields.{past_end};
ghost use Rattle.yds_text.specs.Read.{field_read};
ghost use Rattle.yds_text.specs.Count.{Counts, ReadsNext, EndsThere};

use crate::field::{Field, Fields};
use thiserror::Error;

/// A line has too many fields, or too few.
#[derive(Clone, Copy, Debug, PartialEq, Eq, Error)]
#[error("column {column}: wrong number of fields")]
pub struct FieldCount {
    /// The place of the first field too many, or of the byte after the last field, counted from 1 in bytes.
    pub column: u32,
}

/// The one field after the first.
pub fn one_field<'a>(first: Field<'a>, mut fields: Fields<'a>) -> Result<Field<'a>, FieldCount>
    ensures { Counts (λ x. field_read first.entry ∷ field_read x ∷ []) result 1 (field_read first.entry ∷ fields.entry.fields) }
{
    let one = next_field(first, &mut fields)?;
    no_more(fields)?;
    Ok(one)
}

/// The two fields after the first.
pub fn two_fields<'a>(
    first: Field<'a>,
    mut fields: Fields<'a>,
) -> Result<(Field<'a>, Field<'a>), FieldCount>
    ensures { Counts (λ x. field_read first.entry ∷ field_read x.0 ∷ field_read x.1 ∷ []) result 2 (field_read first.entry ∷ fields.entry.fields) }
{
    let one = next_field(first, &mut fields)?;
    let two = next_field(one, &mut fields)?;
    no_more(fields)?;
    Ok((one, two))
}

/// The four fields after the first.
pub fn four_fields<'a>(
    first: Field<'a>,
    mut fields: Fields<'a>,
) -> Result<(Field<'a>, Field<'a>, Field<'a>, Field<'a>), FieldCount>
    ensures { Counts (λ x. field_read first.entry ∷ field_read x.0 ∷ field_read x.1 ∷ field_read x.2 ∷ field_read x.3 ∷ []) result 4
        (field_read first.entry ∷ fields.entry.fields) }
{
    let one = next_field(first, &mut fields)?;
    let two = next_field(one, &mut fields)?;
    let three = next_field(two, &mut fields)?;
    let four = next_field(three, &mut fields)?;
    no_more(fields)?;
    Ok((one, two, three, four))
}

/// Five fields of one line.
pub type FiveFields<'a> = (Field<'a>, Field<'a>, Field<'a>, Field<'a>, Field<'a>);

/// The five fields after the first.
pub fn five_fields<'a>(
    first: Field<'a>,
    mut fields: Fields<'a>,
) -> Result<FiveFields<'a>, FieldCount>
    ensures { Counts (λ x. field_read first.entry ∷ field_read x.0 ∷ field_read x.1 ∷ field_read x.2 ∷ field_read x.3 ∷ field_read x.4 ∷ []) result 5
        (field_read first.entry ∷ fields.entry.fields) }
{
    let one = next_field(first, &mut fields)?;
    let two = next_field(one, &mut fields)?;
    let three = next_field(two, &mut fields)?;
    let four = next_field(three, &mut fields)?;
    let five = next_field(four, &mut fields)?;
    no_more(fields)?;
    Ok((one, two, three, four, five))
}

/// The next field, after the last one that was read.
fn next_field<'a>(last: Field<'a>, fields: &mut Fields<'a>) -> Result<Field<'a>, FieldCount>
    ensures { ReadsNext result (past_end (field_read last.entry)) fields.old.fields fields.new.fields }
{
    match fields.next() {
        Some(field) => Ok(field),
        None => {
            let column = last.column + last.text.len() as u32;
            Err(FieldCount { column })
        }
    }
}

/// That no field is left.
fn no_more(mut fields: Fields<'_>) -> Result<(), FieldCount>
    ensures { EndsThere result fields.entry.fields }
{
    match fields.next() {
        Some(field) => Err(FieldCount {
            column: field.column,
        }),
        None => Ok(()),
    }
}

//! The lines of operating points: a point faster than those before it.

ghost use Rattle.std.specs.Prelude.{◌≡◌, ◌<◌, ◌∷◌, ◌++◌, [], length, OnOk, IfOk};
ghost use Rattle.base.specs.declared.limits.TheConstants.{MAX_POINTS};
ghost use Rattle.yds_model.specs.Entry.{PointEntry};
ghost use Rattle.yds_model.specs.Reading.{PointLine};
ghost use Rattle.yds_text.specs.Read.{field_read};
ghost use Rattle.document_value.specs.Documents.{points_of};
ghost use Rattle.document_reader.specs.Draft.{IsDraft, Reads, Takes};
ghost use Rattle.document_reader.specs.Fields.{Gives, GivesUnlessMemory};
ghost use Rattle.document_reader.specs.Point.{point_of, point_after, table_fault};

use crate::draft::Draft;
use crate::field_fault::FieldFault;
use crate::fields::small_in;
use crate::line_fault::LineFault;
use std::alloc::Global;
use yds_hull::Point;
use yds_model::Reason;
use yds_model::limits::{MAX_POINT_POWER, MAX_POINT_SPEED};
use yds_table::{Table, TableFault};
use yds_text::{Field, Fields, two_fields};

/// Reads the line whose first field is `kind`, and adds its point.
pub(crate) fn read<'a>(
    draft: &mut Draft<'a>,
    alloc: Global,
    kind: Field<'a>,
    fields: Fields<'a>,
) -> Result<(), LineFault>
    requires kept { IsDraft draft.old }
    requires room { length (points_of draft.old.table) < MAX_POINTS }
    ensures kept { OnOk result (IsDraft draft.new) }
    ensures reads { Reads PointLine (field_read kind.entry ∷ fields.entry.fields) result draft.old draft.new }
{
    let (speed, power) = two_fields(kind, fields)?;
    let point = point_in(speed, power)?;
    add(draft, alloc, point, speed.column)?;
    Ok(())
}

/// What the fields say: a point of whatever speed.
fn point_in(speed: Field<'_>, power: Field<'_>) -> Result<Point, FieldFault>
    ensures { Gives (λ point. point) result (point_of (field_read speed.entry) (field_read power.entry)) }
{
    let speed = small_in(speed, 0, MAX_POINT_SPEED)?;
    let power = small_in(power, 0, MAX_POINT_POWER)?;
    Ok(Point::new(speed, power))
}

/// Puts the point last, where it may stand there with its speed in this column.
fn add(draft: &mut Draft<'_>, alloc: Global, point: Point, column: u32) -> Result<(), LineFault>
    requires kept { IsDraft draft.old }
    requires room { length (points_of draft.old.table) < MAX_POINTS }
    ensures kept { OnOk result (IsDraft draft.new) }
    ensures gives { GivesUnlessMemory (λ done. PointEntry point) result (point_after (points_of draft.old.table) point column) }
    ensures takes { OnOk result (Takes draft.old draft.new (PointEntry point)) }
{
    match &mut draft.table {
        Some(table) => {
            next_point(table, point, column)?;
            Ok(())
        }
        None => {
            draft.table = Some(first_point(alloc, point, column)?);
            Ok(())
        }
    }
}

/// The fault of a line whose point has its speed in this column.
fn of_table(fault: TableFault, column: u32) -> LineFault
    ensures { result ≡ table_fault column fault }
{
    match fault {
        TableFault::NoIdle => LineFault::at(column, Reason::NoIdle),
        TableFault::NotRising => LineFault::at(column, Reason::NotRising),
        TableFault::GapsTooFine => LineFault::at(column, Reason::GapsTooFine),
        TableFault::Memory => LineFault::Memory,
    }
}

/// The table of this point alone.
fn first_point(alloc: Global, point: Point, column: u32) -> Result<Table, LineFault>
    ensures gives { GivesUnlessMemory (λ table. PointEntry point) result (point_after [] point column) }
    ensures one { IfOk result (λ table. table ≡ point ∷ []) }
{
    match Table::new(alloc, point) {
        Ok(table) => Ok(table),
        Err(fault) => Err(of_table(fault, column)),
    }
}

/// The point after the others.
fn next_point(table: &mut Table, point: Point, column: u32) -> Result<(), LineFault>
    requires { length table.old < MAX_POINTS }
    ensures gives { GivesUnlessMemory (λ done. PointEntry point) result (point_after table.old point column) }
    ensures last { OnOk result (table.new ≡ table.old ++ point ∷ []) }
{
    // Reading the points shows that they are a table, before and after.
    let _points = table.points();
    match table.push(point) {
        Ok(()) => {
            let _points = table.points();
            Ok(())
        }
        Err(fault) => Err(of_table(fault, column)),
    }
}

//! The line of the grid of a policy run.

ghost use Rattle.std.specs.Prelude.{◌≡◌, ◌∷◌, [], None, OnOk};
ghost use Rattle.yds_model.specs.Entry.{GridEntry};
ghost use Rattle.base.specs.Fields.{no_field};
ghost use Rattle.yds_model.specs.Reading.{GridLine, read_grid};
ghost use Rattle.yds_text.specs.Read.{field_read};
ghost use Rattle.document_reader.specs.Draft.{IsDraft, ReadsFields, Takes};
ghost use Rattle.document_reader.specs.Fields.{Gives};

use crate::draft::Draft;
use crate::field_fault::FieldFault;
use crate::fields::small_in;
use document_value::Grid;
use yds_model::limits::{MAX_GRID, MAX_ROUNDED};
use yds_text::{Field, Fields, two_fields};

/// Reads the line whose first field is `kind`, and keeps its grid.
pub(crate) fn read<'a>(
    draft: &mut Draft<'a>,
    kind: Field<'a>,
    fields: Fields<'a>,
) -> Result<(), FieldFault>
    requires kept { IsDraft draft.old }
    requires first { draft.old.grid ≡ None }
    ensures kept { OnOk result (IsDraft draft.new) }
    ensures reads { ReadsFields GridLine (field_read kind.entry ∷ fields.entry.fields) result draft.old draft.new }
{
    let (grid, rounded) = two_fields(kind, fields)?;
    let grid = grid_in(grid, rounded)?;
    add(draft, grid);
    Ok(())
}

/// What the fields say.
fn grid_in(grid: Field<'_>, rounded: Field<'_>) -> Result<Grid, FieldFault>
    ensures gives { Gives (λ grid. GridEntry grid) result (read_grid (no_field ∷ field_read grid.entry ∷ field_read rounded.entry ∷ [])) }
{
    let grid = small_in(grid, 1, MAX_GRID)?;
    let rounded = small_in(rounded, 0, MAX_ROUNDED)?;
    Ok(Grid { grid, rounded })
}

/// Keeps the grid that the line tells.
fn add(draft: &mut Draft<'_>, grid: Grid)
    requires kept { IsDraft draft.old }
    requires first { draft.old.grid ≡ None }
    ensures kept { IsDraft draft.new }
    ensures takes { Takes draft.old draft.new (GridEntry grid) }
{
    draft.grid = Some(grid);
}

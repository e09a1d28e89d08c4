//! The lines of pieces: from one time to another, of the level before. A piece that takes no time is kept too.

ghost use Rattle.std.specs.Prelude.{◌<◌, ◌≤◌, ◌∷◌, [], length, OnOk, IfSome};
ghost use Rattle.base.specs.declared.limits.TheConstants.{MAX_PIECES};
ghost use Rattle.yds_model.specs.Entry.{PieceEntry};
ghost use Rattle.base.specs.Fields.{no_field};
ghost use Rattle.yds_model.specs.Reading.{PieceLine, read_piece};
ghost use Rattle.yds_text.specs.Read.{field_read};
ghost use Rattle.document_reader.specs.Draft.{IsDraft, Reads, Takes};
ghost use Rattle.document_reader.specs.Fields.{Gives};
ghost use Rattle.document_reader.specs.Plain.{SaysTwo, read_piece_fields};

use crate::draft::Draft;
use crate::field_fault::FieldFault;
use crate::fields::small_in;
use crate::line_fault::LineFault;
use yds_certificate::Piece;
use yds_model::Memory;
use yds_model::limits::MAX_TIME;
use yds_text::{Field, Fields, two_fields};

/// Reads the line whose first field is `kind`, and adds its piece to the last level.
pub(crate) fn read<'a>(
    draft: &mut Draft<'a>,
    kind: Field<'a>,
    fields: Fields<'a>,
) -> Result<(), LineFault>
    requires kept { IsDraft draft.old }
    requires some { 1 ≤ length draft.old.certificate }
    requires room { draft.old.pieces < MAX_PIECES }
    ensures kept { OnOk result (IsDraft draft.new) }
    ensures reads { Reads PieceLine (field_read kind.entry ∷ fields.entry.fields) result draft.old draft.new }
{
    if let Some(piece) = plain_piece(fields.again()) {
        add(draft, piece)?;
        return Ok(());
    }
    read_each(draft, kind, fields)
}

/// The same, with the fields read one by one.
fn read_each<'a>(
    draft: &mut Draft<'a>,
    kind: Field<'a>,
    fields: Fields<'a>,
) -> Result<(), LineFault>
    requires kept { IsDraft draft.old }
    requires some { 1 ≤ length draft.old.certificate }
    requires room { draft.old.pieces < MAX_PIECES }
    ensures kept { OnOk result (IsDraft draft.new) }
    ensures reads { Reads PieceLine (field_read kind.entry ∷ fields.entry.fields) result draft.old draft.new }
{
    let (from, to) = two_fields(kind, fields)?;
    let piece = piece_in(from, to)?;
    add(draft, piece)?;
    Ok(())
}

/// What the fields say, where they are plain and say a piece.
fn plain_piece(mut fields: Fields<'_>) -> Option<Piece>
    ensures { IfSome result (λ piece. SaysTwo read_piece_fields fields.entry.fields (PieceEntry piece)) }
{
    let from = fields.plain_small(0, MAX_TIME)?;
    let to = fields.plain_small(0, MAX_TIME)?;
    if fields.at_end() {
        Some(Piece { from, to })
    } else {
        None
    }
}

/// What the fields say.
fn piece_in(from: Field<'_>, to: Field<'_>) -> Result<Piece, FieldFault>
    ensures gives { Gives (λ piece. PieceEntry piece) result (read_piece (no_field ∷ field_read from.entry ∷ field_read to.entry ∷ [])) }
{
    let from = small_in(from, 0, MAX_TIME)?;
    let to = small_in(to, 0, MAX_TIME)?;
    Ok(Piece { from, to })
}

/// Puts the piece last in the last level.
fn add(draft: &mut Draft<'_>, piece: Piece) -> Result<(), Memory>
    requires kept { IsDraft draft.old }
    requires some { 1 ≤ length draft.old.certificate }
    requires room { draft.old.pieces < MAX_PIECES }
    ensures kept { OnOk result (IsDraft draft.new) }
    ensures takes { OnOk result (Takes draft.old draft.new (PieceEntry piece)) }
{
    draft.certificate.piece(piece)?;
    draft.pieces += 1;
    Ok(())
}

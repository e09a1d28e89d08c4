//! Prints the lines of pieces.

ghost use Rattle.std.specs.Prelude.{◌≡◌, ◌+◌, ◌*◌, ◌≤◌, ◌++◌, length};
ghost use Rattle.std.specs.List.{flat_map};
ghost use Rattle.yds_model.specs.Text.{piece_line};
ghost use Rattle.yds_port.specs.Sink.{Puts};

use crate::tail_buffer::{BATCH_BYTES, BATCH_LINES, Lines};
use text_line::line_buffer::LINE_BYTES;
use yds_certificate::Piece;
use yds_port::{Sink, WriteFault, write_all};

/// Puts the line of a piece before the text.
fn put(text: &mut Lines, piece: &Piece)
    requires { LINE_BYTES + length text.old ≤ BATCH_BYTES }
    ensures bytes { text.new ≡ piece_line piece.now ++ text.old }
    ensures short { length text.new ≤ LINE_BYTES + length text.old }
{
    text.put_byte(b'\n');
    text.put_number_field(u64::from(piece.to));
    text.put_number_field(u64::from(piece.from));
    text.put_kind("piece");
}

/// Puts the lines of these pieces before the text, from the last to the first.
pub(crate) fn put_all(text: &mut Lines, pieces: &[Piece])
    requires { LINE_BYTES * length pieces.now + length text.old ≤ BATCH_BYTES }
    ensures bytes { text.new ≡ flat_map piece_line pieces.now ++ text.old }
    ensures short { length text.new ≤ LINE_BYTES * length pieces.now + length text.old }
{
    for place in (0..pieces.len()).rev() {
        put(text, &pieces[place]);
    }
}

/// Appends the lines of a level's pieces, in their order.
pub(crate) fn print<K: Sink>(
    pieces: &[Piece],
    text: &mut Lines,
    sink: &mut K,
) -> Result<(), WriteFault>
    ensures { Puts K.written K.flushed K.flushes K.faults result (flat_map piece_line pieces.now) sink.old sink.new }
{
    let mut rest = pieces;
    while !rest.is_empty() {
        let (batch, others) = rest.split_at(rest.len().min(BATCH_LINES));
        text.clear();
        put_all(text, batch);
        write_all(sink, text.as_bytes())?;
        rest = others;
    }
    Ok(())
}

//! Prints the line of the grid.

ghost use Rattle.std.specs.Prelude.{◌≡◌, ◌∷◌, [], codes, decimal};
ghost use Rattle.base.specs.Lines.{line};
ghost use Rattle.yds_model.specs.Text.{grid_lines};
ghost use Rattle.yds_port.specs.Sink.{Puts};

use crate::tail_buffer::Line;
use document_value::Grid;
use yds_port::{Sink, WriteFault, write_all};

/// Makes the line of a grid.
fn put(text: &mut Line, grid: Grid)
    ensures { text.new ≡ line (codes "grid" ∷ decimal grid.grid ∷ decimal grid.rounded ∷ []) }
{
    text.restart();
    text.put_number_field(u64::from(grid.rounded));
    text.put_number_field(u64::from(grid.grid));
    text.put_kind("grid");
}

/// Appends the line of the grid, where there is one.
pub(crate) fn print<K: Sink>(grid: Option<Grid>, sink: &mut K) -> Result<(), WriteFault>
    ensures { Puts K.written K.flushed K.flushes K.faults result (grid_lines grid) sink.old sink.new }
{
    match grid {
        Some(grid) => {
            let mut line = Line::new();
            put(&mut line, grid);
            write_all(sink, line.as_bytes())
        }
        None => Ok(()),
    }
}

//! Prints the line of the energy that the slots take.

ghost use Rattle.std.specs.Prelude.{◌≡◌, ◌∷◌, [], codes};
ghost use Rattle.base.specs.Lines.{line};
ghost use Rattle.yds_model.specs.Text.{fraction_text, energy_lines};
ghost use Rattle.yds_port.specs.Sink.{Puts};

use crate::kept_text::{NumberText, put_fraction};
use crate::tail_buffer::Line;
use yds_fraction::Amount;
use yds_port::{Sink, WriteFault, write_all};

/// Makes the line of an energy.
fn put(text: &mut Line, energy: Amount)
    ensures { text.new ≡ line (codes "energy" ∷ fraction_text energy ∷ []) }
{
    text.restart();
    put_fraction(energy, &mut NumberText::of(energy.den()), text);
    text.put_byte(b' ');
    text.put_kind("energy");
}

/// Appends the line of the energy, where there is one.
pub(crate) fn print<K: Sink>(energy: Option<Amount>, sink: &mut K) -> Result<(), WriteFault>
    ensures { Puts K.written K.flushed K.flushes K.faults result (energy_lines energy) sink.old sink.new }
{
    match energy {
        Some(energy) => {
            let mut line = Line::new();
            put(&mut line, energy);
            write_all(sink, line.as_bytes())
        }
        None => Ok(()),
    }
}

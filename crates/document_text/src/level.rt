//! Prints the lines of levels, each with those of its pieces and members after it.

ghost use Rattle.std.specs.Prelude.{◌≡◌, ◌+◌, ◌*◌, ◌<◌, ◌≤◌, ◌∷◌, ◌++◌, [], length, take, codes, decimal};
ghost use Rattle.std.specs.List.{All, flat_map};
ghost use Rattle.base.specs.Lines.{line};
ghost use Rattle.yds_model.specs.Text.{level_lines};
ghost use Rattle.yds_port.specs.Sink.{Puts};
ghost use Rattle.document_text.specs.Level.{line_count, line_total};

use crate::tail_buffer::{BATCH_BYTES, BATCH_LINES, Lines};
use crate::{member, piece};
use text_line::line_buffer::LINE_BYTES;
use yds_certificate::Level;
use yds_instance::Instance;
use yds_port::{Sink, WriteFault, write_all};

/// Puts the line of a level before the text, without those of its pieces and members.
fn put_first(text: &mut Lines, level: &Level)
    requires { LINE_BYTES + length text.old ≤ BATCH_BYTES }
    ensures bytes { text.new ≡ line (codes "level" ∷ decimal level.now.work ∷ decimal level.now.length ∷ []) ++ text.old }
    ensures short { length text.new ≤ LINE_BYTES + length text.old }
{
    text.put_byte(b'\n');
    text.put_number_field(level.length);
    text.put_number_field(level.work);
    text.put_kind("level");
}

/// How many lines a level has, with its pieces and members.
fn line_count(level: &Level) -> usize
    ensures { result ≡ line_count level.now }
{
    1 + level.pieces.len() + level.members.len()
}

/// Puts the lines of a level before the text, from the last to the first.
fn put(text: &mut Lines, instance: &Instance<'_>, level: &Level)
    requires known { All (λ job. job < length instance.now.jobs) level.now.members }
    requires room { LINE_BYTES * line_count level.now + length text.old ≤ BATCH_BYTES }
    ensures bytes { text.new ≡ level_lines instance.now.names level.now ++ text.old }
    ensures short { length text.new ≤ LINE_BYTES * line_count level.now + length text.old }
{
    member::put_all(text, instance, &level.members);
    piece::put_all(text, &level.pieces);
    put_first(text, level);
}

/// Makes the lines of these levels, from the last to the first.
fn put_all(text: &mut Lines, instance: &Instance<'_>, levels: &[Level])
    requires known { All (λ level. All (λ job. job < length instance.now.jobs) level.members) levels.now }
    requires few { line_total levels.now ≤ BATCH_LINES }
    ensures { text.new ≡ flat_map (level_lines instance.now.names) levels.now }
{
    text.clear();
    for place in (0..levels.len()).rev() {
        put(text, instance, &levels[place]);
    }
}

/// How many of the first levels have their lines made together.
fn batch_len(levels: &[Level]) -> usize
    ensures within { result ≤ length levels.now }
    ensures few { line_total (take result levels.now) ≤ BATCH_LINES }
{
    let mut room = BATCH_LINES;
    for (place, level) in levels.iter().enumerate() {
        let lines = line_count(level);
        if lines > room {
            return place;
        }
        room -= lines;
    }
    levels.len()
}

/// Appends the lines of the levels, in their order, each with its pieces and members.
pub(crate) fn print<K: Sink>(
    instance: &Instance<'_>,
    levels: &[Level],
    sink: &mut K,
) -> Result<(), WriteFault>
    requires { All (λ level. All (λ job. job < length instance.now.jobs) level.members) levels.now }
    ensures { Puts K.written K.flushed K.flushes K.faults result (flat_map (level_lines instance.now.names) levels.now) sink.old sink.new }
{
    let mut text = Lines::new();
    let mut rest = levels;
    while !rest.is_empty() {
        let count = batch_len(rest);
        if count == 0 {
            let (first, others) = rest.split_at(1);
            print_level(instance, &first[0], &mut text, sink)?;
            rest = others;
        } else {
            let (batch, others) = rest.split_at(count);
            put_all(&mut text, instance, batch);
            write_all(sink, text.as_bytes())?;
            rest = others;
        }
    }
    Ok(())
}

/// A level of many lines, then its pieces, then its members.
fn print_level<K: Sink>(
    instance: &Instance<'_>,
    level: &Level,
    text: &mut Lines,
    sink: &mut K,
) -> Result<(), WriteFault>
    requires { All (λ job. job < length instance.now.jobs) level.now.members }
    ensures { Puts K.written K.flushed K.flushes K.faults result (level_lines instance.now.names level.now) sink.old sink.new }
{
    text.clear();
    put_first(text, level);
    write_all(sink, text.as_bytes())?;
    piece::print(&level.pieces, text, sink)?;
    member::print(instance, &level.members, text, sink)
}

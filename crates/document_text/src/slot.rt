//! Prints the lines of slots.

ghost use Rattle.std.specs.Prelude.{◌≡◌, ◌+◌, ◌*◌, ◌<◌, ◌≤◌, ◌∷◌, ◌++◌, length};
ghost use Rattle.std.specs.List.{All, flat_map};
ghost use Rattle.yds_model.specs.Text.{fraction_text, slot_line};
ghost use Rattle.yds_port.specs.Sink.{Puts};

use crate::job::name_of;
use crate::kept_text::{FRACTION_ROOM, FractionText, NumberText, put_fraction};
use crate::tail_buffer::{BATCH_BYTES, BATCH_LINES, Lines};
use text_line::line_buffer::LINE_BYTES;
use yds_fraction::{Amount, Moment};
use yds_instance::Instance;
use yds_port::{Sink, WriteFault, write_all};
use yds_slots::Slot;

/// What the lines of slots mostly share: a slot ends where the one after it begins, and those of a level have one
/// denominator for their ends and one for their works.
#[derive(Drop)]
struct KeptTexts {
    start: FractionText,
    den_of_ends: NumberText,
    den_of_works: NumberText,
}

impl KeptTexts {
    /// Those of the number 1, for a start.
    fn new() -> KeptTexts {
        let mut den = NumberText::of(1);
        KeptTexts {
            start: FractionText::of(Amount::from_whole(1), &mut den),
            den_of_ends: den,
            den_of_works: NumberText::of(1),
        }
    }

    /// Puts the slot's work and its ends before the text, each with a space before it. The start is kept.
    fn put(&mut self, slot: &Slot, text: &mut Lines)
        requires { 3 * (1 + FRACTION_ROOM) + length text.old ≤ BATCH_BYTES }
        ensures bytes { text.new ≡ 32 ∷ (fraction_text slot.now.from ++ 32 ∷ (fraction_text slot.now.to ++ 32 ∷ (fraction_text slot.now.work ++ text.old))) }
        ensures short { length text.new ≤ 3 * (1 + FRACTION_ROOM) + length text.old }
    {
        put_fraction(slot.work, &mut self.den_of_works, text);
        text.put_byte(b' ');
        self.put_end(slot.to, text);
        text.put_byte(b' ');
        self.start.set(slot.from, &mut self.den_of_ends);
        self.start.put(text);
        text.put_byte(b' ');
    }

    /// Puts the slot's end before the text.
    fn put_end(&mut self, end: Moment, text: &mut Lines)
        requires { FRACTION_ROOM + length text.old ≤ BATCH_BYTES }
        ensures bytes { text.new ≡ fraction_text end ++ text.old }
        ensures short { length text.new ≤ FRACTION_ROOM + length text.old }
    {
        if self.start.is_of(end) {
            self.start.put(text);
        } else {
            put_fraction(end, &mut self.den_of_ends, text);
        }
    }
}

/// Puts the line of a slot before the text.
fn put(text: &mut Lines, kept: &mut KeptTexts, instance: &Instance<'_>, slot: &Slot)
    requires known { slot.now.job < length instance.now.jobs }
    requires room { LINE_BYTES + length text.old ≤ BATCH_BYTES }
    ensures bytes { text.new ≡ slot_line instance.now.names slot.now ++ text.old }
    ensures short { length text.new ≤ LINE_BYTES + length text.old }
{
    text.put_byte(b'\n');
    kept.put(slot, text);
    text.put_field(name_of(instance, slot.job));
    text.put_kind("slot");
}

/// Makes the lines of these slots, from the last to the first.
fn put_all(text: &mut Lines, kept: &mut KeptTexts, instance: &Instance<'_>, slots: &[Slot])
    requires known { All (λ slot. slot.job < length instance.now.jobs) slots.now }
    requires few { length slots.now ≤ BATCH_LINES }
    ensures { text.new ≡ flat_map (slot_line instance.now.names) slots.now }
{
    text.clear();
    for place in (0..slots.len()).rev() {
        put(text, kept, instance, &slots[place]);
    }
}

/// Appends the lines of the slots, in their order.
pub(crate) fn print<K: Sink>(
    instance: &Instance<'_>,
    slots: &[Slot],
    sink: &mut K,
) -> Result<(), WriteFault>
    requires { All (λ slot. slot.job < length instance.now.jobs) slots.now }
    ensures { Puts K.written K.flushed K.flushes K.faults result (flat_map (slot_line instance.now.names) slots.now) sink.old sink.new }
{
    let mut text = Lines::new();
    let mut kept = KeptTexts::new();
    let mut rest = slots;
    while !rest.is_empty() {
        let (batch, others) = rest.split_at(rest.len().min(BATCH_LINES));
        put_all(&mut text, &mut kept, instance, batch);
        write_all(sink, text.as_bytes())?;
        rest = others;
    }
    Ok(())
}

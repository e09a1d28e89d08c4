//! Texts of numbers and fractions that are kept, since the next line mostly has them too.

ghost use Rattle.std.specs.Prelude.{◌≡◌, ◌+◌, ◌≤◌, ◌++◌, length, decimal, IsTrue};
ghost use Rattle.yds_model.specs.Text.{fraction_text};

use crate::tail_buffer::TailBuffer;
use std::marker::Model;
use text_line::line_buffer::{FRACTION_BYTES, NUMBER_BYTES};
use yds_fraction::Amount;

/// How many bytes are kept for a fraction: some more than it has at most, so that they are copied in whole words.
pub(crate) const FRACTION_ROOM: usize = 64;

/// A number with its text.
#[derive(Drop)]
pub(crate) struct NumberText {
    number: u64,
    text: TailBuffer<NUMBER_BYTES>,
    ghost is_text: { text ≡ decimal number },
}

impl NumberText {
    /// The text of this number.
    pub(crate) fn of(number: u64) -> NumberText
        ensures { result.number ≡ number }
    {
        let mut text = TailBuffer::new();
        text.put_number(number);
        NumberText { number, text }
    }

    /// Puts the number before the text. What is kept is made anew where it is that of another number.
    pub(crate) fn put<const N: usize>(&mut self, number: u64, text: &mut TailBuffer<N>)
        requires { NUMBER_BYTES + length text.old ≤ N }
        ensures bytes { text.new ≡ decimal number ++ text.old }
        ensures short { length text.new ≤ NUMBER_BYTES + length text.old }
    {
        if self.number != number {
            *self = NumberText::of(number);
        }
        text.put_text(&self.text);
    }
}

/// A fraction with its text. A contract sees the fraction.
#[derive(Drop)]
pub(crate) struct FractionText {
    value: Amount,
    text: TailBuffer<FRACTION_ROOM>,
}

impl Model for FractionText {
    ghost use Rattle.std.specs.Prelude.{◌≡◌};
    ghost use Rattle.yds_model.specs.Scale.{Fraction};
    ghost use Rattle.yds_model.specs.Text.{fraction_text};

    ghost Value = { Fraction };

    ghost view = { λ kept. kept.value };

    ghost invariant = { λ kept. kept.text ≡ fraction_text kept.value };
}

impl FractionText {
    /// The text of this fraction, whose denominator is mostly the one that is kept.
    pub(crate) fn of(value: Amount, den: &mut NumberText) -> FractionText
        ensures { result ≡ value }
    {
        let mut text = TailBuffer::new();
        put_fraction(value, den, &mut text);
        FractionText { value, text }
    }

    /// It becomes the text of this fraction, in the same place.
    pub(crate) fn set(&mut self, value: Amount, den: &mut NumberText)
        ensures { self.new ≡ value }
    {
        self.text.clear();
        put_fraction(value, den, &mut self.text);
        self.value = value;
    }

    /// Puts this fraction before the text.
    #[inline(always)]
    pub(crate) fn put<const N: usize>(&self, text: &mut TailBuffer<N>)
        requires { FRACTION_ROOM + length text.old ≤ N }
        ensures bytes { text.new ≡ fraction_text self.now ++ text.old }
        ensures short { length text.new ≤ FRACTION_ROOM + length text.old }
    {
        text.put_text(&self.text);
    }

    /// Whether it is the text of this fraction.
    pub(crate) fn is_of(&self, value: Amount) -> bool
        ensures { IsTrue result → self.now ≡ value }
    {
        self.value.whole() == value.whole()
            && self.value.num() == value.num()
            && self.value.den() == value.den()
    }
}

/// Puts the fraction before the text: `W`, or `W+N/D` where the numerator isn't 0. It isn't reduced. Its denominator
/// is mostly the one that is kept.
#[inline(always)]
pub(crate) fn put_fraction<const N: usize>(
    value: Amount,
    den: &mut NumberText,
    text: &mut TailBuffer<N>,
)
    requires { FRACTION_BYTES + length text.old ≤ N }
    ensures bytes { text.new ≡ fraction_text value ++ text.old }
    ensures short { length text.new ≤ FRACTION_BYTES + length text.old }
{
    if value.num() != 0 {
        den.put(value.den(), text);
        text.put_byte(b'/');
        text.put_number(value.num());
        text.put_byte(b'+');
    }
    text.put_number(value.whole());
}

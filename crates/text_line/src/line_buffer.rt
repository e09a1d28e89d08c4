//! A line of text, made on the stack field by field.
ghost use Rattle.std.specs.Prelude.{◌≡◌, ◌+◌, ◌≤◌, ◌∷◌, ◌++◌, [], length, decimal, replicate};
ghost use Rattle.yds_model.specs.Text.{fraction_text};
ghost use Rattle.yds_model.specs.ReportAnswer.{right};

use arrayvec::ArrayString;
use itoa::Buffer;
use std::marker::Model;
use yds_fraction::Amount;

/// How many bytes a line has at most. The longest line of a document, that of a slot, has its kind, a name and
/// three fractions, and fits well; so does the line of a verdict, which has some words more.
pub const LINE_BYTES: usize = 320;

/// How many digits a number has at most.
pub const NUMBER_BYTES: usize = 20;

/// How many bytes a fraction has at most: three numbers, and the two signs between them.
pub const FRACTION_BYTES: usize = 3 * NUMBER_BYTES + 2;

/// A line of text, made on the stack. A contract sees its bytes.
#[derive(Drop)]
pub struct LineBuffer {
    text: ArrayString<LINE_BYTES>,
}

impl Model for LineBuffer {
    ghost use Rattle.std.specs.Prelude.{ℕ, List};

    ghost Value = { List ℕ };

    ghost view = { λ line. line.text.bytes };
}

impl LineBuffer {
    /// A line that begins with this word.
    pub fn new(kind: &str) -> LineBuffer
        requires { length kind.now ≤ LINE_BYTES }
        ensures { result ≡ kind.now }
    {
        let mut text = ArrayString::new();
        text.push_str(kind);
        LineBuffer { text }
    }

    /// The line begins anew with this word, in the same place.
    pub fn restart(&mut self, kind: &str)
        requires { length kind.now ≤ LINE_BYTES }
        ensures { self.new ≡ kind.now }
    {
        self.text.clear();
        self.text.push_str(kind);
    }

    /// One more field, after a space.
    pub fn field(mut self, field: &str) -> LineBuffer
        requires { length self + 1 + length field.now ≤ LINE_BYTES }
        ensures bytes { result ≡ self ++ 32 ∷ field.now }
        ensures len { length result ≡ length self + 1 + length field.now }
    {
        self.push_field(field);
        self
    }

    /// The same in place: nothing is moved.
    fn push_field(&mut self, field: &str)
        requires { length self.old + 1 + length field.now ≤ LINE_BYTES }
        ensures bytes { self.new ≡ self.old ++ 32 ∷ field.now }
        ensures len { length self.new ≡ length self.old + 1 + length field.now }
    {
        self.text.push_str(" ");
        self.text.push_str(field);
    }

    /// One more field with a number, after a space.
    pub fn number(mut self, number: u64) -> LineBuffer
        requires { length self + 1 + NUMBER_BYTES ≤ LINE_BYTES }
        ensures bytes { result ≡ self ++ 32 ∷ decimal number }
        ensures short { length result ≤ length self + 1 + NUMBER_BYTES }
    {
        self.push_number(number);
        self
    }

    /// The same in place.
    fn push_number(&mut self, number: u64)
        requires { length self.old + 1 + NUMBER_BYTES ≤ LINE_BYTES }
        ensures bytes { self.new ≡ self.old ++ 32 ∷ decimal number }
        ensures short { length self.new ≤ length self.old + 1 + NUMBER_BYTES }
    {
        self.push_field(Buffer::new().format(number));
    }

    /// One more field with a number at the right of so many places, after a space. A number of more digits
    /// is written whole.
    pub fn push_column(&mut self, places: usize, number: u64)
        requires few { places ≤ NUMBER_BYTES }
        requires room { length self.old + 1 + NUMBER_BYTES ≤ LINE_BYTES }
        ensures bytes { self.new ≡ self.old ++ 32 ∷ right places number }
        ensures short { length self.new ≤ length self.old + 1 + NUMBER_BYTES }
    {
        self.text.push_str(" ");
        self.push_right(places, number);
    }

    /// The same with no space before it.
    pub fn push_right(&mut self, places: usize, number: u64)
        requires few { places ≤ NUMBER_BYTES }
        requires room { length self.old + NUMBER_BYTES ≤ LINE_BYTES }
        ensures bytes { self.new ≡ self.old ++ right places number }
        ensures short { length self.new ≤ length self.old + NUMBER_BYTES }
    {
        let mut buffer = Buffer::new();
        let digits = buffer.format(number);
        self.push_spaces(places.saturating_sub(digits.len()));
        self.text.push_str(digits);
    }

    /// So many spaces.
    fn push_spaces(&mut self, count: usize)
        requires { length self.old + count ≤ LINE_BYTES }
        ensures bytes { self.new ≡ self.old ++ replicate count 32 }
        ensures len { length self.new ≡ length self.old + count }
    {
        for _ in 0..count {
            self.text.push_str(" ");
        }
    }

    /// One more field with a fraction, after a space: `W`, or `W+N/D` where the numerator isn't 0. It
    /// isn't reduced.
    pub fn fraction(mut self, value: Amount) -> LineBuffer
        requires { length self + 1 + FRACTION_BYTES ≤ LINE_BYTES }
        ensures bytes { result ≡ self ++ 32 ∷ fraction_text value }
        ensures short { length result ≤ length self + 1 + FRACTION_BYTES }
    {
        self.push_fraction(value);
        self
    }

    /// The same in place.
    pub fn push_fraction(&mut self, value: Amount)
        requires { length self.old + 1 + FRACTION_BYTES ≤ LINE_BYTES }
        ensures bytes { self.new ≡ self.old ++ 32 ∷ fraction_text value }
        ensures short { length self.new ≤ length self.old + 1 + FRACTION_BYTES }
    {
        self.text.push_str(" ");
        self.push_mixed(value);
    }

    /// The same with no space before it.
    pub fn mixed(mut self, value: Amount) -> LineBuffer
        requires { length self + FRACTION_BYTES ≤ LINE_BYTES }
        ensures bytes { result ≡ self ++ fraction_text value }
        ensures short { length result ≤ length self + FRACTION_BYTES }
    {
        self.push_mixed(value);
        self
    }

    /// The same in place.
    fn push_mixed(&mut self, value: Amount)
        requires { length self.old + FRACTION_BYTES ≤ LINE_BYTES }
        ensures bytes { self.new ≡ self.old ++ fraction_text value }
        ensures short { length self.new ≤ length self.old + FRACTION_BYTES }
    {
        self.text.push_str(Buffer::new().format(value.whole()));
        if value.num() != 0 {
            self.push_part("+", value.num());
            self.push_part("/", value.den());
        }
    }

    /// A sign and a number, with no space.
    fn push_part(&mut self, sign: &str, number: u64)
        requires one { length sign.now ≡ 1 }
        requires room { length self.old + 1 + NUMBER_BYTES ≤ LINE_BYTES }
        ensures bytes { self.new ≡ self.old ++ (sign.now ++ decimal number) }
        ensures short { length self.new ≤ length self.old + 1 + NUMBER_BYTES }
    {
        self.text.push_str(sign);
        self.text.push_str(Buffer::new().format(number));
    }

    /// The line with its end.
    pub fn end(mut self) -> LineBuffer
        requires { length self + 1 ≤ LINE_BYTES }
        ensures bytes { result ≡ self ++ 10 ∷ [] }
    {
        self.push_end();
        self
    }

    /// The same in place.
    pub fn push_end(&mut self)
        requires { length self.old + 1 ≤ LINE_BYTES }
        ensures { self.new ≡ self.old ++ 10 ∷ [] }
    {
        self.text.push_str("\n");
    }

    /// The line as text.
    pub fn as_str(&self) -> &str
        ensures { result.now ≡ self.now }
    {
        self.text.as_str()
    }

    /// The line's bytes.
    pub fn as_bytes(&self) -> &[u8]
        ensures { result.now ≡ self.now }
    {
        self.text.as_str().as_bytes()
    }
}

//! A text made on the stack from its end to its beginning.

ghost use Rattle.std.specs.Prelude.{◌≡◌, ◌+◌, ◌≤◌, ◌∷◌, ◌++◌, [], length, drop, decimal};

use itoa::write_digits;
use std::marker::Model;
use text_line::line_buffer::{LINE_BYTES, NUMBER_BYTES};

/// Writes these bytes so that they end at `end`, and returns where they start.
fn write_before(bytes: &mut [u8], end: usize, front: &[u8]) -> usize
    requires room { length front.now ≤ end }
    requires within { end ≤ length bytes.old }
    ensures start { result + length front.now ≡ end }
    ensures written { drop result bytes.new ≡ front.now ++ drop end bytes.old }
{
    let start = end - front.len();
    bytes[start..end].copy_from_slice(front);
    start
}

/// A text of at most `N` bytes, made on the stack from its end to its beginning: the digits of a number come in this
/// order, so each stands where it is made. A contract sees its bytes.
#[derive(Drop)]
pub(crate) struct TailBuffer<const N: usize> {
    bytes: [u8; N],
    start: usize,
}

/// A line, with its end.
pub(crate) type Line = TailBuffer<LINE_BYTES>;

/// How many lines are made together at most.
pub(crate) const BATCH_LINES: usize = 64;

/// How many bytes lines that are made together have at most.
pub(crate) const BATCH_BYTES: usize = BATCH_LINES * LINE_BYTES;

/// Lines that are made together, from the last to the first, and written with one call.
pub(crate) type Lines = TailBuffer<BATCH_BYTES>;

impl<const N: usize> Model for TailBuffer<N> {
    ghost use Rattle.std.specs.Prelude.{◌≡◌, ◌≤◌, ℕ, List, drop, length};

    ghost Value = { List ℕ };

    ghost view = { λ text. drop text.start text.bytes };

    ghost invariant = { λ text. (text.start ≤ N) × (length text.bytes ≡ N) };
}

impl<const N: usize> TailBuffer<N> {
    /// No text.
    pub(crate) fn new() -> Self
        ensures { result ≡ [] }
    {
        TailBuffer {
            bytes: [0; N],
            start: N,
        }
    }

    /// The text begins anew, in the same place.
    pub(crate) fn clear(&mut self)
        ensures { self.new ≡ [] }
    {
        self.start = N;
    }

    /// Puts these bytes before the text.
    pub(crate) fn put(&mut self, front: &[u8])
        requires { length front.now + length self.old ≤ N }
        ensures { self.new ≡ front.now ++ self.old }
    {
        self.start = write_before(&mut self.bytes, self.start, front);
    }

    /// Puts this byte before the text.
    pub(crate) fn put_byte(&mut self, byte: u8)
        requires { 1 + length self.old ≤ N }
        ensures { self.new ≡ byte ∷ self.old }
    {
        let start = self.start - 1;
        self.bytes[start] = byte;
        self.start = start;
    }

    /// Puts the number before the text.
    pub(crate) fn put_number(&mut self, number: u64)
        requires { NUMBER_BYTES + length self.old ≤ N }
        ensures bytes { self.new ≡ decimal number ++ self.old }
        ensures short { length self.new ≤ NUMBER_BYTES + length self.old }
    {
        self.start = write_digits(number, &mut self.bytes, self.start);
    }

    /// Puts another text before this one. All of its place is copied, so that it is a copy of a fixed length.
    #[inline(always)]
    pub(crate) fn put_text<const M: usize>(&mut self, front: &TailBuffer<M>)
        requires { M + length self.old ≤ N }
        ensures bytes { self.new ≡ front.now ++ self.old }
        ensures short { length self.new ≤ M + length self.old }
    {
        let start = write_before(&mut self.bytes, self.start, &front.bytes);
        self.start = start + front.start;
    }

    /// The text begins anew, in the same place, with the end of a line.
    pub(crate) fn restart(&mut self)
        requires { 1 ≤ N }
        ensures { self.new ≡ 10 ∷ [] }
    {
        self.clear();
        self.put_byte(b'\n');
    }

    /// Puts one more field before the text, with a space before it.
    pub(crate) fn put_field(&mut self, field: &str)
        requires { 1 + length field.now + length self.old ≤ N }
        ensures bytes { self.new ≡ 32 ∷ (field.now ++ self.old) }
        ensures len { length self.new ≡ 1 + length field.now + length self.old }
    {
        self.put(field.as_bytes());
        self.put_byte(b' ');
    }

    /// Puts one more field with a number before the text, with a space before it.
    pub(crate) fn put_number_field(&mut self, number: u64)
        requires { 1 + NUMBER_BYTES + length self.old ≤ N }
        ensures bytes { self.new ≡ 32 ∷ (decimal number ++ self.old) }
        ensures short { length self.new ≤ 1 + NUMBER_BYTES + length self.old }
    {
        self.put_number(number);
        self.put_byte(b' ');
    }

    /// Puts the first field of the line before the text.
    pub(crate) fn put_kind(&mut self, kind: &str)
        requires { length kind.now + length self.old ≤ N }
        ensures { self.new ≡ kind.now ++ self.old }
    {
        self.put(kind.as_bytes());
    }

    /// The text's bytes.
    pub(crate) fn as_bytes(&self) -> &[u8]
        ensures { result.now ≡ self.now }
    {
        let bytes = &self.bytes[..];
        &bytes[self.start..]
    }
}

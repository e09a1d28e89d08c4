//! The lines of a text.
ghost use Rattle.std.specs.Prelude.{◌≡◌, ℕ, ◌+◌, ◌<◌, ◌≤◌, ◌∷◌, length, drop, map};
ghost use Rattle.base.specs.declared.limits.TheConstants.{MAX_BYTES};
ghost use Rattle.base.specs.Lines.{lines_from, lines_of, fields_of, without_return};
ghost use Rattle.yds_model.specs.Reading.{begins_comment};

use crate::field::{Fields, is_comment};
use memchr::memchr;
use std::iter::FusedIterator;
use std::marker::Model;

/// A line of a text, without its line feed and without a carriage return before it.
#[derive(Clone, Copy, Debug, PartialEq, Eq)]
pub struct Line<'a> {
    /// Its bytes.
    pub text: &'a [u8],
    /// Its number, counted from 1.
    pub number: u32,
    pub ghost bounded: { length text.now ≤ MAX_BYTES },
}

/// The lines of a text that are left to read, first to last. A contract sees their list, and where in
/// the text they start.
#[derive(Drop)]
pub struct LineIter<'a> {
    bytes: &'a [u8],
    start: usize,
    number: u32,
}

impl<'a> Model for LineIter<'a> {
    ghost use Rattle.std.specs.Prelude.{ℕ, ◌+◌, ◌≤◌, List, length, drop, map};
    ghost use Rattle.base.specs.declared.limits.TheConstants.{MAX_BYTES};
    ghost use Rattle.base.specs.Lines.{lines_from, trimmed};
    ghost use Rattle.yds_text.specs.Left.{LinesLeft};

    ghost Value = { LinesLeft };

    ghost view = { λ it. record { start = it.start; lines = map trimmed (lines_from it.number it.start (drop it.start it.bytes.now)) } };

    ghost invariant = { λ it. (length it.bytes.now ≤ MAX_BYTES) × (it.start ≤ length it.bytes.now) × (it.number ≤ it.start + 1) };
}

/// The lines of `bytes`, numbered from 1: each ends with a line feed, but a last one may end with the
/// bytes. A carriage return directly before that end isn't part of the line.
pub fn lines<'a>(bytes: &'a [u8]) -> LineIter<'a>
    requires { length bytes.now ≤ MAX_BYTES }
    ensures start { result.start ≡ 0 }
    ensures lines { result.lines ≡ lines_of bytes.now }
    ensures count { length result.lines ≤ length bytes.now }
{
    LineIter {
        bytes,
        start: 0,
        number: 1,
    }
}

impl<'a> Iterator for LineIter<'a> {
    ghost use Rattle.std.specs.Iterator.{item_count};
    ghost use Rattle.yds_text.specs.Read.{GivesLine};

    type Item = Line<'a>;

    ghost next_gives = { GivesLine };

    ghost remaining = { item_count (λ left. left.lines) };

    fn next(&mut self) -> Option<Line<'a>> {
        let rest = &self.bytes[self.start..];
        if rest.is_empty() {
            return None;
        }
        let (text, len) = first_line(rest);
        let line = Line {
            text: trim_return(text),
            number: self.number,
        };
        self.start += len;
        self.number += 1;
        Some(line)
    }
}

impl<'a> FusedIterator for LineIter<'a> {}

/// The bytes of the first line, and how many it takes with its line feed.
fn first_line(bytes: &[u8]) -> (&[u8], usize)
    requires { 0 < length bytes.now }
    ensures first { (number start : ℕ) → lines_from number start bytes.now
        ≡ record { number = number; start = start; text = result.0.now } ∷ lines_from (number + 1) (start + result.1) (drop result.1 bytes.now) }
    ensures some { 0 < result.1 }
    ensures within { result.1 ≤ length bytes.now }
    ensures bounded { length result.0.now ≤ length bytes.now }
{
    match memchr(b'\n', bytes) {
        Some(end) => (&bytes[..end], end + 1),
        None => (bytes, bytes.len()),
    }
}

/// The text without a carriage return at its end.
fn trim_return(text: &[u8]) -> &[u8]
    ensures value { result.now ≡ without_return text.now }
    ensures bounded { length result.now ≤ length text.now }
{
    match text.split_last() {
        Some((last, front)) if *last == b'\r' => front,
        Some(_) | None => text,
    }
}

impl<'a> Line<'a> {
    /// The fields of the line: its longest runs of bytes other than spaces and tabs.
    pub fn fields(&self) -> Fields<'a>
        ensures line { result.line ≡ self.now.number }
        ensures fields { result.fields ≡ fields_of self.now.text.now }
        ensures count { length result.fields ≤ length self.now.text.now }
    {
        Fields::new(self.text, self.number)
    }

    /// Whether the line says nothing: it has no field, or its first one begins with `#`, which makes it a
    /// comment. It looks at no byte beyond that one.
    pub fn is_comment(&self) -> bool
        ensures { result ≡ begins_comment (fields_of self.now.text.now) }
    {
        is_comment(self.text)
    }
}

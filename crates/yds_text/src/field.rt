//! The fields of a line.
ghost use Rattle.std.specs.Prelude.{◌≡◌, ℕ, ◌+◌, ◌<◌, ◌≤◌, ◌↔◌, [], ◌∷◌, length, map, Ok, IfSome, IsTrue};
ghost use Rattle.std.specs.List.{prefix_len, position_or_len};
ghost use Rattle.base.specs.declared.limits.TheConstants.{MAX_BYTES, MAX_WHOLE};
ghost use Rattle.base.specs.Lines.{fields_from, fields_of, is_blank};
ghost use Rattle.yds_model.specs.Reading.{begins_comment};
ghost use Rattle.base.specs.Spelling.{number_at, is_name};
ghost use Rattle.yds_model.specs.Spelling.{fraction_at};
ghost use Rattle.yds_text.specs.Plain.{ReadsText};

use crate::plain::{first_fraction, first_name, first_number};
use std::iter::FusedIterator;
use std::marker::Model;
use yds_fraction::Amount;

/// A field of a line: one of its longest runs of bytes other than spaces and tabs.
#[derive(Clone, Copy, Debug, PartialEq, Eq)]
pub struct Field<'a> {
    /// Its bytes.
    pub text: &'a [u8],
    /// The number of its line, counted from 1.
    pub line: u32,
    /// The place of its first byte in the line, counted from 1 in bytes.
    pub column: u32,
    pub ghost bounded: { length text.now ≤ MAX_BYTES },
    pub ghost within: { column + length text.now ≤ MAX_BYTES + 1 },
}

/// The fields of a line that are left to read, first to last. A contract sees the line's number and
/// their list.
#[derive(Drop)]
pub struct Fields<'a> {
    rest: &'a [u8],
    line: u32,
    column: u32,
}

impl<'a> Model for Fields<'a> {
    ghost use Rattle.std.specs.Prelude.{ℕ, ◌+◌, ◌≤◌, List, length, map};
    ghost use Rattle.base.specs.declared.limits.TheConstants.{MAX_BYTES};
    ghost use Rattle.base.specs.Lines.{fields_from};
    ghost use Rattle.yds_text.specs.Left.{FieldsLeft};

    ghost Value = { FieldsLeft };

    ghost view = { λ it. record { line = it.line; fields = fields_from it.column it.rest.now } };

    ghost invariant = { λ it. (1 ≤ it.column) × (it.column + length it.rest.now ≤ MAX_BYTES + 1) };
}

impl<'a> Fields<'a> {
    /// The fields of a line's text; `line` is its number, from 1.
    pub(crate) fn new(text: &'a [u8], line: u32) -> Fields<'a>
        requires { length text.now ≤ MAX_BYTES }
        ensures line { result.line ≡ line }
        ensures fields { result.fields ≡ fields_of text.now }
        ensures count { length result.fields ≤ length text.now }
    {
        Fields {
            rest: text,
            line,
            column: 1,
        }
    }

    /// The fields that are left, once more, as for a reader that may give up.
    pub fn again(&self) -> Fields<'a>
        ensures { result ≡ self.now }
    {
        Fields {
            rest: self.rest,
            line: self.line,
            column: self.column,
        }
    }

    /// Whether no field of the line is left.
    pub fn at_end(&self) -> bool
        ensures { IsTrue result ↔ self.now.fields ≡ [] }
    {
        // Mostly no byte is left, not even a blank.
        if self.rest.is_empty() {
            return true;
        }
        let (_, text, _) = first_field(self.rest);
        text.is_empty()
    }

    /// The name that the next field is, where just one space stands before the field. `None` tells nothing of the fields,
    /// nor of those that are left then.
    pub fn plain_name(&mut self) -> Option<&'a str>
        ensures says { IfSome result (λ name. ReadsText (λ text. text ≡ name.now) self.old.fields self.new.fields) }
        ensures named { IfSome result (λ name. IsTrue (is_name name.now)) }
    {
        let (name, rest) = first_name(self.rest)?;
        self.column += (self.rest.len() - rest.len()) as u32;
        self.rest = rest;
        Some(name)
    }

    /// The number from `least` to `most` that the next field spells, where just one space stands before the field. `None`
    /// tells nothing, as there.
    pub fn plain_number(&mut self, least: u64, most: u64) -> Option<u64>
        ensures says { IfSome result (λ number. ReadsText (λ text. number_at least most text ≡ Ok number) self.old.fields self.new.fields) }
        ensures within { IfSome result (λ number. (least ≤ number) × (number ≤ most)) }
    {
        let (number, rest) = first_number(self.rest, most)?;
        if number < least {
            return None;
        }
        self.column += (self.rest.len() - rest.len()) as u32;
        self.rest = rest;
        Some(number)
    }

    /// The same of a number of 32 bits.
    pub fn plain_small(&mut self, least: u32, most: u32) -> Option<u32>
        ensures says { IfSome result (λ number. ReadsText (λ text. number_at least most text ≡ Ok number) self.old.fields self.new.fields) }
        ensures within { IfSome result (λ number. (least ≤ number) × (number ≤ most)) }
    {
        let number = self.plain_number(u64::from(least), u64::from(most))?;
        Some(number as u32)
    }

    /// The same of a fraction, whose whole part is at most `most`.
    pub fn plain_fraction(&mut self, most: u64) -> Option<Amount>
        requires { most ≤ MAX_WHOLE }
        ensures { IfSome result (λ value. ReadsText (λ text. fraction_at most text ≡ Ok value) self.old.fields self.new.fields) }
    {
        let (whole, num, den, rest) = first_fraction(self.rest, most)?;
        self.column += (self.rest.len() - rest.len()) as u32;
        self.rest = rest;
        Some(Amount::new(whole, num, den))
    }
}

impl<'a> Iterator for Fields<'a> {
    ghost use Rattle.std.specs.Iterator.{item_count};
    ghost use Rattle.yds_text.specs.Read.{GivesField};

    type Item = Field<'a>;

    ghost next_gives = { GivesField };

    ghost remaining = { item_count (λ left. left.fields) };

    fn next(&mut self) -> Option<Field<'a>> {
        let (blanks, text, rest) = first_field(self.rest);
        let column = self.column + blanks as u32;
        self.rest = rest;
        self.column = column + text.len() as u32;
        if text.is_empty() {
            return None;
        }
        Some(Field {
            text,
            line: self.line,
            column,
        })
    }
}

impl<'a> FusedIterator for Fields<'a> {}

/// How many blanks stand before the first field, its bytes, and what is after it. The field is empty
/// where there is none.
fn first_field(bytes: &[u8]) -> (usize, &[u8], &[u8])
    ensures first { 0 < length result.1.now → (column : ℕ) → fields_from column bytes.now
        ≡ record { column = column + result.0; text = result.1.now } ∷ fields_from (column + result.0 + length result.1.now) result.2.now }
    ensures none { length result.1.now ≡ 0 → (column : ℕ) → fields_from column bytes.now ≡ [] }
    ensures end { length result.1.now ≡ 0 → result.2.now ≡ [] }
    ensures lengths { result.0 + length result.1.now + length result.2.now ≡ length bytes.now }
{
    let (blanks, rest) = bytes.split_at(blank_len(bytes));
    let (text, rest) = rest.split_at(field_len(rest));
    (blanks.len(), text, rest)
}

/// Whether the byte is a space or a tab.
pub(crate) fn is_blank(byte: u8) -> bool
    ensures { result ≡ is_blank byte }
{
    // Few bytes of a line are so small, so one comparison tells most of them.
    byte <= b' ' && (byte == b' ' || byte == b'\t')
}

/// Whether a line of these bytes says nothing: it has no field, or its first one begins with `#`.
pub(crate) fn is_comment(bytes: &[u8]) -> bool
    ensures { result ≡ begins_comment (fields_of bytes.now) }
{
    for byte in bytes {
        if !is_blank(*byte) {
            return *byte == b'#';
        }
    }
    true
}

/// How many blanks stand at the front.
fn blank_len(bytes: &[u8]) -> usize
    ensures value { result ≡ prefix_len is_blank bytes.now }
    ensures within { result ≤ length bytes.now }
{
    for (index, &byte) in bytes.iter().enumerate() {
        if !is_blank(byte) {
            return index;
        }
    }
    bytes.len()
}

/// How many bytes stand before the first blank.
fn field_len(bytes: &[u8]) -> usize
    ensures value { result ≡ position_or_len is_blank bytes.now }
    ensures within { result ≤ length bytes.now }
{
    for (index, &byte) in bytes.iter().enumerate() {
        if is_blank(byte) {
            return index;
        }
    }
    bytes.len()
}

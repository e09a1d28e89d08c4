//! The letters of a list of tasks.
ghost use Rattle.std.specs.Prelude.{◌≡◌, IfOk, MatchOption, true, false};
ghost use Rattle.std.specs.List.{list_any, slice_split, before_first, after_first};
ghost use Rattle.yds_trace_words.specs.Letters as spec;
ghost use Rattle.yds_trace_words.specs.Views.{pieces_read};
ghost use Rattle.yds_trace_words.specs.declared.letter.Sign.TheVariants as signs;

use base::Memory;
use std::alloc::Global;

/// A letter of a list of tasks: a byte of a text, or a sign between texts.
#[derive(Clone, Copy, Debug, PartialEq, Eq)]
pub enum Letter {
    /// A byte of a text.
    Text(u8),
    /// A sign.
    Parting(Sign),
}

/// A sign between texts.
#[derive(Clone, Copy, Debug, PartialEq, Eq)]
pub enum Sign {
    /// Between two tasks.
    Comma,
    /// Before a time.
    Colon,
    /// Between the number of a thread and a name.
    Equals,
}

/// The letters that these bytes spell: behind a backslash a sign, or another backslash, is a byte of a text.
pub(crate) fn letters(alloc: Global, bytes: &[u8]) -> Result<Vec<Letter>, Memory>
    ensures { IfOk result (λ letters. letters.items ≡ spec.letters_of bytes.now) }
{
    let mut letters = Vec::new(alloc);
    let mut rest = bytes;
    while let [first, others @ ..] = rest {
        match others {
            [next, behind @ ..] if *first == b'\\' && is_meant(*next) => {
                letters.push(Letter::Text(*next))?;
                rest = behind;
            }
            [_, ..] | [] => {
                letters.push(letter_of(*first))?;
                rest = others;
            }
        }
    }
    Ok(letters)
}

/// Whether a backslash before it makes it a byte of a text.
fn is_meant(byte: u8) -> bool
    ensures { result ≡ spec.is_meant byte }
{
    is_sign(byte) || byte == b'\\'
}

/// Whether the byte is a comma, a colon or an equals sign.
fn is_sign(byte: u8) -> bool
    ensures { result ≡ spec.is_sign byte }
{
    byte == b',' || byte == b':' || byte == b'='
}

/// The letter of a byte with no backslash before it.
fn letter_of(byte: u8) -> Letter
    ensures { result ≡ spec.letter_of byte }
{
    match byte {
        b',' => Letter::Parting(Sign::Comma),
        b':' => Letter::Parting(Sign::Colon),
        b'=' => Letter::Parting(Sign::Equals),
        _ => Letter::Text(byte),
    }
}

/// The bytes of these letters.
pub(crate) fn text(alloc: Global, letters: &[Letter]) -> Result<Vec<u8>, Memory>
    ensures { IfOk result (λ text. text.items ≡ spec.text_of letters.now) }
{
    let mut text = Vec::with_capacity(alloc, letters.len())?;
    for letter in letters {
        text.push(byte_of(*letter))?;
    }
    Ok(text)
}

fn byte_of(letter: Letter) -> u8
    ensures { result ≡ spec.byte_of letter }
{
    match letter {
        Letter::Text(byte) => byte,
        Letter::Parting(Sign::Comma) => b',',
        Letter::Parting(Sign::Colon) => b':',
        Letter::Parting(Sign::Equals) => b'=',
    }
}

/// What stands before the first such sign, and what behind it, if there is one.
pub(crate) fn split_at(letters: &[Letter], sign: Sign) -> (&[Letter], Option<&[Letter]>)
    ensures before { result.0.now ≡ before_first (spec.is_at sign) letters.now }
    ensures behind { MatchOption result.1 (list_any (spec.is_at sign) letters.now ≡ false)
        (λ behind. (list_any (spec.is_at sign) letters.now ≡ true) × (behind.now ≡ after_first (spec.is_at sign) letters.now)) }
{
    for (index, letter) in letters.iter().enumerate() {
        if is_at(sign, *letter) {
            return (&letters[..index], Some(&letters[index + 1..]));
        }
    }
    (letters, None)
}

/// The letters of each piece between commas.
pub(crate) fn pieces(alloc: Global, letters: &[Letter]) -> Result<Vec<&[Letter]>, Memory>
    ensures { IfOk result (λ pieces. pieces_read pieces ≡ slice_split (spec.is_at signs.Comma) letters.entry.now) }
{
    let mut pieces = Vec::new(alloc);
    let mut rest = letters;
    loop {
        let (piece, behind) = split_at(rest, Sign::Comma);
        pieces.push(piece)?;
        match behind {
            Some(behind) => rest = behind,
            None => return Ok(pieces),
        }
    }
}

/// Whether this sign is among the letters.
pub(crate) fn has(letters: &[Letter], sign: Sign) -> bool
    ensures { result ≡ list_any (spec.is_at sign) letters.now }
{
    split_at(letters, sign).1.is_some()
}

/// Whether the letter is this sign.
fn is_at(sign: Sign, letter: Letter) -> bool
    ensures { result ≡ spec.is_at sign letter }
{
    match (sign, letter) {
        (Sign::Comma, Letter::Parting(Sign::Comma))
        | (Sign::Colon, Letter::Parting(Sign::Colon))
        | (Sign::Equals, Letter::Parting(Sign::Equals)) => true,
        _ => false,
    }
}

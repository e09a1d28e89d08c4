//! The fractions that fields spell.
ghost use Rattle.std.specs.Prelude.{◌≡◌, ℕ, ◌≤◌, List, IfOk};
ghost use Rattle.base.specs.declared.limits.TheConstants.{MAX_DENOMINATOR, MAX_WHOLE};
ghost use Rattle.base.specs.Spelling.{number_at};
ghost use Rattle.yds_model.specs.Spelling.{fraction_at, kept};
ghost use Rattle.yds_text.specs.FractionParts.{fraction_after, fraction_of_parts, is_bad};

use crate::field::Field;
use crate::spelling::{leading_number, number_of};
use yds_fraction::Amount;
use yds_model::NumberFault;
use yds_model::limits::{MAX_DENOMINATOR, MAX_WHOLE};

/// The fraction that the field spells, whose whole part is to be at most `most`: a number, or
/// `WHOLE+NUM/DEN` of three numbers. It is kept as it is written, but one without a numerator is the
/// whole number. Another spelling is a `BadNumber`. `OutOfRange` are a whole part above `most`, a
/// denominator of 0 or above `MAX_DENOMINATOR`, and a numerator that isn't below the denominator.
pub fn mixed(field: Field<'_>, most: u64) -> Result<Amount, NumberFault>
    requires { most ≤ MAX_WHOLE }
    ensures { result ≡ fraction_at most field.entry.text.now }
{
    let text = field.text;
    let (whole, len) = leading_number(text, most);
    if len == text.len() {
        return Ok(Amount::from_whole(whole?));
    }
    if text[len] != b'+' {
        return Err(NumberFault::BadNumber);
    }
    fraction_after(whole, &text[len + 1..])
}

/// The fraction of this whole part and of `NUM/DEN`.
fn fraction_after(whole: Result<u64, NumberFault>, text: &[u8]) -> Result<Amount, NumberFault>
    requires { IfOk whole (λ whole. whole ≤ MAX_WHOLE) }
    ensures { (most : ℕ) (front : List ℕ) → whole ≡ number_at 0 most front → result ≡ fraction_after most front text.now }
{
    let (num, len) = leading_number(text, MAX_DENOMINATOR);
    if len == text.len() {
        return Err(NumberFault::BadNumber);
    }
    if text[len] != b'/' {
        return Err(NumberFault::BadNumber);
    }
    let den = number_of(&text[len + 1..], 0, MAX_DENOMINATOR);
    fraction_of_parts(whole, num, den)
}

/// The fraction of three numbers. A wrong spelling of any of them goes before a number outside its limits.
fn fraction_of_parts(
    whole: Result<u64, NumberFault>,
    num: Result<u64, NumberFault>,
    den: Result<u64, NumberFault>,
) -> Result<Amount, NumberFault>
    requires whole { IfOk whole (λ whole. whole ≤ MAX_WHOLE) }
    requires den { IfOk den (λ den. den ≤ MAX_DENOMINATOR) }
    ensures { (most : ℕ) (front above below : List ℕ) → whole ≡ number_at 0 most front → num ≡ number_at 0 MAX_DENOMINATOR above → den ≡ number_at 0 MAX_DENOMINATOR below
        → result ≡ fraction_of_parts most front above below }
{
    if is_bad(&whole) || is_bad(&num) || is_bad(&den) {
        return Err(NumberFault::BadNumber);
    }
    let whole = whole?;
    let num = num?;
    let den = den?;
    fraction_of(whole, num, den)
}

/// The fraction, where its numerator is below its denominator.
fn fraction_of(whole: u64, num: u64, den: u64) -> Result<Amount, NumberFault>
    requires whole { whole ≤ MAX_WHOLE }
    requires den { den ≤ MAX_DENOMINATOR }
    ensures { (most : ℕ) → whole ≤ most → result ≡ kept most (record { whole = whole; num = num; den = den }) }
{
    if num < den {
        Ok(Amount::new(whole, num, den))
    } else {
        Err(NumberFault::OutOfRange)
    }
}

/// Whether the spelling is wrong.
fn is_bad(number: &Result<u64, NumberFault>) -> bool
    ensures { result ≡ is_bad number.now }
{
    matches!(number, Err(NumberFault::BadNumber))
}

//! Speeds in whole units.
ghost use Rattle.std.specs.Prelude.{◌≡◌, ◌≤◌, ◌+◌, ◌-◌, ◌*◌, ◌/◌, ◌==◌, ◌||◌, nat_lt};

/// A number in units, to the nearest one; a half is rounded up.
pub(crate) fn nearest(number: u64, unit: u64) -> u64
    requires { 1 ≤ unit }
    ensures { result ≡ (2 * number + unit) / (2 * unit) }
{
    let rest = number % unit;
    if rest >= unit - rest {
        number / unit + 1
    } else {
        number / unit
    }
}

/// Whether the nearest unit is 0, or by more than a twentieth of the number off.
pub(crate) fn is_far(number: u64, unit: u64) -> bool
    requires { 1 ≤ unit }
    ensures { result ≡ ((2 * number + unit) / (2 * unit) == 0)
        || nat_lt number (20 * ((2 * number + unit) / (2 * unit) * unit - number))
        || nat_lt number (20 * (number - (2 * number + unit) / (2 * unit) * unit)) }
{
    let off = distance(number, unit);
    nearest(number, unit) == 0 || is_above(number, off)
}

/// How far a number is from the nearest whole number of units.
fn distance(number: u64, unit: u64) -> u64
    requires { 1 ≤ unit }
    ensures { result ≡ ((2 * number + unit) / (2 * unit) * unit - number) + (number - (2 * number + unit) / (2 * unit) * unit) }
{
    let rest = number % unit;
    if rest >= unit - rest {
        unit - rest
    } else {
        rest
    }
}

/// Whether twenty times the distance is above the number.
fn is_above(number: u64, off: u64) -> bool
    ensures { result ≡ nat_lt number (20 * off) }
{
    match off.checked_mul(20) {
        Some(twenty) => number < twenty,
        None => true,
    }
}

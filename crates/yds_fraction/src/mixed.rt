ghost use Rattle.std.specs.Prelude.{◌≡◌, ◌+◌, ◌<◌, ◌*◌, ◌≤◌, ◌/◌, ◌%◌, ◌^◌, ◌↔◌, IsTrue, Some, refl};
ghost use Rattle.std.specs.Int.{◌∣◌, IsGcd};
ghost use Rattle.std.specs.Cmp.{partial_equiv_from_equiv};
ghost use Rattle.std.specs.Ordering.{MatchOrdering};
ghost use Rattle.yds_model.specs.Scale.{of_whole, of_parts, at_scale, AreAlike, IsLess, IsSame};
ghost use Rattle.yds_model.specs.Text.{fraction_text};
ghost use Rattle.yds_fraction.specs.ValueOrder.{fraction_cmp, fraction_same};
ghost use Rattle.yds_fraction.specs.OrderLaws.{fraction_total, fraction_equivalence, fraction_order};
ghost use Rattle.yds_fraction.specs.Mixed.{
  IsLimit,
  IsMixed,
  fraction_of,
  AtScales,
  AtScalesWith,
  CanAdd,
  Adds,
  CanSubtract,
  Subtracts,
  CanMultiply,
  Multiplies,
};

use crate::divisors::gcd;
use std::cmp::Ordering;
use std::fmt;
use std::marker::Model;
use std::ops::{Add, Mul, Sub};
use yds_model::limits::{MAX_DENOMINATOR, MAX_WHOLE};

/// A written fraction `whole+num/den`: `whole` is at most `MAX_WHOLE`, `num` is below `den`, `den` is from 1 to `D`,
/// and a whole number has the denominator 1. It isn't reduced.
///
/// Equality and order are those of the values.
#[derive(Clone, Copy, Debug)]
pub struct Mixed<const D: u64> {
    whole: u64,
    num: u64,
    den: u64,
}

/// A time, in time units.
pub type Moment = Mixed<MAX_DENOMINATOR>;

/// An amount of work, in units of work.
pub type Amount = Moment;

impl<const D: u64> Model for Mixed<D> {
    ghost use Rattle.yds_model.specs.Scale.{Fraction};
    ghost use Rattle.yds_fraction.specs.Mixed.{IsMixed};

    ghost Value = { Fraction };

    ghost view = { λ m. record { whole = m.whole; num = m.num; den = m.den } };

    ghost invariant = { λ m. IsMixed D (record { whole = m.whole; num = m.num; den = m.den }) };

    ghost inverse = { λ x. record { whole = x.whole; num = x.num; den = x.den } };
}

/// The quotient and the rest, with one division, of 64 bits where the parts are so few.
fn divided(parts: u128, den: u64) -> (u64, u64)
    requires some { 1 ≤ den }
    requires in_range { parts / den < 2 ^ 64 }
    ensures quotient { result.0 ≡ parts / den }
    ensures rest { result.1 ≡ parts % den }
{
    if let Ok(parts) = u64::try_from(parts) {
        return (parts / den, parts % den);
    }
    let whole = parts / u128::from(den);
    (whole as u64, (parts - whole * u128::from(den)) as u64)
}

/// The same of less than two wholes, without a division.
fn carried(parts: u64, den: u64) -> (u64, u64)
    requires { parts < 2 * den }
    ensures quotient { result.0 ≡ parts / den }
    ensures rest { result.1 ≡ parts % den }
{
    if parts < den {
        (0, parts)
    } else {
        (1, parts - den)
    }
}

impl<const D: u64> Mixed<D> {
    /// The whole number.
    pub fn from_whole(whole: u64) -> Self
        requires limit { IsLimit D }
        requires whole_in_range { whole ≤ MAX_WHOLE }
        ensures value { result ≡ of_whole whole }
        ensures kept { IsMixed D result }
    {
        Mixed {
            whole,
            num: 0,
            den: 1,
        }
    }

    /// The fraction `whole+num/den`. Where `num` is 0 its denominator becomes 1; it isn't reduced otherwise.
    pub fn new(whole: u64, num: u64, den: u64) -> Self
        requires limit { IsLimit D }
        requires whole_in_range { whole ≤ MAX_WHOLE }
        requires below_one { num < den }
        requires den_in_range { den ≤ D }
        ensures value { result ≡ fraction_of whole num den }
        ensures kept { IsMixed D result }
    {
        Mixed {
            whole,
            num,
            den: if num == 0 { 1 } else { den },
        }
    }

    /// So many parts, of which `den` make one: whole where no part is left over.
    pub fn of_parts(parts: u128, den: u64) -> Self
        requires limit { IsLimit D }
        requires some { 1 ≤ den }
        requires den_in_range { den ≤ D }
        requires whole_in_range { parts / den ≤ MAX_WHOLE }
        ensures value { result ≡ of_parts parts den }
        ensures whole { result.whole ≡ parts / den }
        ensures kept { IsMixed D result }
    {
        Mixed::with_parts(0, parts, den)
    }

    /// The whole number and so many parts more, of which `den` make one.
    pub fn with_parts(whole: u64, parts: u128, den: u64) -> Self
        requires limit { IsLimit D }
        requires some { 1 ≤ den }
        requires den_in_range { den ≤ D }
        requires whole_in_range { whole + parts / den ≤ MAX_WHOLE }
        ensures value { result ≡ of_parts (whole * den + parts) den }
        ensures whole { result.whole ≡ whole + parts / den }
        ensures kept { IsMixed D result }
    {
        let (more, num) = divided(parts, den);
        Mixed::new(whole + more, num, den)
    }

    /// The whole part.
    pub fn whole(self) -> u64
        ensures value { result ≡ self.entry.whole }
        ensures kept { IsMixed D self.entry }
    {
        self.whole
    }

    /// The numerator of the part below one.
    pub fn num(self) -> u64
        ensures value { result ≡ self.entry.num }
        ensures kept { IsMixed D self.entry }
    {
        self.num
    }

    /// The denominator.
    pub fn den(self) -> u64
        ensures value { result ≡ self.entry.den }
        ensures kept { IsMixed D self.entry }
    {
        self.den
    }

    /// Whether the two can be added and subtracted: their denominators are equal, or one of them is 1.
    pub fn alike(self, other: Self) -> bool
        ensures { IsTrue result ↔ AreAlike self.entry other.entry }
    {
        self.den == other.den || self.den == 1 || other.den == 1
    }

    /// The same value in lowest terms.
    pub fn reduced(self) -> Self
        ensures same { IsSame self.entry result }
        ensures at_scales { AtScalesWith self.entry self.entry result
            (λ scale. at_scale scale result ≡ at_scale scale self.entry) }
        ensures lowest { IsGcd result.num result.den 1 }
        ensures whole { result.whole ≡ self.entry.whole }
        ensures parts { result.den ∣ self.entry.den }
        ensures kept { IsMixed D result }
    {
        let divisor = gcd(self.num, self.den);
        Mixed {
            whole: self.whole,
            num: self.num / divisor,
            den: self.den / divisor,
        }
    }
}

impl<const D: u64> PartialEq for Mixed<D> {
    ghost eq = { fraction_same };

    ghost laws = { partial_equiv_from_equiv fraction_equivalence };

    fn eq(&self, other: &Self) -> bool
        ensures test { result ≡ fraction_same self.now other.now }
        ensures same { IsTrue result ↔ IsSame self.now other.now }
        ensures at_scales { AtScales self.now other.now
            (λ scale. IsTrue result ↔ (at_scale scale self.now ≡ at_scale scale other.now)) }
    {
        self.cmp(other).is_eq()
    }
}

impl<const D: u64> Eq for Mixed<D> {
    ghost laws = { fraction_equivalence };
}

impl<const D: u64> PartialOrd for Mixed<D> {
    ghost partial_cmp = { λ x y. Some (fraction_cmp x y) };

    ghost laws = { fraction_order };

    fn partial_cmp(&self, other: &Self) -> Option<Ordering> {
        Some(self.cmp(other))
    }
}

impl<const D: u64> Ord for Mixed<D> {
    ghost cmp = { fraction_cmp };

    ghost total = { fraction_total };

    ghost matches_partial_cmp = { λ _ _. refl };

    ghost matches_eq = { λ _ _. refl };

    fn cmp(&self, other: &Self) -> Ordering
        ensures test { result ≡ fraction_cmp self.now other.now }
        ensures order { MatchOrdering result
            (IsLess self.now other.now)
            (IsSame self.now other.now)
            (IsLess other.now self.now) }
        ensures at_scales { AtScales self.now other.now (λ scale. MatchOrdering result
            (at_scale scale self.now < at_scale scale other.now)
            (at_scale scale self.now ≡ at_scale scale other.now)
            (at_scale scale other.now < at_scale scale self.now)) }
    {
        let left = u128::from(self.num) * u128::from(other.den);
        let right = u128::from(other.num) * u128::from(self.den);
        self.whole.cmp(&other.whole).then(left.cmp(&right))
    }
}

/// The exact sum, in the greater of the two denominators, or whole.
impl<const D: u64> Add for Mixed<D> {
    type Output = Mixed<D>;

    ghost can_add = { CanAdd };

    ghost add_gives = { Adds D };

    fn add(self, other: Mixed<D>) -> Mixed<D> {
        let den = self.den.max(other.den);
        let (carry, num) = carried(self.num + other.num, den);
        Mixed::new(self.whole + other.whole + carry, num, den)
    }
}

/// The exact difference, in the greater of the two denominators, or whole.
impl<const D: u64> Sub for Mixed<D> {
    type Output = Mixed<D>;

    ghost can_sub = { CanSubtract };

    ghost sub_gives = { Subtracts D };

    fn sub(self, other: Mixed<D>) -> Mixed<D> {
        let den = self.den.max(other.den);
        if other.num <= self.num {
            Mixed::new(self.whole - other.whole, self.num - other.num, den)
        } else {
            Mixed::new(
                self.whole - other.whole - 1,
                self.num + den - other.num,
                den,
            )
        }
    }
}

/// The exact product, in the same denominator, or whole.
impl<const D: u64> Mul<u32> for Mixed<D> {
    type Output = Mixed<D>;

    ghost can_mul = { CanMultiply };

    ghost mul_gives = { Multiplies D };

    fn mul(self, factor: u32) -> Mixed<D> {
        let parts = u128::from(factor) * u128::from(self.num);
        let (more, num) = divided(parts, self.den);
        Mixed::new(u64::from(factor) * self.whole + more, num, self.den)
    }
}

/// As it is written: `whole`, or `whole+num/den` where `num` isn't 0.
impl<const D: u64> fmt::Display for Mixed<D> {
    ghost output = { λ x. Some (fraction_text x) };

    fn fmt<W: fmt::Write>(&self, f: &mut fmt::Formatter<W>) -> fmt::Result {
        if self.num == 0 {
            write!(f, "{}", self.whole)
        } else {
            write!(f, "{}+{}/{}", self.whole, self.num, self.den)
        }
    }
}

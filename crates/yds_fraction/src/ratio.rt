ghost use Rattle.std.specs.Prelude.{◌≡◌, ◌+◌, ◌≤◌, ◌↔◌, IsTrue, Some, refl};
ghost use Rattle.std.specs.Int.{IsGcd};
ghost use Rattle.std.specs.Cmp.{partial_equiv_from_equiv};
ghost use Rattle.std.specs.Ordering.{MatchOrdering};
ghost use Rattle.yds_model.specs.Scale.{Quotient, IsLessQuotient, IsSameQuotient};
ghost use Rattle.yds_fraction.specs.Text.{quotient_text};
ghost use Rattle.yds_fraction.specs.ValueOrder.{quotient_cmp, quotient_same};
ghost use Rattle.yds_fraction.specs.Ratio.{AreBounds, IsRatio, mediant_of};
ghost use Rattle.yds_fraction.specs.OrderLaws.{quotient_total, quotient_equivalence, quotient_order};

use crate::divisors::gcd;
use std::cmp::Ordering;
use std::fmt;
use std::marker::Model;
use yds_model::limits::{MAX_LEVEL_LENGTH, MAX_LEVEL_WORK};

/// A quotient `num/den` with `num` at most `N` and `den` from 1 to `D`. It isn't reduced.
///
/// Equality and order are those of the values.
#[derive(Clone, Copy, Debug)]
pub struct Ratio<const N: u64, const D: u64> {
    num: u64,
    den: u64,
}

/// A speed, in work per time unit: a level's work over its length.
pub type Speed = Ratio<MAX_LEVEL_WORK, MAX_LEVEL_LENGTH>;

impl<const N: u64, const D: u64> Model for Ratio<N, D> {
    ghost use Rattle.yds_model.specs.Scale.{Quotient};
    ghost use Rattle.yds_fraction.specs.Ratio.{IsRatio};

    ghost Value = { Quotient };

    ghost view = { λ r. record { num = r.num; den = r.den } };

    ghost invariant = { λ r. IsRatio N D (record { num = r.num; den = r.den }) };

    ghost inverse = { λ q. record { num = q.num; den = q.den } };
}

impl<const N: u64, const D: u64> Ratio<N, D> {
    /// The quotient of these two numbers.
    pub fn new(num: u64, den: u64) -> Self
        requires bounds { AreBounds N D }
        requires num_in_range { num ≤ N }
        requires has_parts { 1 ≤ den }
        requires den_in_range { den ≤ D }
        ensures value { result ≡ record { num = num; den = den } }
        ensures kept { IsRatio N D result }
    {
        Ratio { num, den }
    }

    /// The numerator.
    pub fn num(self) -> u64
        ensures value { result ≡ self.entry.num }
        ensures kept { IsRatio N D self.entry }
    {
        self.num
    }

    /// The denominator.
    pub fn den(self) -> u64
        ensures value { result ≡ self.entry.den }
        ensures kept { IsRatio N D self.entry }
    {
        self.den
    }

    /// The same value in lowest terms. That of 0 is `0/1`.
    pub fn reduced(self) -> Self
        ensures same { IsSameQuotient self.entry result }
        ensures lowest { IsGcd result.num result.den 1 }
        ensures kept { IsRatio N D result }
    {
        let divisor = gcd(self.num, self.den);
        Ratio {
            num: self.num / divisor,
            den: self.den / divisor,
        }
    }

    /// The numerators added over the denominators added.
    pub fn mediant(self, other: Self) -> Self
        requires num_in_range { self.num + other.num ≤ N }
        requires den_in_range { self.den + other.den ≤ D }
        ensures value { result ≡ mediant_of self.entry other.entry }
        ensures kept { IsRatio N D result }
    {
        Ratio {
            num: self.num + other.num,
            den: self.den + other.den,
        }
    }
}

impl<const N: u64, const D: u64> PartialEq for Ratio<N, D> {
    ghost eq = { quotient_same };

    ghost laws = { partial_equiv_from_equiv quotient_equivalence };

    fn eq(&self, other: &Self) -> bool
        ensures test { result ≡ quotient_same self.now other.now }
        ensures same { IsTrue result ↔ IsSameQuotient self.now other.now }
    {
        u128::from(self.num) * u128::from(other.den) == u128::from(other.num) * u128::from(self.den)
    }
}

impl<const N: u64, const D: u64> Eq for Ratio<N, D> {
    ghost laws = { quotient_equivalence };
}

impl<const N: u64, const D: u64> PartialOrd for Ratio<N, D> {
    ghost partial_cmp = { λ x y. Some (quotient_cmp x y) };

    ghost laws = { quotient_order };

    fn partial_cmp(&self, other: &Self) -> Option<Ordering> {
        Some(self.cmp(other))
    }
}

impl<const N: u64, const D: u64> Ord for Ratio<N, D> {
    ghost cmp = { quotient_cmp };

    ghost total = { quotient_total };

    ghost matches_partial_cmp = { λ _ _. refl };

    ghost matches_eq = { λ _ _. refl };

    fn cmp(&self, other: &Self) -> Ordering
        ensures test { result ≡ quotient_cmp self.now other.now }
        ensures order { MatchOrdering result
            (IsLessQuotient self.now other.now)
            (IsSameQuotient self.now other.now)
            (IsLessQuotient other.now self.now) }
    {
        let left = u128::from(self.num) * u128::from(other.den);
        let right = u128::from(other.num) * u128::from(self.den);
        left.cmp(&right)
    }
}

/// As it is written: `num/den`.
impl<const N: u64, const D: u64> fmt::Display for Ratio<N, D> {
    ghost output = { λ x. Some (quotient_text x) };

    fn fmt<W: fmt::Write>(&self, f: &mut fmt::Formatter<W>) -> fmt::Result {
        write!(f, "{}/{}", self.num, self.den)
    }
}

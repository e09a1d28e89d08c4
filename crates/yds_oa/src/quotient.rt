ghost use Rattle.std.specs.Prelude.{◌≡◌, ◌*◌, ◌≤◌, ◌⊎◌, ◌↔◌, IsTrue};

/// Units by time units.
#[derive(Clone, Copy, Debug)]
pub(crate) struct Quotient {
    /// The units, at most `MAX_UNITS` of `yds_timetable`.
    pub(crate) units: u64,
    /// The time units, at least 1.
    pub(crate) time: u32,
    /// The place of the deadline that has it.
    pub(crate) place: usize,
}

impl Quotient {
    /// The greater of the two, by cross products.
    pub(crate) fn max(self, other: Quotient) -> Quotient
        requires one { 1 ≤ self.time }
        requires another { 1 ≤ other.time }
        ensures either { (result ≡ self) ⊎ (result ≡ other) }
        ensures first { self.units * result.time ≤ result.units * self.time }
        ensures second { other.units * result.time ≤ result.units * other.time }
    {
        if other.is_at_most(self) { self } else { other }
    }

    /// Whether it isn't greater than the other, by cross products.
    pub(crate) fn is_at_most(self, other: Quotient) -> bool
        ensures { IsTrue result ↔ (self.units * other.time ≤ other.units * self.time) }
    {
        let left = u128::from(self.units) * u128::from(other.time);
        let right = u128::from(other.units) * u128::from(self.time);
        left <= right
    }
}

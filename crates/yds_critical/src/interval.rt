ghost use Rattle.std.specs.Prelude.{◌≡◌, ◌<◌, ◌-◌, ◌*◌, ◌↔◌, IsTrue};
ghost use Rattle.yds_critical.specs.Leading.{Leads, IsAsDense};

/// An interval of time, with the work that is confined to it.
#[derive(Clone, Copy, Debug, PartialEq, Eq)]
pub struct Interval {
    /// Where it begins, in time units.
    pub start: u32,
    /// Where it ends, in time units.
    pub end: u32,
    /// The work of the jobs whose windows lie in it, in units of work.
    pub work: u64,
}

impl Interval {
    ghost use Rattle.std.specs.Prelude.{◌<◌, ◌↔◌, IsTrue};
    ghost use Rattle.yds_critical.specs.Leading.{Leads};

    /// How long it is, in time units.
    fn length(&self) -> u64
        requires { self.now.start < self.now.end }
        ensures { result ≡ self.now.end - self.now.start }
    {
        u64::from(self.end - self.start)
    }

    /// Whether it goes before the other one: its intensity is greater, or it is the same and it begins earlier, or at the same
    /// time and doesn't end earlier. Intensities are compared by cross products.
    pub(crate) fn leads(&self, other: &Interval) -> bool
        requires forward { self.now.start < self.now.end }
        requires other_forward { other.now.start < other.now.end }
        ensures { IsTrue result ↔ Leads self.now other.now }
    {
        let own = u128::from(self.work) * u128::from(other.length());
        let others = u128::from(other.work) * u128::from(self.length());
        others < own
            || (others == own
                && (self.start < other.start
                    || (self.start == other.start && other.end <= self.end)))
    }
}

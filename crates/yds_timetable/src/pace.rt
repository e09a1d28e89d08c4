ghost use Rattle.std.specs.Prelude.{◌≡◌, ◌+◌, ◌*◌, ◌≤◌, MatchOption};
ghost use Rattle.base.specs.declared.limits.TheConstants.{MAX_DENOMINATOR, MAX_SLOT_WORK, MAX_TIME};
ghost use Rattle.yds_model.specs.Scale.{of_parts};
ghost use Rattle.yds_model.specs.Within.{IsFraction};
ghost use Rattle.yds_events.specs.Stretch.{IsStretch};
ghost use Rattle.yds_timetable.specs.Pace.{lowest_pace, time_after};

use yds_events::Stretch;
use yds_fraction::{Amount, Moment, gcd};
use yds_model::limits::{MAX_DENOMINATOR, MAX_SLOT_WORK, MAX_TIME};

/// How fast a stretch runs: `units` units are done in `time` time units, and a unit of work has `grain` units.
#[derive(Clone, Copy, Debug, PartialEq, Eq)]
pub struct Pace {
    /// So many units are done,
    pub units: u64,
    /// in so many time units.
    pub time: u64,
    /// The number of units in a unit of work.
    pub grain: u64,
}

impl Pace {
    /// The pace at which so many units fill the stretch, with units and time in lowest terms, or None where there are no units.
    pub fn filling(units: u64, stretch: Stretch, grain: u64) -> Option<Pace>
        ensures pace { MatchOption result (units ≡ 0) (λ pace. (1 ≤ units) × (pace ≡ lowest_pace units stretch grain)) }
        ensures kept { IsStretch stretch }
    {
        let length = u64::from(stretch.length());
        if units == 0 {
            return None;
        }
        let divisor = gcd(units, length);
        Some(Pace {
            units: units / divisor,
            time: length / divisor,
            grain,
        })
    }

    /// The time at which so many units are done, of which the first begins at `start`.
    pub(crate) fn time_after(self, start: u32, done: u64) -> Moment
        requires some { 1 ≤ self.units }
        requires in_range { self.units ≤ MAX_DENOMINATOR }
        requires ends { start * self.units + done * self.time ≤ MAX_TIME * self.units }
        ensures value { result ≡ time_after self start done }
        ensures kept { IsFraction MAX_TIME result }
    {
        let through = u128::from(done) * u128::from(self.time);
        Moment::with_parts(u64::from(start), through, self.units)
    }

    /// The work that so many units are.
    pub(crate) fn work_of(self, units: u64) -> Amount
        requires some { 1 ≤ self.grain }
        requires in_range { self.grain ≤ MAX_DENOMINATOR }
        requires few { units ≤ self.grain * MAX_SLOT_WORK }
        ensures value { result ≡ of_parts units self.grain }
        ensures kept { IsFraction MAX_SLOT_WORK result }
    {
        Amount::new(units / self.grain, units % self.grain, self.grain)
    }
}

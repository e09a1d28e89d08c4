ghost use Rattle.std.specs.Prelude.{◌+◌, ◌*◌, ◌<◌};
ghost use Rattle.yds_round.specs.Split.{IsSplitOf};

use crate::part::Part;
use yds_certificate::Level;
use yds_fraction::gcd;
use yds_hull::Point;

/// How the stretches of a level are split whose speed lies between those of two points: first so long at the faster point
/// and then at the slower as gives the level's speed.
#[derive(Clone, Copy, Debug)]
pub(crate) struct Split {
    /// The denominator of the level's speed in lowest terms: its works are in parts of `1/den`.
    pub den: u64,
    /// What the level does above the slower point's speed in a time unit, in parts of `1/den`.
    pub surplus: u64,
    /// The slower point's speed, in work per time unit.
    pub low: u64,
    /// The faster point's speed, in work per time unit.
    pub high: u64,
    /// The difference of the two speeds.
    pub gap: u64,
    /// The part at the faster point.
    pub fast: Part,
    /// The part at the slower point, of no use where that is the idle one.
    pub slow: Part,
}

impl Split {
    /// The split of the level between these points.
    pub(crate) fn of(level: &Level, low: Point, high: Point) -> Split
        requires above_low { low.speed * level.now.length < level.now.work }
        requires below_high { level.now.work < high.speed * level.now.length }
        ensures { IsSplitOf level.now low high result }
    {
        let divisor = gcd(level.work, level.length);
        let den = level.length / divisor;
        let (low, high) = (u64::from(low.speed), u64::from(high.speed));
        let gap = high - low;
        Split {
            den,
            surplus: level.work / divisor - low * den,
            low,
            high,
            gap,
            fast: Part::of(den, gap, high),
            slow: Part::of(den, gap, low.max(1)),
        }
    }
}

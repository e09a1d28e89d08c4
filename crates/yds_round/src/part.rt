ghost use Rattle.std.specs.Prelude.{◌≤◌};
ghost use Rattle.base.specs.declared.limits.TheConstants.{MAX_LEVEL_LENGTH, MAX_POINT_SPEED};
ghost use Rattle.yds_round.specs.Part.{IsPart};

use yds_fraction::gcd;
use yds_model::limits::{MAX_LEVEL_LENGTH, MAX_POINT_SPEED};

/// In what numbers a part of a stretch is written that runs at one of the two points around a level's speed.
///
/// In lowest terms the level's speed has the denominator `L`. The two points' speeds differ by `g`, and this point has the
/// speed `f`, of which `m` is the least common multiple with `g`.
#[derive(Clone, Copy, Debug)]
pub(crate) struct Part {
    /// Times have this denominator, `L * m`.
    pub den: u64,
    /// So many parts of `1/den` does `1/L` of a unit of work take: `m / f`.
    pub step: u64,
    /// So many parts of `1/den` are `1/(L * g)` of a time unit: `m / g`.
    pub switch: u64,
}

impl Part {
    /// The numbers of a part at this speed, in work per time unit.
    pub(crate) fn of(den: u64, gap: u64, speed: u64) -> Part
        requires some_den { 1 ≤ den }
        requires den_in_range { den ≤ MAX_LEVEL_LENGTH }
        requires some_gap { 1 ≤ gap }
        requires gap_in_range { gap ≤ MAX_POINT_SPEED }
        requires some_speed { 1 ≤ speed }
        requires speed_in_range { speed ≤ MAX_POINT_SPEED }
        ensures { IsPart den gap speed result }
    {
        let divisor = gcd(speed, gap);
        let switch = speed / divisor;
        Part {
            den: den * (switch * gap),
            step: gap / divisor,
            switch,
        }
    }
}

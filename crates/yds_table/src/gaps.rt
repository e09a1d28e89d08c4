ghost use Rattle.std.specs.Prelude.{◌≡◌, ◌<◌, ◌≤◌, MatchOption};
ghost use Rattle.yds_model.specs.Divisor.{multiple_of_all};
ghost use Rattle.yds_model.specs.Table.{AreRising, gaps_of};
ghost use Rattle.yds_table.specs.Gaps.{IsMultipleOf};

use yds_fraction::lcm_within;
use yds_hull::Point;
use yds_model::limits::MAX_GAPS;

/// The least common multiple of the gaps between the speeds of neighbours, 1 for one point, or None where it is
/// above `MAX_GAPS`.
pub(crate) fn multiple_of_gaps(points: &[Point]) -> Option<u64>
    requires { AreRising points.now }
    ensures { MatchOption result (MAX_GAPS < multiple_of_all (gaps_of points.now)) (IsMultipleOf points.now) }
{
    let [low, rest @ ..] = points else {
        return Some(1);
    };
    let [high, ..] = rest else {
        return Some(1);
    };
    let gap = u64::from(high.speed - low.speed);
    lcm_within(gap, multiple_of_gaps(rest)?, MAX_GAPS)
}

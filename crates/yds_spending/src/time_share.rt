ghost use Rattle.std.specs.Prelude.{◌≡◌, ◌+◌, ◌-◌, ◌*◌, ◌<◌, ◌≤◌, length, MatchOption, IfSome};
ghost use Rattle.std.specs.List.{All};
ghost use Rattle.std.specs.Int.{◌∣◌};
ghost use Rattle.base.specs.declared.limits.TheConstants.{MAX_GAPS, MAX_POINTS};
ghost use Rattle.yds_model.specs.Table.{hull_of, hull_multiple};
ghost use Rattle.yds_model.specs.Rounding.{top_of};
ghost use Rattle.yds_spending.specs.Load.{IsHeldAt};
ghost use Rattle.yds_spending.specs.TimeShare.{time_share_at, IsShareOf, IsShareBetween, IsBelow, IsFirstHolding};

use crate::load::Load;
use yds_hull::Point;
use yds_table::Table;

/// How long a load runs at the points of a hull: at most at two, in parts of the common multiple of the hull's gaps.
#[derive(Clone, Copy, Debug)]
pub(crate) struct TimeShare {
    /// The slower point's speed, in work per time unit.
    pub low: u32,
    /// The faster point's speed, in work per time unit.
    pub high: u32,
    /// The time at the slower point.
    pub slow: u128,
    /// The time at the faster point.
    pub fast: u128,
}

/// The place of the first point that is fast enough for the load.
fn first_holding(points: &[Point], load: Load) -> Option<usize>
    ensures { MatchOption result (All (IsBelow load) points.now) (IsFirstHolding points.now load) }
{
    for (place, point) in points.iter().enumerate() {
        if u128::from(load.work) <= u128::from(point.speed) * u128::from(load.time) {
            return Some(place);
        }
    }
    None
}

/// How long a load runs at each of two points around its speed.
fn between(low: Point, high: Point, load: Load, multiple: u64) -> TimeShare
    requires gap { low.speed < high.speed }
    requires divides { high.speed - low.speed ∣ multiple }
    requires above_low { low.speed * load.time ≤ load.work }
    requires below_high { load.work ≤ high.speed * load.time }
    ensures { IsShareBetween multiple load low high result }
{
    let gap = u64::from(high.speed - low.speed);
    let surplus = u128::from(load.work) - u128::from(low.speed) * u128::from(load.time);
    let fast = surplus * u128::from(multiple / gap);
    TimeShare {
        low: low.speed,
        high: high.speed,
        slow: u128::from(load.time) * u128::from(multiple) - fast,
        fast,
    }
}

impl TimeShare {
    /// That of this load, which the table's last point is fast enough for.
    pub(crate) fn of(load: Load, table: &Table) -> TimeShare
        requires { IsHeldAt (top_of table.now) load }
        ensures { IsShareOf (hull_multiple table.now) (hull_of table.now) load result }
    {
        let hull = table.hull();
        // Reading the points shows that the first one is idle.
        let _points = table.points();
        let multiple = table.gaps();
        let Some(place) = first_holding(hull, load) else {
            unreachable!()
        };
        if place == 0 {
            let idle = hull[0];
            return TimeShare {
                low: idle.speed,
                high: idle.speed,
                slow: 0,
                fast: u128::from(load.time) * u128::from(multiple),
            };
        }
        between(hull[place - 1], hull[place], load, multiple)
    }

    /// The time at the point of this speed, 0 where it is neither of the two.
    pub(crate) fn at(&self, speed: u32) -> u128
        ensures { result ≡ time_share_at self.now speed }
    {
        if speed == self.high {
            self.fast
        } else if speed == self.low {
            self.slow
        } else {
            0
        }
    }
}

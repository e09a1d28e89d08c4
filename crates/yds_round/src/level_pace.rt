ghost use Rattle.yds_model.specs.Rounding.{IsTooFast};
ghost use Rattle.yds_round.specs.LevelPace.{RunsAs};

use crate::split::Split;
use yds_certificate::Level;
use yds_table::Table;

/// How the stretches of a level, which the table's last point is fast enough for, are split between two points of the hull.
/// None where a point of the hull has its speed and the plan's slots are kept.
pub(crate) fn pace_of(level: &Level, table: &Table) -> Option<Split>
    requires { ¬ (IsTooFast table.now level.now) }
    ensures { RunsAs table.now level.now result }
{
    let Some((low, high)) = table.around(level.speed()) else {
        unreachable!()
    };
    if low.speed == high.speed {
        return None;
    }
    Some(Split::of(level, *low, *high))
}

ghost use Rattle.std.specs.Prelude.{MatchBool};
ghost use Rattle.yds_model.specs.Scale.{IsLess, IsAtMost};

use crate::mixed::Moment;

/// Whether the one time is before the other.
pub fn is_before(time: Moment, other: Moment) -> bool
    ensures { MatchBool result (IsLess time other) (IsAtMost other time) }
{
    time < other
}

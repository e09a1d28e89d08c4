ghost use Rattle.std.specs.Prelude.{◌≡◌, ◌≤◌, ◌↔◌, IsTrue, option_map, Option};
ghost use Rattle.std.specs.List.{All, Any};
ghost use Rattle.base.specs.declared.limits.TheConstants.{MAX_POINT_SPEED};
ghost use Rattle.yds_model.specs.Scale.{IsLess};
ghost use Rattle.yds_model.specs.Audit.{RunsAt, IsOnTable};
ghost use Rattle.yds_model.specs.Within.{IsSlot, IsPoint};

use yds_hull::Point;
use yds_slots::Slot;

/// Whether the slot runs at this speed, in work per time unit.
fn runs_at(slot: &Slot, speed: u32) -> bool
    requires within { speed ≤ MAX_POINT_SPEED }
    requires forward { IsLess slot.now.from slot.now.to }
    ensures { IsTrue result ↔ RunsAt speed slot.now }
{
    slot.work == (slot.to - slot.from) * speed
}

/// Whether the slot runs at the speed of one of these points.
pub(crate) fn is_on_point(slot: &Slot, points: &[Point]) -> bool
    requires forward { IsLess slot.now.from slot.now.to }
    ensures { IsTrue result ↔ Any (λ point. RunsAt point.speed slot.now) points.now }
{
    points.iter().any(|point| runs_at(slot, point.speed))
}

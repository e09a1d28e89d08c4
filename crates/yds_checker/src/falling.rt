ghost use Rattle.std.specs.Prelude.{◌≡◌, ◌<◌, ◌≤◌, ◌↔◌, IsTrue, length, MatchOption};
ghost use Rattle.base.specs.declared.limits.TheConstants.{MAX_LEVELS};
ghost use Rattle.base.specs.Numbers.{Each};
ghost use Rattle.yds_model.specs.Proper.{IsNotFaster};
ghost use Rattle.base.specs.Numbers.{IsFirstFailure};

use yds_certificate::Level;

/// Whether the level isn't faster than the one before it.
fn is_not_faster(levels: &[Level], i: usize) -> bool
    requires { i < length levels.now }
    ensures { IsTrue result ↔ IsNotFaster levels.now i }
{
    if i == 0 {
        return true;
    }
    let before = &levels[i - 1];
    let level = &levels[i];
    level.work * before.length <= before.work * level.length
}

/// The first level that is faster than the one before it, if there is one.
pub(crate) fn first_faster(levels: &[Level]) -> Option<u32>
    requires { length levels.now ≤ MAX_LEVELS }
    ensures { MatchOption result
        (Each (length levels.now) (IsNotFaster levels.now))
        (IsFirstFailure (length levels.now) (IsNotFaster levels.now)) }
{
    for i in 0..levels.len() {
        if !is_not_faster(levels, i) {
            return Some(i as u32);
        }
    }
    None
}

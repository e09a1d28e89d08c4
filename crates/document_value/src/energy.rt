//! The energy that the slots take.

ghost use Rattle.std.specs.Prelude.{◌≤◌, MatchOption};
ghost use Rattle.std.specs.Option.{ForSome};
ghost use Rattle.base.specs.declared.limits.TheConstants.{MAX_ENERGY};
ghost use Rattle.yds_model.specs.Within.{IsFraction};

use yds_fraction::Amount;

/// Reading an energy shows that it is within its limits.
pub(crate) fn show_limits(energy: Option<Amount>)
    requires { ForSome energy (λ energy. energy.whole ≤ MAX_ENERGY) }
    ensures { MatchOption energy (Unit {0}) (IsFraction MAX_ENERGY) }
{
    if let Some(energy) = energy {
        let _den = energy.den();
    }
}

ghost use Rattle.std.specs.Prelude.{◌≡◌, ◌≤◌, ◌/◌};
ghost use Rattle.base.specs.declared.limits.TheConstants.{MAX_DENOMINATOR, MAX_WHOLE};
ghost use Rattle.yds_model.specs.Divisor.{in_lowest_terms};

use crate::mixed::Amount;

/// So many parts, of which `den` make one, in lowest terms.
pub fn in_lowest_terms(parts: u128, den: u64) -> Amount
    requires some { 1 ≤ den }
    requires den_in_range { den ≤ MAX_DENOMINATOR }
    requires whole_in_range { parts / den ≤ MAX_WHOLE }
    ensures { result ≡ in_lowest_terms parts den }
{
    Amount::of_parts(parts, den).reduced()
}

ghost use Rattle.std.specs.Prelude.{◌≡◌, ◌-◌, ◌*◌, ◌≤◌};
ghost use Rattle.base.specs.declared.limits.TheConstants.{MAX_LEVEL_WORK};
ghost use Rattle.yds_model.specs.Curve.{least_above};

use yds_certificate::{Certificate, Level};
use yds_fraction::{Amount, Speed, in_lowest_terms};

/// What the levels do above a speed, in units of work: of each faster level its work less what its length takes at that
/// speed, in lowest terms.
///
/// Where the levels are those of a plan of some jobs, this is the least that any feasible schedule of them does
/// above the speed. Takes no memory.
pub fn least_above(certificate: &Certificate, threshold: Speed) -> Amount
    ensures { result ≡ least_above threshold.num threshold.den certificate.now }
{
    let den = threshold.den();
    // Reading the levels shows that they are within the limits.
    let _levels = certificate.levels();
    let mut parts = 0;
    for level in certificate.prefix(threshold) {
        parts += work_above(level, threshold);
    }
    in_lowest_terms(parts, den)
}

/// What a level does above a speed, times the speed's denominator: nothing where it isn't faster.
fn work_above(level: &Level, threshold: Speed) -> u128
    ensures value { result ≡ threshold.den * level.now.work - threshold.num * level.now.length }
    ensures few { result ≤ threshold.den * MAX_LEVEL_WORK }
{
    let whole = u128::from(threshold.den()) * u128::from(level.work);
    whole.saturating_sub(u128::from(threshold.num()) * u128::from(level.length))
}

ghost use Rattle.std.specs.Prelude.{◌≡◌, ◌-◌, ◌*◌, ◌≤◌, length, IfOk};
ghost use Rattle.base.specs.declared.limits.TheConstants.{MAX_WHOLE};
ghost use Rattle.base.specs.Numbers.{Each};
ghost use Rattle.yds_model.specs.Divisor.{in_lowest_terms};
ghost use Rattle.yds_model.specs.Plan.{IsSlower};
ghost use Rattle.yds_model.specs.Curve.{breaks_of};

use std::alloc::Global;
use std::marker::Model;
use yds_certificate::{Certificate, Level};
use yds_fraction::{Amount, Speed, in_lowest_terms};
use yds_model::Memory;

/// A speed at which the curve of least excess bends.
#[derive(Debug, Drop)]
pub struct Break {
    /// The speed, in work per time unit and in lowest terms.
    pub speed: Speed,
    /// The least excess above it, in units of work and in lowest terms.
    pub excess: Amount,
}

impl Model for Break {
    ghost use Rattle.yds_model.specs.Scale.{of_parts};
    ghost use Rattle.yds_model.specs.Curve.{Break as BreakOfCurve};

    ghost Value = { BreakOfCurve };

    ghost view = { λ b. record { speed = of_parts b.speed.num b.speed.den; excess = b.excess } };
}

/// The breaks of the curve, in rising order of speed: the one at the speed 0, and one at each level's speed, each with what
/// the levels do above it.
///
/// The levels' speeds fall, as those of a plan do. Where they are a plan's, the curve tells above every speed the least
/// work that any feasible schedule of its jobs does above it: between two neighbouring breaks it goes in
/// a straight line, and above the last it is 0.
pub fn curve(alloc: Global, certificate: &Certificate) -> Result<Vec<Break>, Memory>
    requires falling { Each (length certificate.now) (IsSlower certificate.now) }
    ensures { IfOk result (λ breaks. breaks.items ≡ breaks_of certificate.now) }
{
    let levels = certificate.levels();
    let mut breaks = Vec::with_capacity(alloc, levels.len() + 1)?;
    let (mut work, mut length) = (0, 0);
    for level in levels {
        breaks.push(break_at(level, work, length))?;
        work += level.work;
        length += level.length;
    }
    breaks.push(break_at_zero(work))?;
    breaks.reverse();
    Ok(breaks)
}

/// The break at a level's speed, from the work and the length of all faster levels together.
fn break_at(level: &Level, work: u64, length: u64) -> Break
    requires { work ≤ MAX_WHOLE }
    ensures { result ≡ record {
      speed = in_lowest_terms level.now.work level.now.length;
      excess = in_lowest_terms (level.now.length * work - level.now.work * length) level.now.length;
    } }
{
    let whole = u128::from(level.length) * u128::from(work);
    let parts = whole.saturating_sub(u128::from(level.work) * u128::from(length));
    Break {
        speed: level.speed().reduced(),
        excess: in_lowest_terms(parts, level.length),
    }
}

/// The break at the speed 0, above which all the work is.
fn break_at_zero(work: u64) -> Break
    requires { work ≤ MAX_WHOLE }
    ensures { result ≡ record { speed = in_lowest_terms 0 1; excess = in_lowest_terms work 1 } }
{
    Break {
        speed: Speed::new(0, 1),
        excess: in_lowest_terms(u128::from(work), 1),
    }
}

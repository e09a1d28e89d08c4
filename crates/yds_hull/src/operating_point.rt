ghost use Rattle.std.specs.Prelude.{◌≡◌, ◌≤◌};
ghost use Rattle.yds_model.specs.Within.{IsPoint};

use std::marker::Model;

/// An operating point: a speed that the processor has, and its power at that speed.
///
/// The speed is at most `MAX_POINT_SPEED` and the power at most `MAX_POINT_POWER`.
#[derive(Clone, Copy, Debug, PartialEq, Eq)]
pub struct Point {
    /// The speed, in units of work per time unit.
    pub speed: u32,
    /// The power, in units of energy per time unit.
    pub power: u32,
}

impl Model for Point {
    ghost use Rattle.yds_model.specs.Table.{Point as TablePoint};
    ghost use Rattle.yds_model.specs.Within.{IsPoint};

    ghost Value = { TablePoint };

    ghost view = { λ p. record { speed = p.speed; power = p.power } };

    ghost invariant = { λ p. IsPoint (record { speed = p.speed; power = p.power }) };

    ghost inverse = { λ p. record { speed = p.speed; power = p.power } };
}

impl Point {
    /// The point of this speed, in work per time unit, and this power, in energy per time unit.
    pub fn new(speed: u32, power: u32) -> Point
        requires { IsPoint (record { speed = speed; power = power }) }
        ensures { result ≡ record { speed = speed; power = power } }
    {
        Point { speed, power }
    }
}

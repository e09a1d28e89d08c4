ghost use Rattle.std.specs.Prelude.{◌≡◌, ◌≤◌};

use std::marker::Model;

/// What a job gets in a stretch: so many units, at least one. How much work a unit is, the grain says.
#[derive(Clone, Copy, Debug, PartialEq, Eq)]
pub struct Share {
    /// The stretch's number, from 0.
    pub stretch: u32,
    /// The job's number, from 0.
    pub job: u32,
    /// The units that it gets.
    pub units: u64,
}

impl Model for Share {
    ghost use Rattle.std.specs.Prelude.{◌≤◌};
    ghost use Rattle.yds_timetable.specs.Shares.{JobShare};

    ghost Value = { JobShare };

    ghost view = { λ s. record { stretch = s.stretch; job = s.job; units = s.units } };

    ghost invariant = { λ s. 1 ≤ s.units };

    ghost inverse = { λ s. record { stretch = s.stretch; job = s.job; units = s.units } };
}

ghost use Rattle.std.specs.Prelude.{◌≡◌, max};
ghost use Rattle.base.specs.declared.limits.TheConstants.{MAX_DENOMINATOR};
ghost use Rattle.yds_model.specs.Scale.{of_whole};
ghost use Rattle.yds_fraction.specs.Mixed.{CanAdd, Adds};

use std::marker::Model;
use yds_fraction::Amount;

/// What a job has got from the slots so far.
#[derive(Clone, Copy, Debug)]
pub(crate) struct Received {
    /// The denominator of the job's works that aren't whole, or 1.
    pub(crate) grain: u64,
    /// The works together.
    pub(crate) given: Amount,
}

impl Model for Received {
    ghost use Rattle.yds_slots.specs.Received.{Receipt};

    ghost Value = { Receipt };

    ghost view = { λ r. record { grain = r.grain; given = r.given } };

    ghost inverse = { λ r. record { grain = r.grain; given = r.given } };
}

impl Received {
    /// That of a job without slots.
    pub(crate) fn nothing() -> Received
        ensures { result ≡ record { grain = 1; given = of_whole 0 } }
    {
        Received {
            grain: 1,
            given: Amount::from_whole(0),
        }
    }

    /// That after one more slot of this work.
    pub(crate) fn with(self, work: Amount) -> Received
        requires { CanAdd self.given work }
        ensures grain { result.grain ≡ max self.grain work.den }
        ensures given { Adds MAX_DENOMINATOR self.given work result.given }
    {
        Received {
            grain: self.grain.max(work.den()),
            given: self.given + work,
        }
    }
}

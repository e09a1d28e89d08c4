ghost use Rattle.std.specs.Prelude.{◌≡◌};
ghost use Rattle.yds_slots.specs.Between.{begins_before, ends_by};

use std::marker::Model;
use yds_fraction::{Amount, Moment};

/// A slot: a job runs from one time to another, and gets so much work.
///
/// The two ends have the same denominator, or one of them is whole. Their whole parts are at most
/// `MAX_TIME`, and that of the work is at most `MAX_SLOT_WORK`. That the slot begins before it ends isn't
/// kept, since foreign slots are read too.
#[derive(Clone, Copy, Debug, PartialEq, Eq)]
pub struct Slot {
    /// The job's number, from 0.
    pub job: u32,
    /// The time at which it begins, in time units.
    pub from: Moment,
    /// The time at which it ends, in time units.
    pub to: Moment,
    /// The work that the job gets, in units of work.
    pub work: Amount,
}

impl Model for Slot {
    ghost use Rattle.yds_model.specs.Slot.{WrittenSlot};
    ghost use Rattle.yds_model.specs.Within.{IsSlot};

    ghost Value = { WrittenSlot };

    ghost view = { λ s. record { job = s.job; from = s.from; to = s.to; work = s.work } };

    ghost invariant = { λ s. IsSlot (record { job = s.job; from = s.from; to = s.to; work = s.work }) };

    ghost inverse = { λ s. record { job = s.job; from = s.from; to = s.to; work = s.work } };
}

impl Slot {
    /// Whether it begins before this time, which is whole: exactly where its start's whole part does.
    pub(crate) fn begins_before(&self, time: u32) -> bool
        ensures { result ≡ begins_before time self.now }
    {
        self.from.whole() < u64::from(time)
    }

    /// Whether it has ended by this time.
    pub(crate) fn ends_by(&self, time: u32) -> bool
        ensures { result ≡ ends_by time self.now }
    {
        self.to.whole() < u64::from(time)
            || (self.to.whole() == u64::from(time) && self.to.num() == 0)
    }
}

ghost use Rattle.std.specs.Prelude.{◌≡◌, ◌+◌, ◌-◌, ◌*◌, ◌/◌, ◌^◌, ◌<◌, ◌≤◌, ◌++◌, length, OnOk, IfSome};
ghost use Rattle.base.specs.declared.limits.TheConstants.{MAX_DENOMINATOR, MAX_SLOTS, MAX_SLOT_WORK, MAX_TIME, MAX_WHOLE};
ghost use Rattle.yds_model.specs.Scale.{of_parts};
ghost use Rattle.yds_events.specs.Stretch.{length_of};
ghost use Rattle.yds_fraction.specs.Mixed.{IsMixed};
ghost use Rattle.yds_slots.specs.Schedule.{FitsGrain};
ghost use Rattle.yds_round.specs.Split.{IsSplit};
ghost use Rattle.yds_round.specs.Written.{listed, moment as moment_of, all_units, turn, fast_course, slow_course, slot_between, cut_slots};
ghost use Rattle.yds_round.specs.Cut.{IsCut, IsReached, CanServe};

use crate::split::Split;
use yds_events::Stretch;
use yds_fraction::{Amount, Moment};
use yds_model::Memory;
use yds_slots::{Schedule, Slot};
use yds_timetable::Share;

/// One stretch of a level between two points, and the time of its switch.
#[derive(Clone, Copy, Debug)]
pub(crate) struct Cut {
    /// The split of the level.
    pub split: Split,
    /// The stretch.
    pub stretch: Stretch,
    /// What the level does in it above the slower point's speed, in parts of `1/den` of a unit of work.
    pub surplus: u64,
    /// The switch, in the denominator of the faster part.
    pub fast_end: Moment,
    /// The switch, in the denominator of the slower part.
    pub slow_start: Moment,
}

/// How far a stretch's work is done.
#[derive(Clone, Copy, Debug)]
pub(crate) struct Reached {
    /// The units that are done, of which a unit of work has `den`.
    pub units: u64,
    /// The time at the faster point, at most the switch.
    pub fast: Moment,
    /// The time at the slower point, at least the switch.
    pub slow: Moment,
}

/// The time so many parts of `1/den` after the start of the stretch.
fn moment(stretch: Stretch, parts: u128, den: u64) -> Moment
    requires some { 1 ≤ den }
    requires den_in_range { den ≤ MAX_DENOMINATOR }
    requires within { parts ≤ den * length_of stretch }
    ensures value { result ≡ moment_of stretch parts den }
    ensures in_range { result.whole ≤ MAX_TIME }
    ensures kept { IsMixed MAX_DENOMINATOR result }
{
    Moment::with_parts(u64::from(stretch.from), parts, den)
}

/// Puts the slot last, if there is one.
fn put(rounded: &mut Schedule, slot: Option<Slot>) -> Result<(), Memory>
    requires known { IfSome slot (λ slot. slot.job < rounded.old.jobs) }
    requires grain { IfSome slot (λ slot. FitsGrain rounded.old.slots slot) }
    requires room { length rounded.old.slots < MAX_SLOTS }
    ensures { OnOk result (rounded.new ≡ record { jobs = rounded.old.jobs; slots = rounded.old.slots ++ listed slot }) }
{
    if let Some(slot) = slot {
        rounded.push(slot)?;
    }
    Ok(())
}

impl Cut {
    /// The cut of this stretch.
    pub(crate) fn of(split: Split, stretch: Stretch) -> Cut
        requires { IsSplit split }
        ensures cut { IsCut result }
        ensures split { result.split ≡ split }
        ensures stretch { result.stretch ≡ stretch }
    {
        let surplus = split.surplus * u64::from(stretch.length());
        let fast_end = u128::from(surplus) * u128::from(split.fast.switch);
        let slow_start = u128::from(surplus) * u128::from(split.slow.switch);
        Cut {
            split,
            stretch,
            surplus,
            fast_end: moment(stretch, fast_end, split.fast.den),
            slow_start: moment(stretch, slow_start, split.slow.den),
        }
    }

    /// The work that is done until the switch, in parts of `1/(den * gap)` of a unit.
    fn turn(&self) -> u128
        requires { IsCut self.now }
        ensures value { result ≡ turn self.now.split self.now.stretch }
        ensures in_range { result < 2 ^ 96 }
    {
        u128::from(self.split.high) * u128::from(self.surplus)
    }

    /// So many units, in parts of `1/(den * gap)` of a unit of work.
    fn parts(&self, units: u64) -> u128
        requires { IsCut self.now }
        ensures value { result ≡ units * self.now.split.gap }
        ensures in_range { result < 2 ^ 96 }
    {
        u128::from(units) * u128::from(self.split.gap)
    }

    /// When so many units are done.
    fn reach(&self, units: u64) -> Reached
        requires cut { IsCut self.now }
        requires within { units ≤ all_units self.now.split self.now.stretch }
        ensures units { result.units ≡ units }
        ensures reached { IsReached self.now result }
    {
        if self.parts(units) <= self.turn() {
            let time = u128::from(units) * u128::from(self.split.fast.step);
            return Reached {
                units,
                fast: moment(self.stretch, time, self.split.fast.den),
                slow: self.slow_start,
            };
        }
        let time = u128::from(units - self.surplus) * u128::from(self.split.slow.step);
        Reached {
            units,
            fast: self.fast_end,
            slow: moment(self.stretch, time, self.split.slow.den),
        }
    }

    /// The job's slot at the faster point, if it runs there.
    fn fast_slot(&self, job: u32, from: &Reached, to: &Reached) -> Option<Slot>
        requires cut { IsCut self.now }
        requires from { IsReached self.now from.now }
        requires to { IsReached self.now to.now }
        requires order { from.now.units ≤ to.now.units }
        requires few { to.now.units ≤ from.now.units + self.now.split.den * MAX_SLOT_WORK }
        ensures { listed result ≡ slot_between (fast_course self.now.split self.now.stretch) self.now.stretch job from.now.units to.now.units }
    {
        let before = self.parts(from.units).min(self.turn());
        let after = self.parts(to.units).min(self.turn());
        if after <= before {
            return None;
        }
        Some(Slot {
            job,
            from: from.fast,
            to: to.fast,
            work: self.work(after - before),
        })
    }

    /// The job's slot at the slower point, if it runs there.
    fn slow_slot(&self, job: u32, from: &Reached, to: &Reached) -> Option<Slot>
        requires cut { IsCut self.now }
        requires from { IsReached self.now from.now }
        requires to { IsReached self.now to.now }
        requires order { from.now.units ≤ to.now.units }
        requires few { to.now.units ≤ from.now.units + self.now.split.den * MAX_SLOT_WORK }
        ensures { listed result ≡ slot_between (slow_course self.now.split self.now.stretch) self.now.stretch job from.now.units to.now.units }
    {
        let before = self.parts(from.units).max(self.turn());
        let after = self.parts(to.units).max(self.turn());
        if after <= before {
            return None;
        }
        Some(Slot {
            job,
            from: from.slow,
            to: to.slow,
            work: self.work(after - before),
        })
    }

    /// The work of so many parts of `1/(den * gap)` of a unit.
    fn work(&self, parts: u128) -> Amount
        requires cut { IsCut self.now }
        requires in_range { parts ≤ self.now.split.den * self.now.split.gap * MAX_SLOT_WORK }
        ensures value { result ≡ of_parts parts (self.now.split.den * self.now.split.gap) }
        ensures in_range { result.whole ≤ MAX_SLOT_WORK }
        ensures kept { IsMixed MAX_DENOMINATOR result }
    {
        Amount::of_parts(parts, self.split.den * self.split.gap)
    }

    /// Puts last what is written for the shares of the stretch: first all at the faster point up to the switch, and then at the slower.
    pub(crate) fn serve(&self, shares: &[Share], rounded: &mut Schedule) -> Result<(), Memory>
        requires cut { IsCut self.now }
        requires fits { CanServe self.now.split self.now.stretch rounded.old.jobs rounded.old.slots shares.now }
        ensures { OnOk result (rounded.new ≡ record {
          jobs = rounded.old.jobs;
          slots = rounded.old.slots ++ cut_slots self.now.split self.now.stretch shares.now;
        }) }
    {
        let mut reached = self.reach(0);
        for share in shares {
            let next = self.reach(reached.units + share.units);
            put(rounded, self.fast_slot(share.job, &reached, &next))?;
            put(rounded, self.slow_slot(share.job, &reached, &next))?;
            reached = next;
        }
        Ok(())
    }
}

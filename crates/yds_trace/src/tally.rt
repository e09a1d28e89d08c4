//! What a trace lacks, counted line by line.
ghost use Rattle.std.specs.Prelude.{◌≡◌, ℕ, List, [], ◌∷◌, Option, ◌&&◌, ◌-◌};
ghost use Rattle.yds_kernel.specs.Event.{Thread, Said, Stamped};
ghost use Rattle.yds_kernel.specs.Parts.{capped};
ghost use Rattle.yds_kernel.specs.Views.{event_read};
ghost use Rattle.yds_trace.specs.Asked as asking;
ghost use Rattle.yds_trace.specs.Faults.{lost_just_before};
ghost use Rattle.yds_trace.specs.Past.{last_time};
ghost use Rattle.yds_trace.specs.Kept.{unlisted, HaveCome, IsPast, IsTallied};
ghost use Rattle.yds_trace.specs.Steps.{whose, first_in};
ghost use Rattle.yds_trace.specs.Tally as spec;
ghost use Rattle.yds_trace.specs.Views.{asked_read};

use crate::asked::Asked;
use crate::past::Past;
use crate::step::Whose;
use crate::within::{is_after_from, is_before_to};
use yds_kernel::{Event, Happening};

/// The longest time without a line, in nanoseconds.
#[derive(Clone, Copy, Debug, PartialEq, Eq)]
pub struct Pause {
    /// The time of the line before it.
    pub since: u64,
    /// How long it was; 0 where there is none.
    pub lasted: u64,
}

/// A processor's time without a line before the end of what is asked for, in nanoseconds.
#[derive(Clone, Copy, Debug, PartialEq, Eq)]
pub struct Silence {
    /// Which processor it is.
    pub processor: u64,
    /// The time of its last line.
    pub since: u64,
    /// How long it was; 0 where there is none.
    pub lasted: u64,
}

impl Silence {
    /// No processor's.
    pub(crate) const NONE: Silence = Silence {
        processor: 0,
        since: 0,
        lasted: 0,
    };

    /// The longer one, or the first of equal ones.
    pub(crate) fn longer(self, other: Silence) -> Silence
        ensures { result ≡ spec.longer_silence self other }
    {
        if self.lasted < other.lasted {
            other
        } else {
            self
        }
    }
}

impl Pause {
    /// None.
    pub(crate) const NONE: Pause = Pause {
        since: 0,
        lasted: 0,
    };
}

/// What a trace lacks, or says that a reader should know, within what is asked for.
#[derive(Clone, Copy, Debug, PartialEq, Eq)]
pub struct Tally {
    /// Places where events were lost.
    pub losses: u64,
    /// Switches of other threads that are missing.
    pub missing: u64,
    /// Lines that programs wrote into the trace.
    pub markers: u64,
    /// The longest time between two lines with a stamp.
    pub pause: Pause,
    /// The longest time that a processor which wasn't left idle had no line before the end of what is asked for.
    pub silence: Silence,
}

impl Tally {
    /// Before the first line.
    pub(crate) fn new() -> Tally
        ensures { (asked : asking.Asked) → IsTallied asked [] result }
    {
        Tally {
            losses: 0,
            missing: 0,
            markers: 0,
            pause: Pause::NONE,
            silence: Silence::NONE,
        }
    }

    /// Takes an event, at a place where lines are missing or not.
    pub(crate) fn take(
        &mut self,
        asked: &Asked,
        gap: bool,
        past: &Past,
        event: &Event<'_>,
        first: Whose,
    )
        ensures { (lines : List Said) → IsPast (asked_read asked.now).start lines past.now → HaveCome (asked_read asked.now).tasks lines past.now
            → gap ≡ spec.is_gap (asked_read asked.now) lines (event_read event.now)
            → first ≡ first_in (asked_read asked.now).tasks (event_read event.now).happening
            → IsTallied (asked_read asked.now) lines self.old → IsTallied (asked_read asked.now) (Stamped (event_read event.now) ∷ lines) self.new }
    {
        let (from, to) = (asked.from, asked.to);
        count_if(gap, &mut self.losses);
        count_if(
            lacks_switch(from, to, past, event, first),
            &mut self.missing,
        );
        count_if(is_marked(from, to, event), &mut self.markers);
        take_pause(from, to, past, event.time, &mut self.pause);
    }

    /// The same, where the lines end here: behind a loss or not, and with this silence.
    pub(crate) fn ended(self, behind_loss: bool, silence: Silence) -> Tally
        ensures { (asked : asking.Asked) (lines : List Said) → behind_loss ≡ lost_just_before asked.to lines → silence ≡ spec.silence asked lines
            → IsTallied asked lines self → result ≡ spec.tally_of asked lines }
    {
        let mut tally = self;
        count_if(behind_loss, &mut tally.losses);
        tally.silence = silence;
        tally
    }
}

/// Counts one more where the test holds. Beyond 64 bits none is counted.
fn count_if(test: bool, number: &mut u64)
    ensures { (exact : ℕ) → number.old ≡ capped exact → number.new ≡ capped (spec.one_more test exact) }
{
    if test {
        *number = number.saturating_add(1);
    }
}

/// Whether a time is from `from` to `to`.
fn is_asked_for(from: Option<u64>, to: Option<u64>, time: u64) -> bool
    ensures { result ≡ spec.is_asked_for from to time }
{
    is_after_from(from, time) && is_before_to(to, time)
}

/// Whether a switch of other threads is missing before an event, within what is asked for.
fn lacks_switch(
    from: Option<u64>,
    to: Option<u64>,
    past: &Past,
    event: &Event<'_>,
    first: Whose,
) -> bool
    ensures { (tasks : List asking.Task) (lines : List Said) → HaveCome tasks lines past.now
        → first ≡ first_in tasks (event_read event.now).happening
        → result ≡ (spec.lacks_switch tasks lines (event_read event.now).processor (event_read event.now).happening
        && spec.is_asked_for from to (event_read event.now).time) }
{
    match event.happening {
        Happening::Switch { .. } => {
            let unseen = came_unseen(past.came(event.processor), first);
            unseen && is_asked_for(from, to, event.time)
        }
        Happening::WakeUp { .. }
        | Happening::Speed { .. }
        | Happening::Loss
        | Happening::Marker
        | Happening::Other => false,
    }
}

/// Whether who leaves isn't who came, and no task.
fn came_unseen(came: Option<u64>, first: Whose) -> bool
    ensures { (tasks : List asking.Task) (who : Option Thread) (previous : Thread) → came ≡ unlisted tasks who → first ≡ whose tasks previous
        → result ≡ spec.came_unseen tasks who previous }
{
    match came {
        Some(pid) => pid != first.pid && first.number.is_none(),
        None => false,
    }
}

/// Whether a program wrote it, within what is asked for.
fn is_marked(from: Option<u64>, to: Option<u64>, event: &Event<'_>) -> bool
    ensures { result ≡ (spec.is_marker (event_read event.now).happening && spec.is_asked_for from to (event_read event.now).time) }
{
    match event.happening {
        Happening::Marker => is_asked_for(from, to, event.time),
        Happening::Switch { .. }
        | Happening::WakeUp { .. }
        | Happening::Speed { .. }
        | Happening::Loss
        | Happening::Other => false,
    }
}

/// Takes the time since the line with a stamp before, if it is longer than each one before, and both lines are asked for.
fn take_pause(from: Option<u64>, to: Option<u64>, past: &Past, time: u64, pause: &mut Pause)
    ensures { (start : asking.Start) (lines : List Said) → IsPast start lines past.now
        → pause.new ≡ spec.longer pause.old (spec.has_pause from to lines time) (last_time lines) (time - last_time lines) }
{
    let lasted = time.saturating_sub(past.last);
    if pause.lasted < lasted && has_pause(from, to, past, time) {
        *pause = Pause {
            since: past.last,
            lasted,
        };
    }
}

/// Whether a line with a stamp is before, and both are asked for.
fn has_pause(from: Option<u64>, to: Option<u64>, past: &Past, time: u64) -> bool
    ensures { (start : asking.Start) (lines : List Said) → IsPast start lines past.now
        → result ≡ spec.has_pause from to lines time }
{
    past.first.is_some() && is_after_from(from, past.last) && is_before_to(to, time)
}

//! What is kept of the lines so far. Times are nanoseconds.
ghost use Rattle.std.specs.Prelude.{◌≡◌, ℕ, ◌<◌, ◌^◌, ◌==◌, if◌then◌else◌, ◌&&◌, nat_lt, not, List, [], ◌∷◌, map, slice_index_or, Option, None, IfOk, OnOk};
ghost use Rattle.yds_kernel.specs.Event as trace;
ghost use Rattle.yds_kernel.specs.Event.{Said, Stamped, Lost, Thread};
ghost use Rattle.yds_kernel.specs.Views.{event_read};
ghost use Rattle.yds_trace.specs.Asked as asking;
ghost use Rattle.yds_trace.specs.Faults.{processors_fault};
ghost use Rattle.yds_trace.specs.Past as spec;
ghost use Rattle.yds_trace.specs.Kept.{HaveCome, IsPast, TellsSpeeds, told_on, came_by, unlisted};
ghost use Rattle.yds_trace.specs.Jobs.{came_unlisted, leaving_at};
ghost use Rattle.yds_trace.specs.Late.{last_asked};
ghost use Rattle.yds_trace.specs.Tally.{silence, silence_on};
ghost use Rattle.yds_trace.specs.Views.{start_read, speed_read};

use crate::asked::{Start, StartSpeed};
use crate::job::Leaving;
use crate::places::{at, put_at};
use crate::tally::Silence;
use base::Memory;
use std::alloc::Global;
use yds_kernel::{Event, Happening, Since};

/// What a processor's lines told since events were last lost, or since the trace's begin.
#[derive(Clone, Copy, Debug, PartialEq, Eq)]
pub(crate) struct Told {
    /// The time of its first line.
    pub since: Option<u64>,
    /// When it switched last.
    pub switched: Option<u64>,
    /// Its speed in kilohertz, where it is known.
    pub khz: Option<u64>,
    /// The number of who came to it last, where that is told.
    pub came: Option<u64>,
}

impl Told {
    /// Nothing yet, but for this speed.
    fn nothing(khz: Option<u64>) -> Told
        ensures { result ≡ record { since = None; switched = None; khz = khz; came = None } }
    {
        Told {
            since: None,
            switched: None,
            khz,
            came: None,
        }
    }
}

/// What is told of these processors before the first line.
fn first_told(alloc: Global, speeds: &[StartSpeed]) -> Result<Vec<Told>, Memory>
    ensures { IfOk result (λ told. TellsSpeeds (map speed_read speeds.now) told.items) }
{
    let mut told = Vec::new(alloc);
    for place in (0..speeds.len()).rev() {
        put_speed(&mut told, speeds[place])?;
    }
    Ok(told)
}

/// Puts a speed before those that are told already.
fn put_speed(told: &mut Vec<Told>, speed: StartSpeed) -> Result<(), Memory>
    ensures { (speeds : List asking.StartSpeed) → TellsSpeeds speeds told.old.items
        → OnOk result (TellsSpeeds (speed_read speed ∷ speeds) told.new.items) }
{
    let begun = Told::nothing(Some(speed.khz));
    put_at(told, u64::from(speed.processor), begun, Told::nothing(None))
}

/// What is kept of the lines so far.
#[derive(Debug, Drop)]
pub(crate) struct Past {
    /// The time of the first line with a stamp.
    pub first: Option<u64>,
    /// The time of the last one, or 0.
    pub last: u64,
    /// The speed of a processor whose lines haven't told it since the last loss.
    pub untold: Option<u64>,
    /// The speed of each processor where events were lost.
    pub lost: Option<u64>,
    /// The time of each processor's last line.
    pub lines: Vec<Option<u64>>,
    /// What each processor's lines told since the last loss.
    pub told: Vec<Told>,
}

impl Past {
    /// Before the first line, with these speeds before the first change.
    pub(crate) fn new(alloc: Global, start: &Start) -> Result<Past, Memory>
        ensures stands { IfOk result (IsPast (start_read start.now) []) }
        ensures came { IfOk result (λ past. (processor : ℕ) → (told_on past processor).came ≡ None) }
    {
        match start {
            Start::Fixed(khz) => Ok(Past::begun(alloc, Some(*khz), Some(*khz), Vec::new(alloc))),
            Start::Same(khz) => Ok(Past::begun(alloc, Some(*khz), None, Vec::new(alloc))),
            Start::Listed(speeds) => Ok(Past::begun(alloc, None, None, first_told(alloc, speeds)?)),
        }
    }

    /// Before the first line, with what is told of some processors, this speed of the others, and this one where events were lost.
    fn begun(alloc: Global, untold: Option<u64>, lost: Option<u64>, told: Vec<Told>) -> Past
        ensures stands { (start : asking.Start) → asking.lost_speed start ≡ lost → ((processor : ℕ) → slice_index_or told.items processor (record { since = None; switched = None; khz = untold; came = None })
            ≡ record { since = None; switched = None; khz = asking.start_of start processor; came = None }) → IsPast start [] result }
        ensures came { ((processor : ℕ) → (slice_index_or told.items processor (record { since = None; switched = None; khz = untold; came = None })).came ≡ None)
            → (processor : ℕ) → (told_on result processor).came ≡ None }
    {
        Past {
            first: None,
            last: 0,
            untold,
            lost,
            lines: Vec::new(alloc),
            told,
        }
    }

    /// What a processor's lines told since the last loss.
    fn told_on(&self, processor: u64) -> Told
        ensures { result ≡ told_on self.now processor }
    {
        at(&self.told, processor, Told::nothing(self.untold))
    }

    /// Takes an event, by which this thread comes to its processor, or none that is told.
    pub(crate) fn take(&mut self, event: &Event<'_>, came: Option<u64>) -> Result<(), Memory>
        requires { processors_fault (event_read event.now) ≡ None }
        ensures came { OnOk result ((processor : ℕ) → (told_on self.new processor).came
            ≡ came_by processor (event_read event.now) (event_read event.now).happening came (told_on self.old processor).came) }
        ensures stands { (start : asking.Start) (past : List Said) → IsPast start past self.old
            → OnOk result (IsPast start (Stamped (event_read event.now) ∷ past) self.new) }
    {
        put_at(&mut self.lines, event.processor, Some(event.time), None)?;
        self.first = Some(self.first.unwrap_or(event.time));
        self.last = event.time;
        let before = self.told_on(event.processor);
        let since = Some(before.since.unwrap_or(event.time));
        match event.happening {
            Happening::Switch { .. } => {
                let told = Told {
                    since,
                    switched: Some(event.time),
                    khz: before.khz,
                    came,
                };
                put_at(
                    &mut self.told,
                    event.processor,
                    told,
                    Told::nothing(self.untold),
                )?;
            }
            Happening::Speed { processor, khz } => {
                self.begin_lines(event.processor, before, since)?;
                let other = self.told_on(processor);
                let told = Told {
                    since: other.since,
                    switched: other.switched,
                    khz: Some(khz),
                    came: other.came,
                };
                put_at(&mut self.told, processor, told, Told::nothing(self.untold))?;
            }
            Happening::Loss => self.forget(),
            Happening::WakeUp { .. } | Happening::Marker | Happening::Other => {
                self.begin_lines(event.processor, before, since)?;
            }
        }
        Ok(())
    }

    /// A processor of which this was told has lines since this time.
    fn begin_lines(
        &mut self,
        processor: u64,
        before: Told,
        since: Option<u64>,
    ) -> Result<(), Memory>
        requires { processor < 2 ^ 32 }
        ensures lines { OnOk result (self.new ≡ record self.old { told = self.new.told }) }
        ensures told { OnOk result ((other : ℕ) → slice_index_or self.new.told.items other (record { since = None; switched = None; khz = self.old.untold; came = None })
            ≡ (if processor == other then record before { since = since } else told_on self.old other)) }
    {
        let told = Told {
            since,
            switched: before.switched,
            khz: before.khz,
            came: before.came,
        };
        put_at(&mut self.told, processor, told, Told::nothing(self.untold))
    }

    /// Takes a line without a stamp which says that events were lost.
    pub(crate) fn lose(&mut self)
        ensures came { (processor : ℕ) → (told_on self.new processor).came ≡ None }
        ensures stands { (start : asking.Start) (past : List Said) (processor : ℕ) (since : Since) → IsPast start past self.old
            → IsPast start (Lost processor since ∷ past) self.new }
    {
        self.forget();
    }

    /// Forgets what losses leave unknown.
    fn forget(&mut self)
        ensures first { self.new.first ≡ self.old.first }
        ensures last { self.new.last ≡ self.old.last }
        ensures untold { self.new.untold ≡ self.old.lost }
        ensures lost { self.new.lost ≡ self.old.lost }
        ensures lines { self.new.lines ≡ self.old.lines }
        ensures told { self.new.told.items ≡ [] }
    {
        self.untold = self.lost;
        self.told.clear();
    }

    /// Since when events of a processor were lost, where the next line says so.
    pub(crate) fn lost_since(&self, processor: u64, since: Since) -> u64
        ensures { (start : asking.Start) (past : List Said) → IsPast start past self.now → result ≡ spec.lost_since processor since past }
    {
        let begin = self.first.unwrap_or(0);
        match since {
            Since::ItsLastLine => at(&self.lines, processor, None).unwrap_or(begin),
            Since::TheBegin => begin,
        }
    }

    /// Whether a processor has switched since the last loss.
    pub(crate) fn has_switched(&self, processor: u64) -> bool
        ensures { (start : asking.Start) (past : List Said) → IsPast start past self.now → result ≡ spec.has_switched processor past }
    {
        self.told_on(processor).switched.is_some()
    }

    /// The number of who came to a processor last, where that is told.
    pub(crate) fn came(&self, processor: u64) -> Option<u64>
        ensures { result ≡ (told_on self.now processor).came }
    {
        self.told_on(processor).came
    }

    /// Whether a processor hasn't switched since a time before this boundary, by an event of this time.
    pub(crate) fn is_new(&self, processor: u64, time: u64, boundary: u64) -> bool
        ensures { (start : asking.Start) (past : List Said) → IsPast start past self.now
            → result ≡ (not (spec.has_switched processor past) && nat_lt (spec.lines_since processor time past) boundary) }
    {
        let told = self.told_on(processor);
        told.switched.is_none() && told.since.unwrap_or(time) < boundary
    }

    /// The speed of a processor in kilohertz, where it is known.
    pub(crate) fn speed(&self, processor: u64) -> Option<u64>
        ensures { (start : asking.Start) (past : List Said) → IsPast start past self.now → result ≡ spec.speed_after start processor past }
    {
        self.told_on(processor).khz
    }

    /// The longest time that a processor which wasn't left idle had no line before this time.
    pub(crate) fn silence(&self, until: u64) -> Silence
        ensures { (asked : asking.Asked) (past : List Said) → IsPast asked.start past self.now → HaveCome asked.tasks past self.now
            → last_asked asked past ≡ until → result ≡ silence asked past }
    {
        let mut silence = Silence::NONE;
        for processor in 0..self.lines.len() {
            silence = silence.longer(self.silence_on(processor as u64, until));
        }
        silence
    }

    /// The time from a processor's last line to this one; none where it was left idle.
    fn silence_on(&self, processor: u64, until: u64) -> Silence
        ensures { (asked : asking.Asked) (past : List Said) → IsPast asked.start past self.now → HaveCome asked.tasks past self.now
            → last_asked asked past ≡ until → result ≡ silence_on asked past processor }
    {
        match at(&self.lines, processor, None) {
            Some(since) if self.came(processor) != Some(0) => Silence {
                processor,
                since,
                lasted: until.saturating_sub(since),
            },
            Some(_) | None => Silence::NONE,
        }
    }

    /// Where and how a thread of this number leaves a processor by a switch.
    pub(crate) fn leaving(&self, processor: u64, time: u64, pid: u64) -> Leaving
        ensures { (asked : asking.Asked) (past : List Said) (event : trace.Event) (previous : Thread) → IsPast asked.start past self.now → HaveCome asked.tasks past self.now
            → event.processor ≡ processor → event.time ≡ time → previous.pid ≡ pid → result ≡ leaving_at asked past event previous }
    {
        let told = self.told_on(processor);
        Leaving {
            processor,
            time,
            khz: told.khz,
            switched: told.switched,
            lines_since: told.since.unwrap_or(time),
            renamed: is_pid(pid, told.came),
        }
    }
}

/// Whether who came has this number, and is told since it is no task.
fn is_pid(pid: u64, came: Option<u64>) -> bool
    ensures { (asked : asking.Asked) (who : Option Thread) (thread : Thread) → came ≡ unlisted asked.tasks who → thread.pid ≡ pid
        → result ≡ came_unlisted asked thread who }
{
    match came {
        Some(number) => number == pid,
        None => false,
    }
}

//! The jobs of a task, as far as the lines so far show them. Times are nanoseconds of the trace's clock.
ghost use Rattle.std.specs.Prelude.{◌≡◌, IfOk};
ghost use Rattle.yds_trace.specs.Jobs as spec;
ghost use Rattle.yds_trace.specs.Views.{job_read};

use base::Memory;
use std::alloc::Global;
use yds_kernel::State;

/// When a job ended, as far as the trace shows.
#[derive(Clone, Copy, Debug, PartialEq, Eq)]
pub enum End {
    /// It hasn't ended.
    Open,
    /// Its thread left a processor to sleep.
    Ended(u64),
    /// Events were lost after this time, and nothing is known of it since.
    Lost(u64),
}

/// A stretch of time in which a thread had a processor at one speed.
#[derive(Clone, Copy, Debug, PartialEq, Eq)]
pub struct Stretch {
    pub processor: u64,
    pub from: u64,
    pub to: u64,
    /// Kilohertz, where they are known.
    pub khz: Option<u64>,
}

/// Where a thread is seen to run.
#[derive(Clone, Copy, Debug, PartialEq, Eq)]
pub struct Standing {
    pub processor: u64,
    /// When it came there.
    pub came: u64,
    /// Since when it runs at the speed of now: when it came, or when the speed changed.
    pub since: u64,
}

/// What is known of a thread's wake-ups since its last switch.
#[derive(Clone, Copy, Debug, PartialEq, Eq)]
pub struct Woken {
    /// Whether one came since then.
    pub came: bool,
    /// When one was started since it came to a processor, of which no line tells since that it was done.
    pub started: Option<u64>,
    /// Whether a switch of it was seen since events were lost.
    pub seen: bool,
    /// Whether one came since events were lost.
    pub ever: bool,
}

impl Woken {
    /// Of a thread of which nothing was seen.
    pub(crate) const NOT_SEEN: Woken = Woken {
        came: false,
        started: None,
        seen: false,
        ever: false,
    };
}

/// A thread leaves a processor.
#[derive(Clone, Copy, Debug, PartialEq, Eq)]
pub struct Leaving {
    pub processor: u64,
    pub time: u64,
    /// The processor's speed, in kilohertz, where it is known.
    pub khz: Option<u64>,
    /// When the processor switched last, since events were lost.
    pub switched: Option<u64>,
    /// The time of the processor's first line since events were lost.
    pub lines_since: u64,
    /// Whether the thread came there by the last switch, under a name that is no task's.
    pub renamed: bool,
}

/// Which wake-ups begin a job, and when that is due.
#[derive(Clone, Copy, Debug, PartialEq, Eq)]
pub struct Pace {
    /// A wake-up that comes less than so long after a job's begin goes on with that job.
    pub apart: u64,
    /// A job is due no later than so long behind the one before it, where this isn't 0.
    pub period: u64,
}

/// A switch of a processor, as a thread sees it.
#[derive(Clone, Copy, Debug, PartialEq, Eq)]
pub struct Turn {
    /// Whether the thread leaves.
    pub left: bool,
    /// Whether it comes.
    pub came: bool,
    /// In which state who leaves does so.
    pub state: State,
    pub leaving: Leaving,
    /// Since when switches are missing before it, if some are.
    pub missing: Option<u64>,
}

impl Leaving {
    /// In which its thread ran, from this time on.
    pub(crate) fn stretch(self, from: u64) -> Stretch
        ensures { result ≡ spec.stretch_of self from }
    {
        Stretch {
            processor: self.processor,
            from,
            to: self.time,
            khz: self.khz,
        }
    }

    /// Since when switches of its processor may be missing: since its last one, or since its first line behind a loss.
    pub(crate) fn last_told(self) -> u64
        ensures { result ≡ spec.last_told self }
    {
        self.switched.unwrap_or(self.lines_since)
    }
}

impl End {
    /// Where events were lost after this time, of a job that went on behind such a sleep.
    pub(crate) fn lost(self, time: u64, slept: Option<u64>) -> End
        ensures { result ≡ spec.lost_end time slept self }
    {
        match self {
            End::Open => End::Lost(open_until(time, slept)),
            End::Ended(end) if time < end => End::Lost(open_until(time, slept)),
            End::Ended(end) => End::Ended(end),
            End::Lost(since) => End::Lost(time.min(since)),
        }
    }
}

/// Up to when a job is known to have been open, where events were lost after this time, and it went on behind such a sleep.
fn open_until(time: u64, slept: Option<u64>) -> u64
    ensures { result ≡ spec.open_until time slept }
{
    match slept {
        Some(slept) => time.min(slept),
        None => time,
    }
}

/// A job of a task.
#[derive(Debug, Drop)]
pub struct Job {
    /// Its begin, in nanoseconds; where that isn't known, a time before which it began, or at which.
    pub begin: u64,
    /// Whether its begin is known.
    pub begin_known: bool,
    /// Its deadline counts from here: from its begin, or from a period behind where that of the job before counts from.
    pub due_from: u64,
    /// Its end, as far as that is known.
    pub end: End,
    /// In which its thread ran, in order of time.
    pub stretches: Vec<Stretch>,
    /// How many wake-ups came while it was open.
    pub wake_ups: u64,
    /// Its thread's coming to a processor is missing, so not all that it ran is known.
    pub switch_missing: bool,
    /// Its thread left to sleep at this time, and came back without a wake-up: it hasn't slept.
    pub slept: Option<u64>,
    /// Its thread was over with it.
    pub exited: bool,
    /// It ran on several processors, and these are its stretches on one of them.
    pub shared: bool,
}

impl Job {
    /// One that begins.
    pub(crate) fn new(alloc: Global, begin: u64, due_from: u64, begin_known: bool) -> Job
        ensures { job_read result ≡ spec.new_job begin due_from begin_known }
    {
        Job {
            begin,
            begin_known,
            due_from,
            end: End::Open,
            stretches: Vec::new(alloc),
            wake_ups: 0,
            switch_missing: false,
            slept: None,
            exited: false,
            shared: false,
        }
    }

    /// From when on the deadline of a job counts that begins behind this one, at this time.
    pub(crate) fn due_behind(&self, period: u64, time: u64) -> u64
        ensures { result ≡ spec.due_behind period time (job_read self.now) }
    {
        if self.begin_known && period != 0 {
            self.due_from.saturating_add(period).min(time)
        } else {
            time
        }
    }

    /// Open again: its thread left to sleep at this time, and didn't.
    pub(crate) fn went_on(mut self, time: u64) -> Job
        ensures { job_read result ≡ spec.went_on time (job_read self) }
    {
        self.end = End::Open;
        self.slept = Some(time);
        self
    }

    /// Without a known end since its first sleep without a wake-up, or since the one at this time.
    pub(crate) fn unended(mut self, time: u64) -> Job
        ensures { job_read result ≡ spec.unended time (job_read self) }
    {
        self.end = End::Lost(self.slept.unwrap_or(time));
        self
    }

    /// Open again.
    pub(crate) fn reopened(mut self) -> Job
        ensures { job_read result ≡ spec.reopened (job_read self) }
    {
        self.end = End::Open;
        self
    }

    /// With a wake-up more, if it isn't the second of one.
    pub(crate) fn counted(mut self, again: bool) -> Job
        ensures { job_read result ≡ spec.counted again (job_read self) }
    {
        if !again {
            self.wake_ups = self.wake_ups.saturating_add(1);
        }
        self
    }

    /// Begun by this time.
    pub(crate) fn begun_by(mut self, time: u64) -> Job
        ensures { job_read result ≡ spec.begun_at_most time (job_read self) }
    {
        if time < self.begin {
            self.begin = time;
            self.begin_known = false;
            self.due_from = time;
        }
        self
    }

    /// With a stretch more.
    #[tactic(auto, using(crate::proofs::Listed::reverse_push))]
    pub(crate) fn ran(mut self, stretch: Stretch) -> Result<Job, Memory>
        ensures { IfOk result (λ job. job_read job ≡ spec.ran stretch (job_read self)) }
    {
        self.stretches.push(stretch)?;
        Ok(self)
    }

    /// The same once more.
    pub(crate) fn copied(&self, alloc: Global) -> Result<Job, Memory>
        ensures { IfOk result (λ job. job_read job ≡ job_read self.now) }
    {
        let mut stretches = Vec::with_capacity(alloc, self.stretches.len())?;
        stretches.extend_from_slice(&self.stretches)?;
        Ok(Job {
            begin: self.begin,
            begin_known: self.begin_known,
            due_from: self.due_from,
            end: self.end,
            stretches,
            wake_ups: self.wake_ups,
            switch_missing: self.switch_missing,
            slept: self.slept,
            exited: self.exited,
            shared: self.shared,
        })
    }
}

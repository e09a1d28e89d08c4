//! What is known of a task's thread: the state that is kept from event to event.
ghost use Rattle.std.specs.Prelude.{◌≡◌, OnOk};
ghost use Rattle.yds_trace.specs.Jobs as spec;
ghost use Rattle.yds_trace.specs.Faults.{is_unwoken};
ghost use Rattle.yds_trace.specs.Parts.{came_before, sleeps_before, woken_before};
ghost use Rattle.yds_trace.specs.Steps.{stepped};
ghost use Rattle.yds_trace.specs.Views.{jobs_listed, known_read};

use crate::job::{Job, Leaving, Pace, Standing, Stretch, Turn, Woken};
use crate::jobs::{
    begin, begin_by, come, end_last, exit_last, find, has_ended, has_open_job, is_awake,
    last_begin, lose_all, lose_last, mark_last, run_last, slept_before, start_running, wake,
};
use crate::step::Step;
use base::Memory;
use std::alloc::Global;
use yds_kernel::State;

/// What is known of a task's thread after some lines.
#[derive(Debug, Drop)]
pub struct Known {
    /// Its jobs, in order of their begins. No other than the last one is open.
    pub jobs: Vec<Job>,
    /// Where it runs.
    pub on: Option<Standing>,
    /// The wake-ups since its last switch.
    pub woken: Woken,
}

impl Known {
    /// Before the first line.
    pub fn new(alloc: Global) -> Known
        ensures { known_read result ≡ spec.unknown }
    {
        Known {
            jobs: Vec::new(alloc),
            on: None,
            woken: Woken::NOT_SEEN,
        }
    }

    /// A processor switches: this thread leaves it, or another one does, and then this one comes, or another one.
    pub fn switch(
        &mut self,
        alloc: Global,
        pace: Pace,
        wakes: bool,
        turn: Turn,
    ) -> Result<(), Memory>
        ensures { OnOk result (known_read self.new ≡ spec.after_switch pace wakes turn.left turn.came turn.state turn.leaving turn.missing (known_read self.old)) }
    {
        if let Some(since) = turn.missing {
            self.tear(alloc, turn.left, turn.came, turn.leaving.processor, since)?;
        }
        if turn.left {
            let torn = turn.missing.is_some();
            self.leave(alloc, pace, wakes, torn, turn.state, turn.leaving)?;
        }
        if turn.came {
            self.come(
                alloc,
                pace,
                wakes,
                turn.leaving.processor,
                turn.leaving.time,
            )?;
        }
        Ok(())
    }

    /// Takes an event: who leaves or is woken is this thread, or who comes.
    pub(crate) fn step(
        &mut self,
        alloc: Global,
        pace: Pace,
        wakes: bool,
        first: bool,
        second: bool,
        step: Step,
    ) -> Result<(), Memory>
        ensures { OnOk result (known_read self.new ≡ stepped pace wakes first second step (known_read self.old)) }
    {
        match step {
            Step::Switch {
                state,
                leaving,
                missing,
            } => {
                let turn = Turn {
                    left: first,
                    came: second,
                    state,
                    leaving,
                    missing,
                };
                self.switch(alloc, pace, wakes, turn)
            }
            Step::WakeUp { time, starts } if first && wakes => {
                self.wake(alloc, pace, starts, time)
            }
            Step::Speed {
                processor,
                time,
                khz,
            } => self.change_speed(processor, time, khz),
            Step::Loss { since } => {
                self.lose(since);
                Ok(())
            }
            Step::WakeUp { .. } | Step::Nothing => Ok(()),
        }
    }

    /// Switches are missing since a time, before one of a processor by which this thread leaves, or comes.
    fn tear(
        &mut self,
        alloc: Global,
        left: bool,
        came: bool,
        processor: u64,
        since: u64,
    ) -> Result<(), Memory>
        ensures { OnOk result (known_read self.new ≡ spec.torn left came processor since (known_read self.old)) }
    {
        match self.on {
            Some(standing) if !left && !came && standing.processor != processor => {
                if since < standing.came {
                    lose_all(since, &mut self.jobs);
                    begin(alloc, standing.came, false, &mut self.jobs)?;
                }
            }
            Some(_) | None => self.lose(since),
        }
        Ok(())
    }

    /// Since when a switch of the thread is missing, before one by which it leaves or comes, or another one does.
    pub(crate) fn missing_since(
        &self,
        wakes: bool,
        left: bool,
        came: bool,
        leaving: Leaving,
    ) -> Option<u64>
        ensures { result ≡ spec.missing_since wakes left came leaving (known_read self.now) }
    {
        match self.on {
            Some(standing) => {
                let displaced = if standing.processor == leaving.processor {
                    !left
                } else {
                    left || came
                };
                displaced.then_some(standing.came.min(leaving.last_told()))
            }
            None => {
                let missing = left && !self.is_there(wakes, leaving);
                missing.then_some(leaving.last_told())
            }
        }
    }

    /// Whether a thread that leaves a processor, and has none, needn't have come in a line that is missing, or was awake.
    fn is_there(&self, wakes: bool, leaving: Leaving) -> bool
        ensures { result ≡ spec.is_there wakes leaving (known_read self.now) }
    {
        leaving.renamed
            || leaving.switched.is_none() && !self.woken.seen
            || !wakes
            || is_awake(self.woken, &self.jobs)
    }

    /// It comes to a processor.
    fn come(
        &mut self,
        alloc: Global,
        pace: Pace,
        wakes: bool,
        processor: u64,
        time: u64,
    ) -> Result<(), Memory>
        ensures { OnOk result (known_read self.new ≡ spec.comes pace wakes processor time (known_read self.old)) }
    {
        if wakes {
            come(alloc, pace, time, self.woken, &mut self.jobs)?;
        } else {
            start_running(alloc, pace, time, &mut self.jobs)?;
        }
        self.on = Some(Standing {
            processor,
            came: time,
            since: time,
        });
        self.woken = Woken {
            came: false,
            started: None,
            seen: true,
            ever: self.woken.ever,
        };
        Ok(())
    }

    /// It is woken: a wake-up is started, or was done.
    pub fn wake(&mut self, alloc: Global, pace: Pace, starts: bool, time: u64) -> Result<(), Memory>
        ensures { OnOk result (known_read self.new ≡ spec.wakes_up pace starts time (known_read self.old)) }
    {
        let begin = woken_at(starts, time, self.woken.started);
        let may_run = has_open_job(&self.jobs) || !self.woken.seen;
        wake(alloc, pace, begin, self.woken.came, &mut self.jobs)?;
        self.woken = Woken {
            came: true,
            started: (starts && may_run).then_some(time),
            seen: self.woken.seen,
            ever: true,
        };
        Ok(())
    }

    /// Events were lost after this time.
    pub fn lose(&mut self, time: u64)
        ensures { known_read self.new ≡ spec.loses time (known_read self.old) }
    {
        lose_all(time, &mut self.jobs);
        self.on = None;
        self.woken = Woken::NOT_SEEN;
    }

    /// The speed of a processor changes, from this one.
    pub fn change_speed(
        &mut self,
        processor: u64,
        time: u64,
        khz: Option<u64>,
    ) -> Result<(), Memory>
        ensures { OnOk result (known_read self.new ≡ spec.speeds processor time khz (known_read self.old)) }
    {
        let Some(standing) = self.on else {
            return Ok(());
        };
        if standing.processor != processor {
            return Ok(());
        }
        let stretch = Stretch {
            processor,
            from: standing.since,
            to: time,
            khz,
        };
        run_last(stretch, &mut self.jobs)?;
        self.on = Some(Standing {
            processor: standing.processor,
            came: standing.came,
            since: time,
        });
        Ok(())
    }

    /// It leaves a processor, with switches missing before or not.
    fn leave(
        &mut self,
        alloc: Global,
        pace: Pace,
        wakes: bool,
        torn: bool,
        state: State,
        leaving: Leaving,
    ) -> Result<(), Memory>
        ensures { OnOk result (known_read self.new ≡ spec.leaves pace wakes torn state leaving (known_read self.old)) }
    {
        let woken = Woken {
            came: false,
            started: left_started(state, self.woken.started),
            seen: true,
            ever: self.woken.ever,
        };
        self.leave_from(alloc, pace, wakes, torn, leaving)?;
        match state {
            State::GoesOn => {}
            State::Sleeps => end_last(leaving.time, &mut self.jobs),
            State::Exits => exit_last(leaving.time, &mut self.jobs),
            State::Unknown => lose_last(leaving.time, &mut self.jobs),
        }
        self.on = None;
        self.woken = woken;
        Ok(())
    }

    /// Its jobs where it leaves a processor.
    fn leave_from(
        &mut self,
        alloc: Global,
        pace: Pace,
        wakes: bool,
        torn: bool,
        leaving: Leaving,
    ) -> Result<(), Memory>
        ensures { OnOk result (jobs_listed self.new.jobs.items ≡ spec.left_from pace wakes torn leaving (known_read self.old)) }
    {
        match self.on {
            Some(standing) => run_last(leaving.stretch(standing.since), &mut self.jobs),
            None => self.leave_unseen(alloc, pace, wakes, torn, leaving),
        }
    }

    /// Its jobs where it leaves a processor to which it wasn't seen to come.
    fn leave_unseen(
        &mut self,
        alloc: Global,
        pace: Pace,
        wakes: bool,
        torn: bool,
        leaving: Leaving,
    ) -> Result<(), Memory>
        ensures { OnOk result (jobs_listed self.new.jobs.items ≡ spec.left_unseen pace wakes torn leaving (known_read self.old)) }
    {
        if leaving.renamed {
            return find(alloc, leaving.time, true, &mut self.jobs);
        }
        if !torn && leaving.switched.is_none() && !self.woken.seen {
            begin_by(alloc, leaving.lines_since, &mut self.jobs)?;
            return run_last(leaving.stretch(leaving.lines_since), &mut self.jobs);
        }
        if wakes {
            come(alloc, pace, leaving.time, self.woken, &mut self.jobs)?;
        } else {
            find(alloc, leaving.time, false, &mut self.jobs)?;
        }
        mark_last(&mut self.jobs);
        Ok(())
    }
}

impl Known {
    /// Whether it left to sleep, and no wake-up ended that: for the second time in one job, or none of it was ever seen.
    pub(crate) fn is_unwoken(&self) -> bool
        ensures { result ≡ is_unwoken (known_read self.now) }
    {
        self.woken.seen && self.woken.started.is_none() && slept_before(self.woken.ever, &self.jobs)
    }

    /// Whether its last job began before this time, and it left to sleep, without a wake-up since.
    pub(crate) fn sleeps_before(&self, boundary: u64) -> bool
        ensures { result ≡ sleeps_before boundary (known_read self.now) }
    {
        self.woken.seen && has_ended(&self.jobs) && last_begin(&self.jobs) < boundary
    }

    /// The same, where a wake-up was started before it left.
    pub(crate) fn woken_before(&self, boundary: u64) -> bool
        ensures { result ≡ woken_before boundary (known_read self.now) }
    {
        self.woken.started.is_some() && self.sleeps_before(boundary)
    }

    /// The same, where it isn't seen to have a processor.
    pub(crate) fn came_before(&self, boundary: u64) -> bool
        ensures { result ≡ came_before boundary (known_read self.now) }
    {
        self.on.is_none() && self.woken_before(boundary)
    }
}

/// Since when a thread is awake, of whose wake-up a line of this time tells.
fn woken_at(starts: bool, time: u64, started: Option<u64>) -> u64
    ensures { result ≡ spec.woken_at starts time started }
{
    match started {
        Some(before) if !starts => before,
        Some(_) | None => time,
    }
}

/// The wake-up that isn't done yet where a thread leaves in this state.
fn left_started(state: State, started: Option<u64>) -> Option<u64>
    ensures { result ≡ spec.left_started state started }
{
    match state {
        State::Sleeps => started,
        State::GoesOn | State::Exits | State::Unknown => None,
    }
}

/// Whether it stands there.
pub(crate) fn stands_on(processor: u64, on: Option<Standing>) -> bool
    ensures { result ≡ spec.stands_on processor on }
{
    match on {
        Some(standing) => standing.processor == processor,
        None => false,
    }
}

//! What is kept of the lines that count: those up to the end of what is asked for.
ghost use Rattle.std.specs.Prelude.{◌≡◌, ℕ, ◌<◌, ◌≤◌, List, [], ◌∷◌, length, if◌then◌else◌, Option, Some, None, IfOk, OnOk, IfErr, map, is_some, not, true, false};
ghost use Rattle.yds_kernel.specs.Event as trace;
ghost use Rattle.yds_kernel.specs.Views.{event_read, happening_read};
ghost use Rattle.yds_trace.specs.Asked as asking;
ghost use Rattle.yds_trace.specs.declared.fault.Cause.TheVariants as causes;
ghost use Rattle.yds_trace.specs.Faults as spec;
ghost use Rattle.yds_trace.specs.Finding.{found, first_found, second_found};
ghost use Rattle.yds_trace.specs.Following.{some_waits, spans_at, touches_by};
ghost use Rattle.yds_trace.specs.Jobs.{all_known, known_after, missing_of};
ghost use Rattle.yds_trace.specs.Kept.{AreOthersOf, IsCounted, IsLines};
ghost use Rattle.yds_trace.specs.Others.{any_waits};
ghost use Rattle.yds_trace.specs.Past.{last_time, up_to, counts as spec_counts};
ghost use Rattle.yds_trace.specs.Steps.{first_in, second_in, step_of, whose};
ghost use Rattle.yds_trace.specs.Parts.{came_before, sleeps_before, woken_before};
ghost use Rattle.yds_trace.specs.Passing.{IsRefusedFor, fault_in};
ghost use Rattle.yds_trace.specs.Views.{asked_read, span_read, start_read, task_read};

use crate::asked::{Asked, Start};
use crate::fault::Cause;
use crate::find::Found;
use crate::followed::{
    Followed, any_waits, follow, has_number, lose_each, missing_among, runs_on, take_each,
};
use crate::job::Leaving;
use crate::jobs::has_exited;
use crate::limits::MAX_TOUCHES;
use crate::lines::Lines;
use crate::others::{Others, Span};
use crate::past::Past;
use crate::refused::Refused;
use crate::step::{Step, Whose};
use crate::within::{is_before_to, is_within_to};
use base::Memory;
use std::alloc::Global;
use yds_kernel::{Event, Happening, Since, State};

/// What is kept of the lines that count.
#[derive(Debug, Drop)]
pub(crate) struct Counted {
    pub past: Past,
    /// What is known of each task.
    pub tasks: Vec<Followed>,
    /// How many lines told of the tasks.
    pub touched: u64,
    /// A job that begins before this time may be forgotten.
    pub boundary: u64,
    /// Who was in the way on the processor of which that is told.
    pub others: Others,
}

impl Counted {
    /// Before the first line.
    pub(crate) fn new(alloc: Global, asked: &Asked) -> Result<Counted, Memory>
        ensures stands { IfOk result (λ counted. IsCounted (asked_read asked.now) [] counted) }
        ensures boundary { IfOk result (λ counted. counted.boundary ≡ 0) }
    {
        Ok(Counted {
            past: Past::new(alloc, &asked.start)?,
            tasks: follow(alloc, asked.tasks.len())?,
            touched: 0,
            boundary: 0,
            others: Others::new(alloc),
        })
    }

    /// Takes an event that counts.
    pub(crate) fn take(
        &mut self,
        alloc: Global,
        asked: &Asked,
        event: &Event<'_>,
        first: Whose,
        second: Whose,
    ) -> Result<(), Refused>
        requires in_place { spec.processors_fault (event_read event.now) ≡ None }
        requires first { first ≡ first_in (map task_read asked.now.tasks.items) (event_read event.now).happening }
        requires second { second ≡ second_in (map task_read asked.now.tasks.items) (event_read event.now).happening }
        ensures few { (counting : List trace.Said) → IsCounted (asked_read asked.now) counting self.old
            → OnOk result (spec.counted_fault (asked_read asked.now) (trace.Stamped (event_read event.now) ∷ counting) ≡ None) }
        ensures stands { (counting : List trace.Said) → IsCounted (asked_read asked.now) counting self.old
            → OnOk result (IsCounted (asked_read asked.now) (trace.Stamped (event_read event.now) ∷ counting) self.new) }
        ensures refused { (counting : List trace.Said) → IsCounted (asked_read asked.now) counting self.old
            → IfErr result (IsRefusedFor (spec.counted_fault (asked_read asked.now) (trace.Stamped (event_read event.now) ∷ counting))) }
        ensures boundary { OnOk result (self.new.boundary ≡ self.old.boundary) }
    {
        let step = self.step(asked, event, first, second);
        let touched = self.touched_by(asked, first, second, step);
        if touched > MAX_TOUCHES {
            return Err(Refused::Fault(Cause::TooLong));
        }
        self.touched = touched;
        take_each(
            &mut self.tasks,
            alloc,
            &asked.tasks,
            !asked.begin_at_run,
            first,
            second,
            step,
        )?;
        take_others(
            &mut self.others,
            alloc,
            asked.others,
            &self.tasks,
            event,
            second,
        )?;
        self.past.take(event, second.unlisted())?;
        Ok(())
    }

    /// Since when switches of tasks are missing, before one by which these threads leave and come, if some are.
    fn missing(&self, wakes: bool, first: Whose, second: Whose, leaving: Leaving) -> Option<u64>
        ensures { (asked : asking.Asked) (counting : List trace.Said) (previous next : trace.Thread) → IsCounted asked counting self.now
            → wakes ≡ not asked.begin_at_run → first ≡ whose asked.tasks previous → second ≡ whose asked.tasks next
            → result ≡ missing_of asked previous next leaving (all_known asked counting) 0 asked.tasks }
    {
        missing_among(&self.tasks, wakes, first, second, leaving)
    }

    /// What an event behind these lines is to a task.
    fn step(&self, asked: &Asked, event: &Event<'_>, first: Whose, second: Whose) -> Step
        ensures { (counting : List trace.Said) → IsCounted (asked_read asked.now) counting self.now
            → first ≡ first_in (asked_read asked.now).tasks (event_read event.now).happening
            → second ≡ second_in (asked_read asked.now).tasks (event_read event.now).happening
            → result ≡ step_of (asked_read asked.now) counting (event_read event.now) }
    {
        match event.happening {
            Happening::Switch { state, .. } => {
                let leaving = self.past.leaving(event.processor, event.time, first.pid);
                Step::Switch {
                    state,
                    leaving,
                    missing: self.missing(!asked.begin_at_run, first, second, leaving),
                }
            }
            Happening::WakeUp { starts, .. } => Step::WakeUp {
                time: event.time,
                starts,
            },
            Happening::Speed { processor, .. } => Step::Speed {
                processor,
                time: event.time,
                khz: self.past.speed(processor),
            },
            Happening::Loss => Step::Loss {
                since: self.past.lost_since(event.processor, Since::ItsLastLine),
            },
            Happening::Marker | Happening::Other => Step::Nothing,
        }
    }

    /// Since when switches of tasks are missing before an event, if some are.
    fn missing_in(
        &self,
        asked: &Asked,
        event: &Event<'_>,
        first: Whose,
        second: Whose,
    ) -> Option<u64>
        ensures { (counting : List trace.Said) → IsCounted (asked_read asked.now) counting self.now
            → first ≡ first_in (asked_read asked.now).tasks (event_read event.now).happening
            → second ≡ second_in (asked_read asked.now).tasks (event_read event.now).happening
            → result ≡ spec.missing_in (asked_read asked.now) counting (event_read event.now) (event_read event.now).happening }
    {
        match event.happening {
            Happening::Switch { .. } => {
                let leaving = self.past.leaving(event.processor, event.time, first.pid);
                self.missing(!asked.begin_at_run, first, second, leaving)
            }
            Happening::WakeUp { .. }
            | Happening::Speed { .. }
            | Happening::Loss
            | Happening::Marker
            | Happening::Other => None,
        }
    }

    /// The same of a processor's first switch, where it comes behind `to`: who leaves there is taken to have stayed until then.
    fn missing_stayed(&self, asked: &Asked, to: u64, event: &Event<'_>, first: Whose) -> Option<u64>
        ensures { (counting : List trace.Said) → IsCounted (asked_read asked.now) counting self.now
            → first ≡ first_in (asked_read asked.now).tasks (event_read event.now).happening
            → result ≡ spec.missing_stayed (asked_read asked.now) to counting (event_read event.now) (event_read event.now).happening }
    {
        match event.happening {
            Happening::Switch { .. } if !self.past.has_switched(event.processor) => {
                let leaving = self.past.leaving(event.processor, to, first.pid);
                self.missing(!asked.begin_at_run, first, first, leaving)
            }
            Happening::Switch { .. }
            | Happening::WakeUp { .. }
            | Happening::Speed { .. }
            | Happening::Loss
            | Happening::Marker
            | Happening::Other => None,
        }
    }

    /// The same of an event as it counts.
    pub(crate) fn missing_at(
        &self,
        asked: &Asked,
        event: &Event<'_>,
        first: Found,
        second: Found,
    ) -> Option<u64>
        ensures { (past : List trace.Said) → IsCounted (asked_read asked.now) (up_to asked.now.to past) self.now
            → first ≡ first_found (asked_read asked.now).tasks (event_read event.now).happening
            → second ≡ second_found (asked_read asked.now).tasks (event_read event.now).happening
            → result ≡ spec.missing_at (asked_read asked.now) past (event_read event.now) }
    {
        if is_before_to(asked.to, event.time) {
            return self.missing_in(asked, event, first.whose(), second.whose());
        }
        let to = asked.to.unwrap_or(event.time);
        self.missing_stayed(asked, to, event, first.whose())
    }

    /// How many lines tell of the tasks, with an event that is this step. Told in parts they aren't counted.
    fn touched_by(&self, asked: &Asked, first: Whose, second: Whose, step: Step) -> u64
        ensures counted { (counting : List trace.Said) (event : trace.Event) → IsCounted (asked_read asked.now) counting self.now
            → first ≡ first_in (asked_read asked.now).tasks event.happening → second ≡ second_in (asked_read asked.now).tasks event.happening
            → step ≡ step_of (asked_read asked.now) counting event → asked.now.in_parts ≡ false
            → result ≡ spec.touched (asked_read asked.now) (trace.Stamped event ∷ counting) }
        ensures not_counted { asked.now.in_parts ≡ true → result ≡ self.now.touched }
    {
        if asked.in_parts {
            return self.touched;
        }
        if self.touches(asked.others.is_some(), first, second, step) {
            self.touched.saturating_add(1)
        } else {
            self.touched
        }
    }

    /// Whether an event tells of a task, also where it is told who was in the way.
    fn touches(&self, others: bool, first: Whose, second: Whose, step: Step) -> bool
        ensures { result ≡ touches_by others first second step self.now.tasks.items }
    {
        match step {
            Step::Switch { .. } => {
                first.number.is_some()
                    || second.number.is_some()
                    || (others && any_waits(&self.tasks))
            }
            Step::WakeUp { .. } => first.number.is_some(),
            Step::Speed { processor, .. } => runs_on(&self.tasks, processor),
            Step::Loss { .. } | Step::Nothing => false,
        }
    }

    /// Takes a line without a stamp that counts: events of the processor were lost.
    pub(crate) fn lose(
        &mut self,
        wanted: Option<u64>,
        processor: u64,
        since: Since,
    ) -> Result<(), Memory>
        ensures stands { (asked : asking.Asked) (counting : List trace.Said) → asked.others ≡ wanted → IsCounted asked counting self.old
            → OnOk result (IsCounted asked (trace.Lost processor since ∷ counting) self.new) }
        ensures boundary { OnOk result (self.new.boundary ≡ self.old.boundary) }
    {
        lose_others(&mut self.others, wanted, self.past.last)?;
        let time = self.past.lost_since(processor, since);
        lose_each(&mut self.tasks, time);
        self.past.lose();
        Ok(())
    }

    /// Takes what counts of a line without a stamp which says that events of the processor were lost.
    pub(crate) fn count_loss(
        &mut self,
        asked: &Asked,
        lines: &Lines,
        processor: u64,
        since: Since,
    ) -> Result<(), Memory>
        ensures stands { (past : List trace.Said) → IsLines (asked_read asked.now) past lines.now
            → IsCounted (asked_read asked.now) (up_to asked.now.to past) self.old
            → OnOk result (IsCounted (asked_read asked.now) (up_to asked.now.to (trace.Lost processor since ∷ past)) self.new) }
        ensures boundary { OnOk result (self.new.boundary ≡ self.old.boundary) }
    {
        if !is_within_to(asked.to, lines.past.lost_since(processor, since)) {
            return Ok(());
        }
        self.lose(asked.others, processor, since)?;
        Ok(())
    }

    /// The thread that was this task last.
    fn pid(&self, number: usize) -> Option<u64>
        ensures { (asked : asking.Asked) (counting : List trace.Said) → IsCounted asked counting self.now → number < length asked.tasks
            → result ≡ spec.pid_before asked number counting }
    {
        match self.tasks.get(number) {
            Some(followed) => followed.pid,
            None => None,
        }
    }

    /// Whether the thread of this task was over before.
    fn has_exited(&self, number: usize) -> bool
        ensures { (asked : asking.Asked) (counting : List trace.Said) → IsCounted asked counting self.now → number < length asked.tasks
            → result ≡ spec.has_exited (known_after asked number counting).jobs }
    {
        match self.tasks.get(number) {
            Some(followed) => has_exited(&followed.known.jobs),
            None => false,
        }
    }

    /// Whether the thread of this task comes behind a second sleep without a wake-up.
    fn is_unwoken(&self, number: usize) -> bool
        ensures { (asked : asking.Asked) (counting : List trace.Said) → IsCounted asked counting self.now → number < length asked.tasks
            → result ≡ spec.is_unwoken (known_after asked number counting) }
    {
        match self.tasks.get(number) {
            Some(followed) => followed.known.is_unwoken(),
            None => false,
        }
    }

    /// Whether the thread of this task left to sleep, without a wake-up since, and its last job began before this time.
    pub(crate) fn sleeps_before(&self, number: usize, boundary: u64) -> bool
        ensures { (asked : asking.Asked) (counting : List trace.Said) → IsCounted asked counting self.now → number < length asked.tasks
            → result ≡ sleeps_before boundary (known_after asked number counting) }
    {
        match self.tasks.get(number) {
            Some(followed) => followed.known.sleeps_before(boundary),
            None => false,
        }
    }

    /// The same, where a wake-up was started before it left.
    pub(crate) fn woken_before(&self, number: usize, boundary: u64) -> bool
        ensures { (asked : asking.Asked) (counting : List trace.Said) → IsCounted asked counting self.now → number < length asked.tasks
            → result ≡ woken_before boundary (known_after asked number counting) }
    {
        match self.tasks.get(number) {
            Some(followed) => followed.known.woken_before(boundary),
            None => false,
        }
    }

    /// The same, where it isn't seen to have a processor.
    pub(crate) fn came_before(&self, number: usize, boundary: u64) -> bool
        ensures { (asked : asking.Asked) (counting : List trace.Said) → IsCounted asked counting self.now → number < length asked.tasks
            → result ≡ came_before boundary (known_after asked number counting) }
    {
        match self.tasks.get(number) {
            Some(followed) => followed.known.came_before(boundary),
            None => false,
        }
    }

    /// What a thread that comes is refused for, where its wake-ups aren't recorded.
    fn check_woken(&self, needed: bool, thread: Found) -> Result<(), Cause>
        ensures { (asked : asking.Asked) (counting : List trace.Said) (named : trace.Thread) → IsCounted asked counting self.now
            → needed ≡ spec.needs_wake_ups asked → thread ≡ found asked.tasks named
            → fault_in result ≡ spec.unwoken_fault asked counting named }
    {
        match thread.whose().number {
            Some(number) if needed && self.is_unwoken(number) => Err(Cause::NotWoken),
            Some(_) | None => Ok(()),
        }
    }

    /// What a thread is refused for.
    fn check_thread(&self, thread: Found) -> Result<(), Cause>
        ensures { (asked : asking.Asked) (counting : List trace.Said) (named : trace.Thread) → IsCounted asked counting self.now
            → thread ≡ found asked.tasks named → fault_in result ≡ spec.thread_fault asked counting named }
    {
        if thread.numbered.is_some() && thread.named.is_some() {
            return Err(Cause::TwoTasks);
        }
        match thread.whose().number {
            Some(number) => match self.pid(number) {
                Some(pid) if pid != thread.pid => Err(Cause::TwoThreads),
                Some(_) | None if self.has_exited(number) => Err(Cause::Exited),
                Some(_) => Ok(()),
                None => self.check_name(thread.pid),
            },
            None => self.check_name(thread.pid),
        }
    }

    /// What a thread of this number is refused for that wasn't a task under the name that it has.
    fn check_name(&self, pid: u64) -> Result<(), Cause>
        ensures { (asked : asking.Asked) (counting : List trace.Said) → IsCounted asked counting self.now
            → fault_in result ≡ (if spec.has_number asked counting pid 0 asked.tasks then Some causes.Renamed else None) }
    {
        if has_number(&self.tasks, pid) {
            return Err(Cause::Renamed);
        }
        Ok(())
    }

    /// What an event not after `to` is refused for: its threads, and the state of who leaves.
    pub(crate) fn check(
        &self,
        start: &Start,
        needs_wake_ups: bool,
        happening: &Happening<'_>,
        first: Found,
        second: Found,
    ) -> Result<(), Cause>
        ensures { (asked : asking.Asked) (counting : List trace.Said) → IsCounted asked counting self.now
            → asked.start ≡ start_read start.now
            → needs_wake_ups ≡ spec.needs_wake_ups asked
            → first ≡ first_found asked.tasks (happening_read happening.now)
            → second ≡ second_found asked.tasks (happening_read happening.now)
            → fault_in result ≡ spec.happening_fault asked counting (happening_read happening.now) }
    {
        match happening {
            Happening::Switch { state, .. } => {
                self.check_thread(first)?;
                if first.whose().number.is_some() && *state == State::Unknown {
                    return Err(Cause::UnknownState);
                }
                self.check_thread(second)?;
                check_both(first, second)?;
                self.check_woken(needs_wake_ups, second)
            }
            Happening::WakeUp { .. } => self.check_thread(first),
            Happening::Speed { khz, .. } => check_speed(start, *khz),
            Happening::Loss | Happening::Marker | Happening::Other => Ok(()),
        }
    }

    /// What an event after `to` is refused for: the thread that had its processor until then.
    pub(crate) fn check_stayed(&self, event: &Event<'_>, first: Found) -> Result<(), Cause>
        ensures { (asked : asking.Asked) (past : List trace.Said) → IsCounted asked (up_to asked.to past) self.now
            → first ≡ first_found asked.tasks (event_read event.now).happening
            → fault_in result ≡ spec.stayed_fault asked past (event_read event.now) }
    {
        match event.happening {
            Happening::Switch { .. } if !self.past.has_switched(event.processor) => {
                self.check_thread(first)
            }
            Happening::Switch { .. }
            | Happening::WakeUp { .. }
            | Happening::Speed { .. }
            | Happening::Loss
            | Happening::Marker
            | Happening::Other => Ok(()),
        }
    }

    /// Takes what counts of an event.
    pub(crate) fn count(
        &mut self,
        alloc: Global,
        asked: &Asked,
        lines: &Lines,
        event: &Event<'_>,
        first: Whose,
        second: Whose,
    ) -> Result<(), Refused>
        requires in_place { spec.processors_fault (event_read event.now) ≡ None }
        requires first { first ≡ first_in (map task_read asked.now.tasks.items) (event_read event.now).happening }
        requires second { second ≡ second_in (map task_read asked.now.tasks.items) (event_read event.now).happening }
        ensures few { (past : List trace.Said) → IsLines (asked_read asked.now) past lines.now → IsCounted (asked_read asked.now) (up_to asked.now.to past) self.old
            → OnOk result (spec.length_fault (asked_read asked.now) (trace.Stamped (event_read event.now) ∷ past) ≡ None) }
        ensures stands { (past : List trace.Said) → IsLines (asked_read asked.now) past lines.now → IsCounted (asked_read asked.now) (up_to asked.now.to past) self.old
            → OnOk result (IsCounted (asked_read asked.now) (up_to asked.now.to (trace.Stamped (event_read event.now) ∷ past)) self.new) }
        ensures refused { (past : List trace.Said) → IsLines (asked_read asked.now) past lines.now → IsCounted (asked_read asked.now) (up_to asked.now.to past) self.old
            → IfErr result (IsRefusedFor (spec.length_fault (asked_read asked.now) (trace.Stamped (event_read event.now) ∷ past))) }
        ensures boundary { OnOk result (self.new.boundary ≡ self.old.boundary) }
    {
        let Some(to) = asked.to else {
            return self.take(alloc, asked, event, first, second);
        };
        if counts(to, lines, event) {
            return self.take(alloc, asked, event, first, second);
        }
        match event.happening {
            Happening::Switch { previous, .. } if !self.past.has_switched(event.processor) => {
                let stayed = Event {
                    processor: event.processor,
                    time: to,
                    happening: Happening::Switch {
                        previous,
                        state: State::GoesOn,
                        next: previous,
                    },
                };
                self.take(alloc, asked, &stayed, first, first)
            }
            Happening::Switch { .. }
            | Happening::WakeUp { .. }
            | Happening::Speed { .. }
            | Happening::Loss
            | Happening::Marker
            | Happening::Other => Ok(()),
        }
    }
}

/// Takes an event behind which this is known of the tasks, where it is asked who was in the way on this processor.
fn take_others(
    others: &mut Others,
    alloc: Global,
    wanted: Option<u64>,
    tasks: &[Followed],
    event: &Event<'_>,
    second: Whose,
) -> Result<(), Memory>
    ensures { (asked : asking.Asked) (counting : List trace.Said) (boundary : ℕ) → asked.others ≡ wanted → AreOthersOf asked counting boundary others.old
        → second ≡ second_in asked.tasks (event_read event.now).happening
        → some_waits tasks.now ≡ any_waits asked (trace.Stamped (event_read event.now) ∷ counting)
        → OnOk result (AreOthersOf asked (trace.Stamped (event_read event.now) ∷ counting) boundary others.new) }
{
    match wanted {
        Some(processor) => {
            others.take(alloc, processor, event, second, any_waits(tasks))?;
            Ok(())
        }
        None => Ok(()),
    }
}

/// Events were lost behind lines of which this is the last one's time, where it is asked who was in the way.
fn lose_others(others: &mut Others, wanted: Option<u64>, time: u64) -> Result<(), Memory>
    ensures { (asked : asking.Asked) (counting : List trace.Said) (boundary processor : ℕ) (since : Since) → asked.others ≡ wanted
        → AreOthersOf asked counting boundary others.old → last_time counting ≡ time
        → OnOk result (AreOthersOf asked (trace.Lost processor since ∷ counting) boundary others.new) }
{
    match wanted {
        Some(_) => {
            others.lose(time)?;
            Ok(())
        }
        None => Ok(()),
    }
}

/// Forgets the first spans, which end at this time or before it, where it is asked who was in the way.
pub(crate) fn forget_others(others: &mut Others, wanted: Option<u64>, boundary: u64)
    ensures { (asked : asking.Asked) (counting : List trace.Said) (before : ℕ) → asked.others ≡ wanted
        → AreOthersOf asked counting before others.old → before ≤ boundary → AreOthersOf asked counting boundary others.new }
{
    match wanted {
        Some(_) => others.forget(boundary),
        None => {}
    }
}

/// Who was in the way, where that is asked for. What goes on has gone on until this time.
pub(crate) fn show_others(
    alloc: Global,
    wanted: Option<u64>,
    others: &Others,
    until: u64,
) -> Result<Vec<Span>, Memory>
    ensures { IfOk result (λ spans. map span_read spans.items ≡ spans_at wanted until others.now) }
{
    match wanted {
        Some(_) => others.shown(alloc, until),
        None => Ok(Vec::new(alloc)),
    }
}

/// The same, and nothing is kept.
pub(crate) fn end_others(
    alloc: Global,
    wanted: Option<u64>,
    others: Others,
    until: u64,
) -> Result<Vec<Span>, Memory>
    ensures { IfOk result (λ spans. map span_read spans.items ≡ spans_at wanted until others) }
{
    match wanted {
        Some(_) => others.ended(until),
        None => Ok(Vec::new(alloc)),
    }
}

/// Whether an event counts.
fn counts(to: u64, lines: &Lines, event: &Event<'_>) -> bool
    ensures { (asked : asking.Asked) (past : List trace.Said) → IsLines asked past lines.now → result ≡ spec_counts to (event_read event.now) past }
{
    match event.happening {
        Happening::Loss => lines.past.lost_since(event.processor, Since::ItsLastLine) < to,
        Happening::Switch { .. }
        | Happening::WakeUp { .. }
        | Happening::Speed { .. }
        | Happening::Marker
        | Happening::Other => event.time <= to,
    }
}

/// What a line that tells a speed is refused for, where each processor is said to have one throughout.
fn check_speed(start: &Start, khz: u64) -> Result<(), Cause>
    ensures { fault_in result ≡ (if spec.is_other_speed (start_read start.now) khz then Some causes.SpeedChanged else None) }
{
    match start {
        Start::Fixed(fixed) if *fixed != khz => Err(Cause::SpeedChanged),
        Start::Fixed(_) | Start::Same(_) | Start::Listed(_) => Ok(()),
    }
}

/// What a thread that comes is refused for where another one leaves.
fn check_both(first: Found, second: Found) -> Result<(), Cause>
    ensures { (asked : asking.Asked) (previous next : trace.Thread) → first ≡ found asked.tasks previous → second ≡ found asked.tasks next
        → fault_in result ≡ spec.both_fault asked previous next }
{
    let number = first.whose().number;
    if number.is_some() && number == second.whose().number && first.pid != second.pid {
        return Err(Cause::TwoThreads);
    }
    Ok(())
}

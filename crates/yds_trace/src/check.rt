//! What a line, or a whole trace, is refused for.
ghost use Rattle.std.specs.Prelude.{◌≡◌, ◌||◌, List, false};
ghost use Rattle.yds_kernel.specs.Event as trace;
ghost use Rattle.yds_kernel.specs.declared.state.State.{State};
ghost use Rattle.yds_kernel.specs.Views.{event_read, said_read, thread_read};
ghost use Rattle.yds_trace.specs.Faults as spec;
ghost use Rattle.yds_trace.specs.Finding.{first_found, second_found};
ghost use Rattle.yds_trace.specs.Kept.{IsCounted, IsLines};
ghost use Rattle.yds_trace.specs.Parts.{came_back, leaves_at, came_before, changes_parts, is_known_so, part_fault, reaches_back_so, sleeps_before, wakes_at, was_there_before};
ghost use Rattle.yds_trace.specs.Passing.{fault_in};
ghost use Rattle.yds_trace.specs.Past.{up_to};
ghost use Rattle.yds_trace.specs.Views.{asked_read};

use crate::asked::Asked;
use crate::counted::Counted;
use crate::cut::Cut;
use crate::fault::Cause;
use crate::find::{Found, find, find_first, find_second};
use crate::limits::{MAX_PROCESSOR, MAX_TIME};
use crate::lines::Lines;
use crate::within::{is_before_to, is_behind_from};
use yds_kernel::{Event, Happening, Said, Since, Thread};

/// What an event is refused for, whatever stands before it.
pub(crate) fn check_place(event: &Event<'_>) -> Result<(), Cause>
    ensures { fault_in result ≡ spec.place_fault (event_read event.now) }
{
    check_processor(event.processor)?;
    if let Happening::Speed { processor, .. } = event.happening {
        check_processor(processor)?;
    }
    if event.time > MAX_TIME {
        return Err(Cause::TimeTooGreat);
    }
    Ok(())
}

/// What a line is refused for by the number of its processor.
pub(crate) fn check_processor(processor: u64) -> Result<(), Cause>
    ensures { fault_in result ≡ spec.processor_fault processor }
{
    if processor > MAX_PROCESSOR {
        return Err(Cause::ProcessorTooGreat);
    }
    Ok(())
}

/// Whether events were lost before an event, and the trace is to be whole.
fn is_torn(asked: &Asked, lines: &Lines, event: &Event<'_>) -> bool
    ensures { (past : List trace.Said) → IsLines (asked_read asked.now) past lines.now
        → result ≡ spec.is_torn (asked_read asked.now) past (event_read event.now) }
{
    !asked.cut_losses && lines.is_behind_loss(asked.from, asked.to, event)
}

/// What an event is refused for that stands where it may.
fn check_threads(
    asked: &Asked,
    lines: &Lines,
    counted: &Counted,
    event: &Event<'_>,
    first: Found,
    second: Found,
) -> Result<(), Cause>
    ensures { (past : List trace.Said) → IsLines (asked_read asked.now) past lines.now
        → IsCounted (asked_read asked.now) (up_to asked.now.to past) counted.now
        → first ≡ first_found (asked_read asked.now).tasks (event_read event.now).happening
        → second ≡ second_found (asked_read asked.now).tasks (event_read event.now).happening
        → fault_in result ≡ spec.threads_fault (asked_read asked.now) past (event_read event.now) }
{
    if !is_before_to(asked.to, event.time) {
        return counted.check_stayed(event, first);
    }
    if event.time < lines.past.last {
        return Err(Cause::TimeGoesBack);
    }
    let needs_wake_ups = !asked.cut_losses && !asked.begin_at_run;
    counted.check(
        &asked.start,
        needs_wake_ups,
        &event.happening,
        first,
        second,
    )
}

/// What an event is refused for where the trace is to be whole: switches of tasks are missing since a time, or none are.
fn check_loss(
    asked: &Asked,
    lines: &Lines,
    event: &Event<'_>,
    missing: Option<u64>,
) -> Result<(), Cause>
    ensures { (past : List trace.Said) → IsLines (asked_read asked.now) past lines.now
        → missing ≡ spec.missing_at (asked_read asked.now) past (event_read event.now)
        → fault_in result ≡ spec.loss_fault (asked_read asked.now) past (event_read event.now) }
{
    if is_torn(asked, lines, event) {
        return Err(Cause::EventsLost);
    }
    if !asked.cut_losses && missing.is_some() && is_behind_from(asked.from, event.time) {
        return Err(Cause::LineMissing);
    }
    Ok(())
}

/// What an event is refused for by the lines before it, but for how many of them tell of the tasks.
pub(crate) fn check_event(
    asked: &Asked,
    lines: &Lines,
    counted: &Counted,
    event: &Event<'_>,
    first: Found,
    second: Found,
    missing: Option<u64>,
) -> Result<(), Cause>
    ensures { (past : List trace.Said) → IsLines (asked_read asked.now) past lines.now
        → IsCounted (asked_read asked.now) (up_to asked.now.to past) counted.now
        → first ≡ first_found (asked_read asked.now).tasks (event_read event.now).happening
        → second ≡ second_found (asked_read asked.now).tasks (event_read event.now).happening
        → missing ≡ spec.missing_at (asked_read asked.now) past (event_read event.now)
        → fault_in result ≡ spec.behind_fault (asked_read asked.now) past (event_read event.now) }
{
    check_threads(asked, lines, counted, event, first, second)?;
    check_loss(asked, lines, event, missing)
}

/// What a trace is refused for whose lines are all taken.
pub(crate) fn check_whole(asked: &Asked, lines: &Lines) -> Result<(), Cause>
    ensures { (past : List trace.Said) → IsLines (asked_read asked.now) past lines.now
        → fault_in result ≡ spec.whole_fault (asked_read asked.now) past }
{
    if lines.past.first.is_none() {
        return Err(Cause::NoLine);
    }
    if !asked.cut_losses && lines.lost {
        return Err(Cause::EventsLost);
    }
    match lines.unseen() {
        Some(number) => Err(Cause::Unseen(number)),
        None => Ok(()),
    }
}

/// What a line is refused for behind the parts that are written.
pub(crate) fn check_parts(
    asked: &Asked,
    lines: &Lines,
    counted: &Counted,
    said: &Said<'_>,
    cut: Cut,
) -> Result<(), Cause>
    ensures { (past : List trace.Said) → IsLines (asked_read asked.now) past lines.now
        → IsCounted (asked_read asked.now) (up_to asked.now.to past) counted.now
        → fault_in result ≡ part_fault (asked_read asked.now) past cut (said_read said.now) }
{
    if changes_parts(asked, lines, counted, said, cut) {
        return Err(Cause::PartWritten);
    }
    Ok(())
}

/// Whether a line changes what is known of jobs that are written.
fn changes_parts(asked: &Asked, lines: &Lines, counted: &Counted, said: &Said<'_>, cut: Cut) -> bool
    ensures { (past : List trace.Said) → IsLines (asked_read asked.now) past lines.now
        → IsCounted (asked_read asked.now) (up_to asked.now.to past) counted.now
        → result ≡ changes_parts (asked_read asked.now) past cut (said_read said.now) }
{
    match said {
        Said::Event(event) => changes_by(asked, lines, counted, event, cut),
        Said::Lost { processor, since } => {
            lines.past.lost_since(*processor, *since) < cut.decided
        }
        Said::Nothing => false,
    }
}

/// Whether an event does.
fn changes_by(asked: &Asked, lines: &Lines, counted: &Counted, event: &Event<'_>, cut: Cut) -> bool
    ensures { (past : List trace.Said) → IsLines (asked_read asked.now) past lines.now
        → IsCounted (asked_read asked.now) (up_to asked.now.to past) counted.now
        → result ≡ changes_parts (asked_read asked.now) past cut (trace.Stamped (event_read event.now)) }
{
    match event.happening {
        Happening::Loss => {
            lines.past.lost_since(event.processor, Since::ItsLastLine) < cut.decided
        }
        Happening::Switch { previous, next, .. } => {
            are_missing_before(asked, counted, event, cut)
                || goes_back(asked, counted, event, previous, next, cut)
        }
        Happening::WakeUp { thread, starts } => {
            !starts && is_woken_back(asked, counted, event, thread, cut)
        }
        Happening::Speed { .. } | Happening::Marker | Happening::Other => false,
    }
}

/// Whether switches of tasks are missing before an event since a time before the last part was written.
fn are_missing_before(asked: &Asked, counted: &Counted, event: &Event<'_>, cut: Cut) -> bool
    ensures { (past : List trace.Said) → IsCounted (asked_read asked.now) (up_to asked.now.to past) counted.now
        → result ≡ reaches_back_so cut (spec.missing_at (asked_read asked.now) past (event_read event.now)) }
{
    let first = find_first(&asked.tasks, &event.happening);
    let second = find_second(&asked.tasks, &event.happening);
    match counted.missing_at(asked, event, first, second) {
        Some(time) => time < cut.decided,
        None => false,
    }
}

/// Whether a thread that leaves or comes by a switch changes what is known of jobs that are written.
fn goes_back(
    asked: &Asked,
    counted: &Counted,
    event: &Event<'_>,
    previous: Thread<'_>,
    next: Thread<'_>,
    cut: Cut,
) -> bool
    ensures { (past : List trace.Said) → IsCounted (asked_read asked.now) (up_to asked.now.to past) counted.now
        → (state : State)
        → result ≡ (was_there_before (asked_read asked.now) past cut (event_read event.now) (trace.Switch (thread_read previous.entry) state (thread_read next.entry))
        || came_back (asked_read asked.now) past cut (event_read event.now) (trace.Switch (thread_read previous.entry) state (thread_read next.entry))) }
{
    was_there(asked, counted, event, previous, cut)
        || comes_back(asked, counted, event, previous, next, cut)
}

/// Whether a listed thread leaves a processor that it may have had since before the parts that wait.
fn was_there(
    asked: &Asked,
    counted: &Counted,
    event: &Event<'_>,
    previous: Thread<'_>,
    cut: Cut,
) -> bool
    ensures { (past : List trace.Said) → IsCounted (asked_read asked.now) (up_to asked.now.to past) counted.now
        → (state : State) (next : trace.Thread)
        → result ≡ was_there_before (asked_read asked.now) past cut (event_read event.now) (trace.Switch (thread_read previous.entry) state next) }
{
    counted
        .past
        .is_new(event.processor, event.time, cut.boundary)
        && find(&asked.tasks, previous).whose().number.is_some()
}

/// Whether a listed thread comes behind a sleep without a wake-up since, whose last job began before the parts that wait, or one leaves
/// without having come, with a wake-up that was started before that sleep.
fn comes_back(
    asked: &Asked,
    counted: &Counted,
    event: &Event<'_>,
    previous: Thread<'_>,
    next: Thread<'_>,
    cut: Cut,
) -> bool
    ensures { (past : List trace.Said) → IsCounted (asked_read asked.now) (up_to asked.now.to past) counted.now
        → (state : State)
        → result ≡ came_back (asked_read asked.now) past cut (event_read event.now) (trace.Switch (thread_read previous.entry) state (thread_read next.entry)) }
{
    (leaves_at(asked, counted, event) && is_back(asked, counted, previous, cut))
        || (wakes_at(asked, event) && comes_again(asked, counted, next, cut))
}

/// Whether a listed thread isn't seen to have a processor, and a wake-up was started before it left to sleep, whose last job began before the
/// parts that wait.
fn is_back(asked: &Asked, counted: &Counted, thread: Thread<'_>, cut: Cut) -> bool
    ensures { (past : List trace.Said) → IsCounted (asked_read asked.now) (up_to asked.now.to past) counted.now
        → result ≡ is_known_so (asked_read asked.now) past (thread_read thread.entry) (came_before cut.boundary) }
{
    match find(&asked.tasks, thread).whose().number {
        Some(number) => counted.came_before(number, cut.boundary),
        None => false,
    }
}

/// Whether a listed thread left to sleep without a wake-up since, whose last job began before the parts that wait.
fn comes_again(asked: &Asked, counted: &Counted, thread: Thread<'_>, cut: Cut) -> bool
    ensures { (past : List trace.Said) → IsCounted (asked_read asked.now) (up_to asked.now.to past) counted.now
        → result ≡ is_known_so (asked_read asked.now) past (thread_read thread.entry) (sleeps_before cut.boundary) }
{
    match find(&asked.tasks, thread).whose().number {
        Some(number) => counted.sleeps_before(number, cut.boundary),
        None => false,
    }
}

/// Whether the wake-up of a listed thread is done that was started before it left to sleep, and its last job began before the parts that wait.
fn is_woken_back(
    asked: &Asked,
    counted: &Counted,
    event: &Event<'_>,
    thread: Thread<'_>,
    cut: Cut,
) -> bool
    ensures { (past : List trace.Said) → IsCounted (asked_read asked.now) (up_to asked.now.to past) counted.now
        → result ≡ came_back (asked_read asked.now) past cut (event_read event.now) (trace.WakeUp (thread_read thread.entry) false) }
{
    wakes_at(asked, event)
        && match find(&asked.tasks, thread).whose().number {
            Some(number) => counted.woken_before(number, cut.boundary),
            None => false,
        }
}

/// Whether an event counts, and jobs begin at wake-ups.
fn wakes_at(asked: &Asked, event: &Event<'_>) -> bool
    ensures { result ≡ wakes_at (asked_read asked.now) (event_read event.now) }
{
    is_before_to(asked.to, event.time) && !asked.begin_at_run
}

/// Whether jobs begin at wake-ups, and a switch counts for who leaves by it: it isn't behind `to`, or it is its processor's first one.
fn leaves_at(asked: &Asked, counted: &Counted, event: &Event<'_>) -> bool
    ensures { (past : List trace.Said) → IsCounted (asked_read asked.now) (up_to asked.now.to past) counted.now
        → result ≡ leaves_at (asked_read asked.now) past (event_read event.now) }
{
    !asked.begin_at_run
        && (is_before_to(asked.to, event.time) || !counted.past.has_switched(event.processor))
}

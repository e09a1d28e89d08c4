//! The tasks that `--tasks` lists.
ghost use Rattle.std.specs.Prelude.{◌≡◌, map, option_map};
ghost use Rattle.std.specs.List.{list_all, list_any};
ghost use Rattle.base.specs.Spelling.{is_visible};
ghost use Rattle.yds_trace.specs.Views.{task_read, which_read};
ghost use Rattle.yds_trace_words.specs.Letters.{text_of};
ghost use Rattle.yds_trace_words.specs.Tasks as spec;
ghost use Rattle.yds_trace_words.specs.Views.{Reads, bytes_read, called_read, times_read, tasks_read, fault_read};

use crate::decimal::decimal;
use crate::fault::{NoRequest, Reason, WordFault};
use crate::letter::{Letter, Sign, letters, pieces, split_at, text};
use crate::limits::{MAX_LABEL, MAX_TASKS};
use std::alloc::Global;
use yds_kernel::MAX_NUMBER;
use yds_text::number_of;
use yds_trace::{MAX_DEADLINE, Pace, Task, Which};

/// Which thread a task is, and how its jobs are called.
#[derive(Debug, Drop)]
pub(crate) struct Called {
    thread: Which,
    label: Vec<u8>,
}

/// A task's deadline, how far apart the begins of its jobs are at least, and its period, in nanoseconds.
#[derive(Clone, Copy, Debug)]
pub(crate) struct Times {
    deadline: u64,
    pace: Pace,
}

/// What this value of `--tasks` lists.
pub(crate) fn tasks<'a>(alloc: Global, unit: u64, value: &[u8]) -> Result<Vec<Task>, NoRequest<'a>>
    ensures { Reads tasks_read result (spec.tasks_in unit value.now) }
{
    let letters = letters(alloc, value)?;
    let pieces = pieces(alloc, &letters)?;
    tasks_of(alloc, unit, &pieces)
}

/// The tasks of these pieces.
fn tasks_of<'a>(alloc: Global, unit: u64, pieces: &[&[Letter]]) -> Result<Vec<Task>, NoRequest<'a>>
    ensures { Reads tasks_read result (spec.tasks_of unit (map (λ piece. piece.now) pieces.now)) }
{
    if pieces.len() > MAX_TASKS {
        return Err(NoRequest::Fault(WordFault::of(b"--tasks", Reason::TooManyTasks)));
    }
    let tasks = each_task(alloc, unit, pieces)?;
    match repeated(&tasks) {
        Some(fault) => Err(NoRequest::Fault(fault)),
        None => Ok(tasks),
    }
}

/// The tasks in their order, or the first that is refused.
fn each_task<'a>(alloc: Global, unit: u64, pieces: &[&[Letter]]) -> Result<Vec<Task>, NoRequest<'a>>
    ensures { Reads tasks_read result (spec.tasks_from unit 1 (map (λ piece. piece.now) pieces.now)) }
{
    let mut tasks = Vec::new(alloc);
    for (index, &piece) in pieces.iter().enumerate() {
        tasks.push(task(alloc, unit, index + 1, piece)?)?;
    }
    Ok(tasks)
}

/// The task at this place of the list.
fn task<'a>(
    alloc: Global,
    unit: u64,
    place: usize,
    letters: &[Letter],
) -> Result<Task, NoRequest<'a>>
    ensures { Reads task_read result (spec.task_at unit place letters.now) }
{
    let (name, behind) = split_at(letters, Sign::Colon);
    let Some(behind) = behind else {
        return Err(NoRequest::Fault(WordFault::of_task(place, Reason::TaskForm)));
    };
    let called = read_called(alloc, place, name)?;
    let times = read_times(alloc, unit, place, behind)?;
    Ok(Task {
        label: called.label,
        thread: called.thread,
        deadline: times.deadline,
        apart: times.pace.apart,
        period: times.pace.period,
    })
}

/// `NAME` or `PID=NAME`.
fn read_called<'a>(alloc: Global, place: usize, letters: &[Letter]) -> Result<Called, NoRequest<'a>>
    ensures { Reads called_read result (spec.called_at place letters.now) }
{
    let (pid, name) = split_at(letters, Sign::Equals);
    match name {
        Some(name) => {
            let pid = pid_of(alloc, place, pid)?;
            let label = label(alloc, place, name)?;
            Ok(Called {
                thread: Which::Numbered(pid),
                label,
            })
        }
        None => {
            let label = label(alloc, place, letters)?;
            Ok(Called {
                thread: Which::Named(label.clone()?),
                label,
            })
        }
    }
}

/// The number of a thread. That of the idle threads, 0, is none of a task.
fn pid_of<'a>(alloc: Global, place: usize, letters: &[Letter]) -> Result<u64, NoRequest<'a>>
    ensures { Reads (λ pid. pid) result (spec.pid_at place letters.now) }
{
    match number_of(&text(alloc, letters)?, 1, MAX_NUMBER) {
        Ok(pid) => Ok(pid),
        Err(_) => Err(NoRequest::Fault(WordFault::of_task(place, Reason::Pid))),
    }
}

/// How a task's jobs are called.
fn label<'a>(alloc: Global, place: usize, letters: &[Letter]) -> Result<Vec<u8>, NoRequest<'a>>
    ensures { Reads bytes_read result (spec.label_at place (text_of letters.now)) }
{
    let label = text(alloc, letters)?;
    if is_label(&label) {
        Ok(label)
    } else {
        Err(NoRequest::Fault(WordFault::of_task(place, Reason::Label)))
    }
}

/// Whether it is a name from which those of jobs are made.
fn is_label(text: &[u8]) -> bool
    ensures { result ≡ spec.is_label text.now }
{
    !text.is_empty() && text.len() <= MAX_LABEL && are_visible(text)
}

fn are_visible(text: &[u8]) -> bool
    ensures { result ≡ list_all is_visible text.now }
{
    text.iter().all(|byte| byte.is_ascii_graphic())
}

/// `DEADLINE`, and behind a colon how its jobs follow one another.
fn read_times<'a>(
    alloc: Global,
    unit: u64,
    place: usize,
    letters: &[Letter],
) -> Result<Times, NoRequest<'a>>
    ensures { Reads times_read result (spec.times_at unit place letters.now) }
{
    let (deadline, behind) = split_at(letters, Sign::Colon);
    match behind {
        Some(behind) => {
            let deadline = deadline_of(alloc, unit, place, deadline)?;
            let pace = read_pace(alloc, place, behind)?;
            Ok(Times { deadline, pace })
        }
        None => {
            let deadline = deadline_of(alloc, unit, place, letters)?;
            let pace = Pace {
                apart: 0,
                period: 0,
            };
            Ok(Times { deadline, pace })
        }
    }
}

/// `APART` or `APART:PERIOD`.
fn read_pace<'a>(alloc: Global, place: usize, letters: &[Letter]) -> Result<Pace, NoRequest<'a>>
    ensures { Reads (λ pace. pace) result (spec.pace_at place letters.now) }
{
    let (apart, period) = split_at(letters, Sign::Colon);
    match period {
        Some(period) => {
            let apart = apart_of(alloc, place, apart)?;
            let period = period_of(alloc, place, period)?;
            Ok(Pace { apart, period })
        }
        None => {
            let apart = milliseconds(alloc, place, Reason::Apart, letters)?;
            Ok(Pace { apart, period: 0 })
        }
    }
}

/// How far apart the begins of jobs are at least, where a period stands behind it: empty, it is 0.
fn apart_of<'a>(alloc: Global, place: usize, letters: &[Letter]) -> Result<u64, NoRequest<'a>>
    ensures { Reads (λ time. time) result (spec.apart_at place letters.now) }
{
    match letters {
        [] => Ok(0),
        [_, ..] => milliseconds(alloc, place, Reason::Apart, letters),
    }
}

/// A period, which is above 0.
fn period_of<'a>(alloc: Global, place: usize, letters: &[Letter]) -> Result<u64, NoRequest<'a>>
    ensures { Reads (λ time. time) result (spec.period_at place letters.now) }
{
    let period = milliseconds(alloc, place, Reason::Period, letters)?;
    if 0 < period {
        Ok(period)
    } else {
        Err(NoRequest::Fault(WordFault::of_task(place, Reason::Period)))
    }
}

/// A deadline, which is at least a unit of time.
fn deadline_of<'a>(
    alloc: Global,
    unit: u64,
    place: usize,
    letters: &[Letter],
) -> Result<u64, NoRequest<'a>>
    ensures { Reads (λ time. time) result (spec.deadline_at unit place letters.now) }
{
    let deadline = milliseconds(alloc, place, Reason::Deadline, letters)?;
    if unit <= deadline {
        Ok(deadline)
    } else {
        Err(NoRequest::Fault(WordFault::of_task(place, Reason::ShortDeadline)))
    }
}

/// A number of milliseconds, as nanoseconds.
fn milliseconds<'a>(
    alloc: Global,
    place: usize,
    reason: Reason,
    letters: &[Letter],
) -> Result<u64, NoRequest<'a>>
    ensures { Reads (λ time. time) result (spec.milliseconds_at place reason letters.now) }
{
    match decimal(&text(alloc, letters)?, 6, MAX_DEADLINE) {
        Some(time) => Ok(time),
        None => Err(NoRequest::Fault(WordFault::of_task(place, reason))),
    }
}

/// The first task that stands there again, by its label or by its thread.
fn repeated<'a>(tasks: &[Task]) -> Option<WordFault<'a>>
    ensures { option_map fault_read result ≡ spec.different_from 1 (map task_read tasks.now) }
{
    let mut place = 1;
    let mut rest = tasks;
    while let [first, others @ ..] = rest {
        if let Some(reason) = again(first, others) {
            return Some(WordFault::of_task(place, reason));
        }
        place += 1;
        rest = others;
    }
    None
}

/// Whether one of the others has the task's label or is its thread.
fn again(task: &Task, others: &[Task]) -> Option<Reason>
    ensures { result ≡ spec.again_in (task_read task.now) (map task_read others.now) }
{
    if has_label(task, others) {
        Some(Reason::LabelTwice)
    } else if has_thread(task, others) {
        Some(Reason::ThreadTwice)
    } else {
        None
    }
}

/// Whether one of the others has the task's label.
fn has_label(task: &Task, others: &[Task]) -> bool
    ensures { result ≡ list_any (spec.is_same_label (task_read task.now)) (map task_read others.now) }
{
    for other in others {
        if task.label.as_slice() == other.label.as_slice() {
            return true;
        }
    }
    false
}

/// Whether one of the others is the task's thread, by its number.
fn has_thread(task: &Task, others: &[Task]) -> bool
    ensures { result ≡ list_any (spec.is_same_thread (task_read task.now)) (map task_read others.now) }
{
    for other in others {
        if is_same_pid(&task.thread, &other.thread) {
            return true;
        }
    }
    false
}

fn is_same_pid(one: &Which, other: &Which) -> bool
    ensures { result ≡ spec.is_same_pid (which_read one.now) (which_read other.now) }
{
    match (one, other) {
        (Which::Numbered(pid), Which::Numbered(other)) => *pid == *other,
        (Which::Numbered(_), Which::Named(_)) | (Which::Named(_), _) => false,
    }
}

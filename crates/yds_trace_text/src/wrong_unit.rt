//! Comments on deadlines and distances that are likely in another unit, and on tasks that lack a period.
ghost use Rattle.std.specs.Prelude.{◌≡◌, ◌-◌, ◌*◌, ◌++◌, OnOk, IfOk, length, map, nat_lt};
ghost use Rattle.yds_trace.specs.Views.{task_read};
ghost use Rattle.yds_trace_document.specs.Views.{judged_list, judged_lists};
ghost use Rattle.yds_trace_text.specs.Text as spec;

use crate::bytes::put_comment;
use crate::numbers::{decimal, in_milliseconds};
use base::Memory;
use std::alloc::Global;
use yds_trace::Task;
use yds_trace_document::Judged;

/// The begins of jobs that are known.
fn known_begins(alloc: Global, judged: &[Judged<'_>]) -> Result<Vec<u64>, Memory>
    ensures { IfOk result (λ begins. begins.items ≡ spec.known_begins (judged_list judged.now)) }
{
    let mut begins = Vec::new(alloc);
    for one in judged {
        if one.job.begin_known {
            begins.push(one.job.begin)?;
        }
    }
    Ok(begins)
}

/// The mean distance of begins, rounded down, where there are two at different times.
fn mean_distance(begins: &[u64]) -> Option<u64>
    ensures { result ≡ spec.mean_distance begins.now }
{
    match begins {
        [first, rest @ ..] => mean_behind(*first, rest),
        [] => None,
    }
}

#[tactic(auto, using(crate::proofs::Read::last_at))]
fn mean_behind(first: u64, rest: &[u64]) -> Option<u64>
    ensures { result ≡ spec.mean_behind first rest.now }
{
    if rest.is_empty() {
        return None;
    }
    let last = rest[rest.len() - 1];
    if first < last {
        Some((last - first) / rest.len() as u64)
    } else {
        None
    }
}

/// Whether a hundred times the number is below the other.
fn is_far_below(number: u64, other: u64) -> bool
    ensures { result ≡ nat_lt (100 * number) other }
{
    match number.checked_mul(100) {
        Some(hundred) => hundred < other,
        None => false,
    }
}

/// The comment on a time that is likely in another unit.
fn put_distance(
    alloc: Global,
    what: &'static [u8],
    label: &[u8],
    value: u64,
    how: &'static [u8],
    mean: u64,
    text: &mut Vec<u8>,
) -> Result<(), Memory>
    ensures { OnOk result (text.new.items ≡ text.old.items ++ spec.distance_comment what.now label.now value how.now mean) }
{
    let label = Vec::from_slice(alloc, label)?;
    let value = in_milliseconds(alloc, value)?;
    let mean = in_milliseconds(alloc, mean)?;
    put_comment(
        &[
            what,
            label.as_slice(),
            b", ".as_slice(),
            value.as_slice(),
            b" ms, is ".as_slice(),
            how,
            b" the mean distance of its jobs' begins, ".as_slice(),
            mean.as_slice(),
            b" ms: is it in another unit?".as_slice(),
        ],
        text,
    )
}

/// The comment on a time, if it is likely in another unit.
#[tactic(auto, unfolding(crate::specs::Text::unit_comment))]
fn put_wrong(
    alloc: Global,
    what: &'static [u8],
    label: &[u8],
    value: u64,
    mean: Option<u64>,
    text: &mut Vec<u8>,
) -> Result<(), Memory>
    ensures { OnOk result (text.new.items ≡ text.old.items ++ spec.unit_comment what.now label.now value mean) }
{
    let Some(mean) = mean else {
        return Ok(());
    };
    if is_far_below(mean, value) {
        put_distance(
            alloc,
            what,
            label,
            value,
            b"more than 100 times",
            mean,
            text,
        )
    } else if is_far_below(value, mean) {
        put_distance(
            alloc,
            what,
            label,
            value,
            b"less than a hundredth of",
            mean,
            text,
        )
    } else {
        Ok(())
    }
}

/// The comments on a task's deadline, APART and period.
fn put_wrong_units(
    alloc: Global,
    task: &Task,
    judged: &[Judged<'_>],
    text: &mut Vec<u8>,
) -> Result<(), Memory>
    ensures { OnOk result (text.new.items ≡ text.old.items ++ spec.unit_comments (task_read task.now) (judged_list judged.now)) }
{
    let begins = known_begins(alloc, judged)?;
    put_begins(alloc, task, &begins, text)
}

/// The same by the begins of its jobs.
fn put_begins(alloc: Global, task: &Task, begins: &[u64], text: &mut Vec<u8>) -> Result<(), Memory>
    ensures { OnOk result (text.new.items ≡ text.old.items ++ spec.begins_comments (task_read task.now) begins.now) }
{
    let mean = mean_distance(begins);
    put_both(alloc, task, mean, text)?;
    put_period(alloc, task, begins.len() as u64, mean, text)
}

/// Whether a number is less than a hundred times the other.
fn is_within_hundred(number: u64, other: u64) -> bool
    ensures { result ≡ nat_lt number (100 * other) }
{
    match other.checked_mul(100) {
        Some(hundred) => number < hundred,
        None => true,
    }
}

/// Whether a task has no period, and its jobs begin farther apart than its deadline.
fn lacks_period(task: &Task, mean: u64) -> bool
    ensures { result ≡ spec.lacks_period (task_read task.now) mean }
{
    task.period == 0
        && is_within_hundred(task.deadline, mean.saturating_sub(task.deadline))
        && !is_far_below(task.deadline, mean)
}

/// The comment on a task that lacks a period, of which so many begins are known, if it does.
#[tactic(auto, unfolding(crate::specs::Text::period_comment))]
fn put_period(
    alloc: Global,
    task: &Task,
    number: u64,
    mean: Option<u64>,
    text: &mut Vec<u8>,
) -> Result<(), Memory>
    ensures { OnOk result (text.new.items ≡ text.old.items ++ spec.period_comment (task_read task.now) number mean) }
{
    let Some(mean) = mean else {
        return Ok(());
    };
    if lacks_period(task, mean) {
        put_without_period(alloc, task, number, mean, text)
    } else {
        Ok(())
    }
}

fn put_without_period(
    alloc: Global,
    task: &Task,
    number: u64,
    mean: u64,
    text: &mut Vec<u8>,
) -> Result<(), Memory>
    ensures { OnOk result (text.new.items ≡ text.old.items ++ spec.without_period_comment (task_read task.now) number mean) }
{
    let label = Vec::from_slice(alloc, &task.label)?;
    let begins = decimal(alloc, number)?;
    let mean = in_milliseconds(alloc, mean)?;
    let deadline = in_milliseconds(alloc, task.deadline)?;
    put_comment(
        &[
            label.as_slice(),
            b": ".as_slice(),
            begins.as_slice(),
            b" begins, ".as_slice(),
            mean.as_slice(),
            b" ms apart in the mean, a deadline of ".as_slice(),
            deadline.as_slice(),
            b" ms: a period would tell frames that fall behind".as_slice(),
        ],
        text,
    )
}

fn put_both(alloc: Global, task: &Task, mean: Option<u64>, text: &mut Vec<u8>) -> Result<(), Memory>
    ensures { OnOk result (text.new.items ≡ text.old.items ++ spec.both_comments (task_read task.now) mean) }
{
    put_deadline(alloc, task, mean, text)?;
    put_apart(alloc, task, mean, text)
}

fn put_deadline(
    alloc: Global,
    task: &Task,
    mean: Option<u64>,
    text: &mut Vec<u8>,
) -> Result<(), Memory>
    ensures { OnOk result (text.new.items ≡ text.old.items ++ spec.deadline_comment (task_read task.now) mean) }
{
    put_wrong(
        alloc,
        b"the deadline of ",
        &task.label,
        task.deadline,
        mean,
        text,
    )
}

fn put_apart(
    alloc: Global,
    task: &Task,
    mean: Option<u64>,
    text: &mut Vec<u8>,
) -> Result<(), Memory>
    ensures { OnOk result (text.new.items ≡ text.old.items ++ spec.apart_comment (task_read task.now) mean) }
{
    if task.apart == 0 {
        Ok(())
    } else {
        put_wrong(alloc, b"APART of ", &task.label, task.apart, mean, text)
    }
}

/// The comments on all tasks.
pub(crate) fn put_all_wrong_units(
    alloc: Global,
    tasks: &[Task],
    by_task: &[Vec<Judged<'_>>],
    text: &mut Vec<u8>,
) -> Result<(), Memory>
    ensures { OnOk result (text.new.items ≡ text.old.items ++ spec.all_unit_comments (map task_read tasks.now) (judged_lists by_task.now)) }
{
    for number in 0..tasks.len().min(by_task.len()) {
        put_wrong_units(alloc, &tasks[number], &by_task[number], text)?;
    }
    Ok(())
}

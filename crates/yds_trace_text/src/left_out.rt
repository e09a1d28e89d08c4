//! Comments on jobs that are left out: a line for each task and reason, the most frequent first.
ghost use Rattle.std.specs.Prelude.{◌≡◌, ◌++◌, ◌∷◌, [], OnOk, IfOk, filter, map, count_by};
ghost use Rattle.std.specs.List.{flat_map};
ghost use Rattle.yds_trace.specs.Views.{task_read};
ghost use Rattle.yds_trace_document.specs.Views.{judged_read, judged_list, judged_lists};
ghost use Rattle.yds_trace_text.specs.Text as spec;
ghost use Rattle.yds_trace_text.specs.Views.{name_or_none, group_read, groups_read};

use crate::bytes::put_comment;
use crate::late::reason_text;
use crate::numbers::{counted, decimal};
use base::Memory;
use std::alloc::Global;
use yds_kernel::MAX_U64;
use yds_trace::{Reason, Task};
use yds_trace_document::{Judged, Name};

/// The reasons for which jobs are left out, but for `from` and `to`.
const REASONS: [Reason; 7] = [
    Reason::NotEnded,
    Reason::EventsLost,
    Reason::SwitchMissing,
    Reason::BeginUnseen,
    Reason::DueBefore,
    Reason::Moved,
    Reason::SpeedUnknown,
];

/// The jobs of one task that are left out for one reason.
#[derive(Clone, Copy, Debug)]
pub(crate) struct Group<'a> {
    label: &'a [u8],
    reason: Reason,
    count: u64,
    first: Option<Name<'a>>,
    last: Option<Name<'a>>,
}

/// A name, or nothing.
pub(crate) fn name_text(alloc: Global, name: Option<Name<'_>>) -> Result<Vec<u8>, Memory>
    ensures { IfOk result (λ text. text.items ≡ name_or_none name.entry) }
{
    match name {
        Some(name) => name.text(alloc),
        None => Ok(Vec::new(alloc)),
    }
}

/// Whether a job is left out for this reason.
fn is_left_out_for(reason: Reason, judged: &Judged<'_>) -> bool
    ensures { result ≡ spec.is_left_out_for reason (judged_read judged.now) }
{
    judged.late.is_none() && judged.reason == Some(reason)
}

/// The jobs of a task that are left out for this reason.
fn left_out_for<'a>(
    alloc: Global,
    reason: Reason,
    judged: &[Judged<'a>],
) -> Result<Vec<Judged<'a>>, Memory>
    ensures { IfOk result (λ jobs. judged_list jobs.items ≡ filter (spec.is_left_out_for reason) (judged_list judged.entry.now)) }
{
    let mut jobs = Vec::new(alloc);
    for one in judged {
        if is_left_out_for(reason, one) {
            jobs.push(*one)?;
        }
    }
    Ok(jobs)
}

/// The group of these jobs.
fn group_of<'a>(label: &'a [u8], reason: Reason, jobs: &[Judged<'a>]) -> Group<'a>
    ensures { group_read result ≡ spec.group_of label.entry.now reason (judged_list jobs.entry.now) }
{
    Group {
        label,
        reason,
        count: jobs.len() as u64,
        first: first_name(jobs),
        last: last_name(jobs),
    }
}

fn first_name<'a>(jobs: &[Judged<'a>]) -> Option<Name<'a>>
    ensures { name_or_none result ≡ spec.first_name (judged_list jobs.entry.now) }
{
    match jobs.first() {
        Some(job) => Some(job.name),
        None => None,
    }
}

#[tactic(auto, using(crate::proofs::Read::last_name_is))]
fn last_name<'a>(jobs: &[Judged<'a>]) -> Option<Name<'a>>
    ensures { name_or_none result ≡ spec.last_name (judged_list jobs.entry.now) }
{
    if jobs.is_empty() {
        None
    } else {
        Some(jobs[jobs.len() - 1].name)
    }
}

/// Puts the group of a task for one reason behind the others, if it has jobs.
fn put_group_for<'a>(
    alloc: Global,
    label: &'a [u8],
    judged: &[Judged<'a>],
    reason: Reason,
    groups: &mut Vec<Group<'a>>,
) -> Result<(), Memory>
    ensures { OnOk result (groups_read groups.new.items ≡ groups_read groups.old.items
        ++ filter spec.has_jobs (spec.group_for label.entry.now (judged_list judged.entry.now) reason ∷ [])) }
{
    let jobs = left_out_for(alloc, reason, judged)?;
    let group = group_of(label, reason, &jobs);
    if group.count > 0 {
        groups.push(group)?;
    }
    Ok(())
}

/// Puts the groups of a task for these reasons behind the others, those that have jobs.
fn put_groups<'a>(
    alloc: Global,
    label: &'a [u8],
    judged: &[Judged<'a>],
    reasons: &[Reason],
    groups: &mut Vec<Group<'a>>,
) -> Result<(), Memory>
    ensures { OnOk result (groups_read groups.new.items ≡ groups_read groups.old.items
        ++ filter spec.has_jobs (map (spec.group_for label.entry.now (judged_list judged.entry.now)) reasons.now)) }
{
    for reason in reasons {
        put_group_for(alloc, label, judged, *reason, groups)?;
    }
    Ok(())
}

/// The groups of all tasks.
fn all_groups<'a>(
    alloc: Global,
    tasks: &'a [Task],
    by_task: &[Vec<Judged<'a>>],
) -> Result<Vec<Group<'a>>, Memory>
    ensures { IfOk result (λ groups. groups_read groups.items ≡ spec.all_groups (map task_read tasks.entry.now) (judged_lists by_task.entry.now)) }
{
    let mut groups = Vec::new(alloc);
    for number in 0..tasks.len().min(by_task.len()) {
        put_groups(
            alloc,
            &tasks[number].label,
            &by_task[number],
            &REASONS,
            &mut groups,
        )?;
    }
    Ok(groups)
}

/// These with the most frequent first.
fn in_order_of_counts<'a>(groups: Vec<Group<'a>>) -> Result<Vec<Group<'a>>, Memory>
    ensures { IfOk result (λ sorted. groups_read sorted.items ≡ spec.most_first (groups_read groups.entry.items)) }
{
    let mut groups = groups;
    groups.sort_by_key(|group| MAX_U64.saturating_sub(group.count))?;
    Ok(groups)
}

/// The comment on a group.
fn put_group(alloc: Global, group: &Group<'_>, text: &mut Vec<u8>) -> Result<(), Memory>
    ensures { OnOk result (text.new.items ≡ text.old.items ++ spec.group_comment (group_read group.now)) }
{
    if group.count == 1 {
        put_one(alloc, group, text)
    } else {
        put_some(alloc, group, text)
    }
}

/// The comment on the one job of a group.
fn put_one(alloc: Global, group: &Group<'_>, text: &mut Vec<u8>) -> Result<(), Memory>
    ensures { OnOk result (text.new.items ≡ text.old.items ++ spec.one_left_out (group_read group.now)) }
{
    let first = name_text(alloc, group.first)?;
    put_comment(
        &[
            b"left out: ".as_slice(),
            first.as_slice(),
            b" (".as_slice(),
            reason_text(Some(group.reason)),
            b")".as_slice(),
        ],
        text,
    )
}

/// The comment on the jobs of a group.
fn put_some(alloc: Global, group: &Group<'_>, text: &mut Vec<u8>) -> Result<(), Memory>
    ensures { OnOk result (text.new.items ≡ text.old.items ++ spec.some_left_out (group_read group.now)) }
{
    let first = name_text(alloc, group.first)?;
    let last = name_text(alloc, group.last)?;
    let label = Vec::from_slice(alloc, group.label)?;
    let number = decimal(alloc, group.count)?;
    put_comment(
        &[
            b"left out: ".as_slice(),
            number.as_slice(),
            b" jobs of ".as_slice(),
            label.as_slice(),
            b" (".as_slice(),
            reason_text(Some(group.reason)),
            b"), the first ".as_slice(),
            first.as_slice(),
            b", the last ".as_slice(),
            last.as_slice(),
        ],
        text,
    )
}

/// The comments on these groups.
fn put_each_group(alloc: Global, groups: &[Group<'_>], text: &mut Vec<u8>) -> Result<(), Memory>
    ensures { OnOk result (text.new.items ≡ text.old.items ++ flat_map spec.group_comment (groups_read groups.now)) }
{
    for group in groups {
        put_group(alloc, group, text)?;
    }
    Ok(())
}

/// Whether `from` or `to` cut a job off.
fn is_cut_off(judged: &Judged<'_>) -> bool
    ensures { result ≡ spec.is_cut_off (judged_read judged.now) }
{
    is_left_out_for(Reason::BeforeFrom, judged) || is_left_out_for(Reason::AfterTo, judged)
}

/// How many jobs are cut off.
fn cut_off(judged: &[Judged<'_>]) -> usize
    ensures { result ≡ count_by (λ one. spec.is_cut_off (judged_read one)) judged.now }
{
    judged.iter().filter(|one| is_cut_off(one)).count()
}

/// The comment on jobs that are cut off, if there are any.
fn put_cut_off(alloc: Global, number: u64, text: &mut Vec<u8>) -> Result<(), Memory>
    ensures { OnOk result (text.new.items ≡ text.old.items ++ spec.cut_off_comment number) }
{
    if number == 0 {
        return Ok(());
    }
    let jobs = counted(alloc, number, b"job", b"jobs")?;
    put_comment(
        &[
            b"left out: ".as_slice(),
            jobs.as_slice(),
            b" before from or after to".as_slice(),
        ],
        text,
    )
}

/// The comments on all jobs that are left out.
#[tactic(auto, using(yds_trace_document::proofs::Lists::count_by_map))]
pub(crate) fn put_left_out(
    alloc: Global,
    tasks: &[Task],
    by_task: &[Vec<Judged<'_>>],
    judged: &[Judged<'_>],
    text: &mut Vec<u8>,
) -> Result<(), Memory>
    ensures { OnOk result (text.new.items ≡ text.old.items ++ spec.left_out_comments (map task_read tasks.now) (judged_lists by_task.now) (judged_list judged.now)) }
{
    let groups = all_groups(alloc, tasks, by_task)?;
    let groups = in_order_of_counts(groups)?;
    put_each_group(alloc, &groups, text)?;
    put_cut_off(alloc, cut_off(judged) as u64, text)
}

//! Comments on begins and ends of jobs that no run shows, and on threads that were over, or left to sleep and didn't.
ghost use Rattle.std.specs.Prelude.{◌≡◌, ◌++◌, ◌∷◌, [], OnOk, IfOk};
ghost use Rattle.std.specs.List.{flat_map};
ghost use Rattle.yds_trace.specs.Document as document;
ghost use Rattle.yds_trace_document.specs.Views.{units_read, runs_read, judged_read, judged_list};
ghost use Rattle.yds_trace_text.specs.Text as spec;

use crate::bytes::put_comment;
use crate::numbers::decimal;
use base::Memory;
use std::alloc::Global;
use yds_trace::Stretch;
use yds_trace_document::{Judged, Run, Units, is_open, runs_end, written_end, written_runs};

/// The begin of the first stretch that takes time.
fn first_begin(stretches: &[Stretch]) -> Option<u64>
    ensures { result ≡ spec.first_begin stretches.now }
{
    for stretch in stretches {
        if stretch.from < stretch.to {
            return Some(stretch.from);
        }
    }
    None
}

/// Whether the runs begin later than this, or there is none.
fn begin_later(time: u64, runs: &[Run]) -> bool
    ensures { result ≡ spec.begin_later time (runs_read runs.now) }
{
    match runs.first() {
        Some(run) => time < run.from,
        None => true,
    }
}

/// Whether the runs end before this, or there is none.
fn end_earlier(time: u64, runs: &[Run]) -> bool
    ensures { result ≡ spec.end_earlier time (runs_read runs.now) }
{
    runs.is_empty() || runs_end(runs) < time
}

/// Whether a job's lateness is told, and its runs don't show it.
fn end_is_told(units: Units, judged: &Judged<'_>, runs: &[Run]) -> bool
    requires { runs_read runs.now ≡ document.written_runs (units_read units) (judged_read judged.now).job }
    ensures { result ≡ spec.end_is_told (units_read units) (judged_read judged.now) }
{
    let due = units.written_time(judged.due);
    judged.late.is_some()
        && (is_open(judged.job.end)
            || written_end(units, judged.job.end) <= due
            || runs_end(runs) <= due)
}

/// Where a job's first run is within one unit of time, when it began.
#[tactic(auto, using(crate::proofs::Read::read_back))]
fn put_begins(
    alloc: Global,
    units: Units,
    judged: &Judged<'_>,
    runs: &[Run],
    text: &mut Vec<u8>,
) -> Result<(), Memory>
    requires { runs_read runs.now ≡ document.written_runs (units_read units) (judged_read judged.now).job }
    ensures { OnOk result (text.new.items ≡ text.old.items ++ spec.begins_comment (units_read units) (judged_read judged.now)) }
{
    let Some(begin) = first_begin(&judged.job.stretches) else {
        return Ok(());
    };
    let time = units.written_time(begin);
    if !begin_later(time, runs) {
        return Ok(());
    }
    put_end(alloc, b"begins: ", judged, time, text)
}

/// Where a job's last run is within one unit of time, when it ended.
fn put_ends(
    alloc: Global,
    units: Units,
    judged: &Judged<'_>,
    runs: &[Run],
    text: &mut Vec<u8>,
) -> Result<(), Memory>
    requires { runs_read runs.now ≡ document.written_runs (units_read units) (judged_read judged.now).job }
    ensures { OnOk result (text.new.items ≡ text.old.items ++ spec.ends_comment (units_read units) (judged_read judged.now)) }
{
    let time = written_end(units, judged.job.end);
    if is_open(judged.job.end) || end_is_told(units, judged, runs) || !end_earlier(time, runs) {
        return Ok(());
    }
    put_end(alloc, b"ends: ", judged, time, text)
}

/// A comment on a job's begin or end.
fn put_end(
    alloc: Global,
    what: &[u8],
    judged: &Judged<'_>,
    time: u64,
    text: &mut Vec<u8>,
) -> Result<(), Memory>
    ensures { OnOk result (text.new.items ≡ text.old.items ++ spec.end_comment what.now (document.written_name (judged_read judged.now)) time) }
{
    let name = judged.name.text(alloc)?;
    let number = decimal(alloc, time)?;
    put_comment(
        &[what, name.as_slice(), b" ".as_slice(), number.as_slice()],
        text,
    )
}

/// The comments on a job's begin and end, if it stands as it is.
fn put_standing(
    alloc: Global,
    units: Units,
    judged: &Judged<'_>,
    text: &mut Vec<u8>,
) -> Result<(), Memory>
    ensures { OnOk result (text.new.items ≡ text.old.items ++ spec.standing_comments (units_read units) (judged_read judged.now)) }
{
    if judged.reason.is_some() {
        return Ok(());
    }
    let runs = written_runs(alloc, units, judged.job)?;
    put_begins(alloc, units, judged, &runs, text)?;
    put_ends(alloc, units, judged, &runs, text)
}

/// A comment that names a job.
fn put_named(
    alloc: Global,
    what: &[u8],
    judged: &Judged<'_>,
    text: &mut Vec<u8>,
) -> Result<(), Memory>
    ensures { OnOk result (text.new.items ≡ text.old.items ++ spec.comment (what.now ∷ document.written_name (judged_read judged.now) ∷ [])) }
{
    let name = judged.name.text(alloc)?;
    put_comment(&[what, name.as_slice()], text)
}

/// The comment on a thread that was over with its job.
fn put_exited(alloc: Global, judged: &Judged<'_>, text: &mut Vec<u8>) -> Result<(), Memory>
    ensures { OnOk result (text.new.items ≡ text.old.items ++ spec.exited_comment (judged_read judged.now)) }
{
    if !judged.job.exited {
        return Ok(());
    }
    put_named(alloc, b"exited: ", judged, text)
}

/// The comment on a thread that left to sleep within its job, and didn't.
fn put_slept(alloc: Global, judged: &Judged<'_>, text: &mut Vec<u8>) -> Result<(), Memory>
    ensures { OnOk result (text.new.items ≡ text.old.items ++ spec.slept_comment (judged_read judged.now)) }
{
    if judged.job.slept.is_none() {
        return Ok(());
    }
    put_named(
        alloc,
        b"went on behind a sleep without a wake-up: ",
        judged,
        text,
    )
}

/// The comments on the thread of a job that isn't left out.
fn put_thread(alloc: Global, judged: &Judged<'_>, text: &mut Vec<u8>) -> Result<(), Memory>
    ensures { OnOk result (text.new.items ≡ text.old.items ++ spec.thread_comments (judged_read judged.now)) }
{
    if judged.reason.is_some() && judged.late.is_none() {
        return Ok(());
    }
    put_exited(alloc, judged, text)?;
    put_slept(alloc, judged, text)
}

/// The comments on a job's begin and end, and on its thread.
fn put_shown(
    alloc: Global,
    units: Units,
    judged: &Judged<'_>,
    text: &mut Vec<u8>,
) -> Result<(), Memory>
    ensures { OnOk result (text.new.items ≡ text.old.items ++ spec.shown_comments (units_read units) (judged_read judged.now)) }
{
    put_standing(alloc, units, judged, text)?;
    put_thread(alloc, judged, text)
}

/// The comments on the begins, ends and threads of these jobs.
pub(crate) fn put_all_shown(
    alloc: Global,
    units: Units,
    judged: &[Judged<'_>],
    text: &mut Vec<u8>,
) -> Result<(), Memory>
    ensures { OnOk result (text.new.items ≡ text.old.items ++ flat_map (spec.shown_comments (units_read units)) (judged_list judged.now)) }
{
    for one in judged {
        put_shown(alloc, units, one, text)?;
    }
    Ok(())
}

//! Comments on late jobs: just one for each.
ghost use Rattle.std.specs.Prelude.{◌≡◌, ◌≤◌, ◌++◌, length, OnOk, IfOk, Some, codes, is_some, if◌then◌else◌};
ghost use Rattle.std.specs.List.{flat_map};
ghost use Rattle.yds_trace.specs.Views.{job_read};
ghost use Rattle.yds_trace.specs.Document as document;
ghost use Rattle.yds_trace_document.specs.Views.{units_read, runs_read, judged_read, judged_list};
ghost use Rattle.yds_trace_text.specs.Text as spec;

use crate::bytes::{put, put_comment};
use crate::numbers::{decimal, in_milliseconds};
use base::Memory;
use std::alloc::Global;
use yds_trace::{Job, Reason};
use yds_trace_document::{Judged, Name, Run, Units, is_open, runs_end, written_end, written_runs};

/// Why a job doesn't stand as it is, in words.
pub fn reason_words(reason: Reason) -> &'static str
    ensures text { result.now ≡ spec.reason_text (Some reason) }
    ensures short { length result.now ≤ 28 }
{
    match reason {
        Reason::BeforeFrom => "before from",
        Reason::AfterTo => "after to",
        Reason::NotEnded => "not ended",
        Reason::EventsLost => "events lost",
        Reason::SwitchMissing => "a switch is missing",
        Reason::BeginUnseen => "its begin isn't in the trace",
        Reason::DueBefore => "due before it begins",
        Reason::Moved => "ran on another processor",
        Reason::SpeedUnknown => "frequency not known",
    }
}

/// Why a job doesn't stand as it is, if it doesn't.
pub(crate) fn reason_text(reason: Option<Reason>) -> &'static [u8]
    ensures { result.now ≡ spec.reason_text reason }
{
    match reason {
        None => b"",
        Some(reason) => reason_words(reason).as_bytes(),
    }
}

/// Whether a job's lateness is what is known at least, or up to where it was last seen open.
fn how_late(job: &Job) -> &'static [u8]
    ensures { result.now ≡ spec.how_late (job_read job.now) }
{
    if is_open(job.end) {
        b"not ended "
    } else if job.begin_known {
        b""
    } else {
        b"at least "
    }
}

/// A time in units of the document, rounded down; before time 0 it has a minus.
fn signed_time(alloc: Global, units: Units, time: u64) -> Result<Vec<u8>, Memory>
    ensures { IfOk result (λ text. text.items ≡ spec.signed_time (units_read units) time) }
{
    if time >= units.zero {
        return decimal(alloc, units.written_time(time));
    }
    let digits = decimal(alloc, (units.zero - time - 1) / units.time + 1)?;
    let mut text = Vec::from_slice(alloc, b"-")?;
    text.extend_from_slice(&digits)?;
    Ok(text)
}

/// A job's window, where its begin is known.
fn window_text(alloc: Global, units: Units, judged: &Judged<'_>) -> Result<Vec<u8>, Memory>
    ensures { IfOk result (λ text. text.items ≡ spec.window_text (units_read units) (judged_read judged.now)) }
{
    let mut text = Vec::new(alloc);
    if judged.job.begin_known {
        let release = signed_time(alloc, units, judged.job.begin)?;
        let deadline = signed_time(alloc, units, judged.due)?;
        put(
            &[
                b"; window ".as_slice(),
                release.as_slice(),
                b" ".as_slice(),
                deadline.as_slice(),
            ],
            &mut text,
        )?;
    }
    Ok(text)
}

/// By how much a job is late.
fn behind_deadline(alloc: Global, late: u64) -> Result<Vec<u8>, Memory>
    ensures { IfOk result (λ text. text.items ≡ spec.behind_deadline late) }
{
    let mut text = in_milliseconds(alloc, late)?;
    text.extend_from_slice(b" ms after its deadline")?;
    Ok(text)
}

/// The comment on a late job that is written without its runs.
fn put_without_runs(
    alloc: Global,
    units: Units,
    judged: &Judged<'_>,
    late: u64,
    text: &mut Vec<u8>,
) -> Result<(), Memory>
    ensures { OnOk result (text.new.items ≡ text.old.items ++ spec.without_runs_comment (units_read units) (judged_read judged.now) late) }
{
    let name = judged.name.text(alloc)?;
    let behind = behind_deadline(alloc, late)?;
    let window = window_text(alloc, units, judged)?;
    put_comment(
        &[
            b"late, without its runs: ".as_slice(),
            name.as_slice(),
            b" (".as_slice(),
            reason_text(judged.reason),
            b"), ".as_slice(),
            how_late(judged.job),
            behind.as_slice(),
            window.as_slice(),
        ],
        text,
    )
}

/// Whether a late job's work or its runs show that it is late.
fn late_kind(units: Units, judged: &Judged<'_>, runs: &[Run]) -> &'static [u8]
    requires { runs_read runs.now ≡ document.written_runs (units_read units) (judged_read judged.now).job }
    ensures { result.now ≡ spec.late_kind (units_read units) (judged_read judged.now) }
{
    let due = units.written_time(judged.due);
    if is_open(judged.job.end) {
        b"not ended: "
    } else if written_end(units, judged.job.end) <= due {
        b"late by less than a unit of time: "
    } else if runs_end(runs) <= due {
        behind_runs(judged.name)
    } else {
        b"late: "
    }
}

/// Where a late job whose runs are over by its deadline ended.
fn behind_runs(name: Name<'_>) -> &'static [u8]
    ensures { result.now ≡ (if is_some name.entry.part then codes "late on another processor: " else codes "late in a run within one tick: ") }
{
    if name.part.is_some() {
        b"late on another processor: "
    } else {
        b"late in a run within one tick: "
    }
}

/// The comment on a late job that stands as it is.
fn put_standing(
    alloc: Global,
    units: Units,
    judged: &Judged<'_>,
    late: u64,
    text: &mut Vec<u8>,
) -> Result<(), Memory>
    ensures { OnOk result (text.new.items ≡ text.old.items ++ spec.standing_comment (units_read units) (judged_read judged.now) late) }
{
    let runs = written_runs(alloc, units, judged.job)?;
    let name = judged.name.text(alloc)?;
    let behind = behind_deadline(alloc, late)?;
    put_comment(
        &[
            late_kind(units, judged, &runs),
            name.as_slice(),
            b", ".as_slice(),
            behind.as_slice(),
        ],
        text,
    )
}

/// The comment on a job, if it is late.
fn put_late(
    alloc: Global,
    units: Units,
    judged: &Judged<'_>,
    text: &mut Vec<u8>,
) -> Result<(), Memory>
    ensures { OnOk result (text.new.items ≡ text.old.items ++ spec.late_comment (units_read units) (judged_read judged.now)) }
{
    match judged.late {
        None => Ok(()),
        Some(late) if judged.reason.is_none() => put_standing(alloc, units, judged, late, text),
        Some(late) => put_without_runs(alloc, units, judged, late, text),
    }
}

/// The comments on the late ones of these jobs.
pub(crate) fn put_all_late(
    alloc: Global,
    units: Units,
    judged: &[Judged<'_>],
    text: &mut Vec<u8>,
) -> Result<(), Memory>
    ensures { OnOk result (text.new.items ≡ text.old.items ++ flat_map (spec.late_comment (units_read units)) (judged_list judged.now)) }
{
    for one in judged {
        put_late(alloc, units, one, text)?;
    }
    Ok(())
}

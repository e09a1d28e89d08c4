//! What is written of a processor behind a line, and its last part.
ghost use Rattle.std.specs.Prelude.{◌≡◌, ◌≤◌, List, [], Bool, true, None, Some, IfOk, IfErr, count_by};
ghost use Rattle.yds_kernel.specs.Event as trace;
ghost use Rattle.yds_kernel.specs.Parts.{capped};
ghost use Rattle.yds_trace.specs.Asked as asking;
ghost use Rattle.yds_trace.specs.Past.{last_time};
ghost use Rattle.yds_trace.specs.Parts as parts;
ghost use Rattle.yds_trace.specs.Shown.{IsShared};
ghost use Rattle.yds_trace.specs.Views.{asked_read};
ghost use Rattle.yds_trace_document.specs.Kept as kept;
ghost use Rattle.yds_trace_document.specs.PartKept.{IsWaiting, IsPart};
ghost use Rattle.yds_trace_document.specs.Views.{judged_list};
ghost use Rattle.yds_trace_parts.specs.Told.{part_halt, piece_at, has_written, next_number, part_processor};
ghost use Rattle.yds_trace_parts.specs.Telling.{IsHaltFor, IsText, text_alone, IsPieceAt, IsPiece, IsLast, Looks, HaltsBehind, without_job_at};

use crate::halt::Halt;
use crate::place::{is_much, is_too_much, is_written, open_longest, place_among};
use std::alloc::Global;
use yds_trace::{Asked, Cut, Shown};
use yds_trace_document::{Judged, Part, Waiting, judge_waiting, settle_part};
use yds_trace_text::part_text;

/// What is written of a processor behind a line, and what was written then.
#[derive(Debug, Drop)]
pub(crate) struct Piece {
    /// The text of a part; empty where none is written.
    pub text: Vec<u8>,
    pub cut: Cut,
}

/// The last part of a processor.
#[derive(Debug, Drop)]
pub(crate) struct Last {
    pub text: Vec<u8>,
    /// Whether it has a job, or a part before it has.
    pub has_job: bool,
}

/// What is written behind a line where it is looked for a part.
pub(crate) fn next_piece(
    alloc: Global,
    asked: &Asked,
    shown: &Shown,
    cut: Cut,
    strict: bool,
) -> Result<Piece, Halt>
    requires { kept.IsPlainShown asked.now shown.now }
    ensures made { (past : List trace.Said) → IsShared (asked_read asked.now) past cut.boundary shown.now
        → parts.is_due past ≡ true → IfOk result (IsPiece (asked_read asked.now) strict past cut) }
    ensures halts { (past : List trace.Said) → IsShared (asked_read asked.now) past cut.boundary shown.now
        → parts.is_due past ≡ true → IfErr result (HaltsBehind (asked_read asked.now) strict past cut) }
{
    let waiting = judge_waiting(alloc, asked, shown, cut.boundary)?;
    if !is_much(&waiting) {
        return Ok(no_piece(alloc, cut));
    }
    place_piece(alloc, asked, shown, waiting, cut, strict)
}

/// No text, and what was written stays.
fn no_piece(alloc: Global, cut: Cut) -> Piece
    ensures text { result.text.items ≡ [] }
    ensures same { result.cut ≡ cut }
{
    Piece {
        text: Vec::new(alloc),
        cut,
    }
}

/// The part of what waits, or that there is no place where it may end.
fn place_piece(
    alloc: Global,
    asked: &Asked,
    shown: &Shown,
    waiting: Waiting<'_>,
    cut: Cut,
    strict: bool,
) -> Result<Piece, Halt>
    requires has_unit { 1 ≤ asked.now.unit }
    requires has_speed_unit { 1 ≤ asked.now.khz }
    ensures made { (past : List trace.Said) → IsShared (asked_read asked.now) past cut.boundary shown.now → IsWaiting (asked_read asked.now) past cut waiting.entry
        → Looks (asked_read asked.now) past cut → IfOk result (IsPiece (asked_read asked.now) strict past cut) }
    ensures halts { (past : List trace.Said) → IsShared (asked_read asked.now) past cut.boundary shown.now → IsWaiting (asked_read asked.now) past cut waiting.entry
        → Looks (asked_read asked.now) past cut → IfErr result (HaltsBehind (asked_read asked.now) strict past cut) }
{
    match place_among(asked, shown, &waiting.judged) {
        Some(time) => whole_piece(alloc, asked, shown, waiting, cut, strict, time),
        None => no_place(alloc, asked, shown, &waiting, cut),
    }
}

/// Where there is no place to cut: the job that has been open longest, if more waits than may.
fn no_place(
    alloc: Global,
    asked: &Asked,
    shown: &Shown,
    waiting: &Waiting<'_>,
    cut: Cut,
) -> Result<Piece, Halt>
    ensures made { (strict : Bool) (past : List trace.Said) → IsShared (asked_read asked.now) past cut.boundary shown.now
        → IsWaiting (asked_read asked.now) past cut waiting.now → Looks (asked_read asked.now) past cut
        → parts.place_among (asked_read asked.now) past (parts.waiting (asked_read asked.now) past cut) ≡ None
        → IfOk result (IsPiece (asked_read asked.now) strict past cut) }
    ensures halts { (strict : Bool) (past : List trace.Said) → IsShared (asked_read asked.now) past cut.boundary shown.now
        → IsWaiting (asked_read asked.now) past cut waiting.now → Looks (asked_read asked.now) past cut
        → parts.place_among (asked_read asked.now) past (parts.waiting (asked_read asked.now) past cut) ≡ None
        → IfErr result (HaltsBehind (asked_read asked.now) strict past cut) }
{
    if !is_too_much(waiting) {
        return Ok(no_piece(alloc, cut));
    }
    match open_longest(asked, shown, &waiting.judged) {
        Some(judged) => Err(Halt::NoPlace {
            name: judged.name.job_text(alloc)?,
            begin: judged.job.begin,
            late: judged.late,
        }),
        None => Ok(no_piece(alloc, cut)),
    }
}

/// The part that ends at this time.
fn whole_piece(
    alloc: Global,
    asked: &Asked,
    shown: &Shown,
    waiting: Waiting<'_>,
    cut: Cut,
    strict: bool,
    time: u64,
) -> Result<Piece, Halt>
    requires has_unit { 1 ≤ asked.now.unit }
    requires has_speed_unit { 1 ≤ asked.now.khz }
    ensures made { (past : List trace.Said) → IsShared (asked_read asked.now) past cut.boundary shown.now → IsWaiting (asked_read asked.now) past cut waiting.entry
        → IfOk result (IsPieceAt (asked_read asked.now) strict past cut (Some time)) }
    ensures halts { (past : List trace.Said) → IsShared (asked_read asked.now) past cut.boundary shown.now → IsWaiting (asked_read asked.now) past cut waiting.entry
        → IfErr result (IsHaltFor (piece_at (asked_read asked.now) strict past cut (Some time)).halt) }
{
    let part = settle_part(alloc, asked, shown.first, waiting, Some(time))?;
    let text = text_with_job(alloc, asked, cut, strict, time, &part)?;
    let cut = cut_with(cut, time, shown.last, &part.settled.judged);
    Ok(Piece { text, cut })
}

/// The text of a part that ends at this time; a part without a job has none.
fn text_with_job(
    alloc: Global,
    asked: &Asked,
    cut: Cut,
    strict: bool,
    time: u64,
    part: &Part<'_>,
) -> Result<Vec<u8>, Halt>
    ensures made { (past : List trace.Said) → IsPart (asked_read asked.now) past cut (Some time) part.now
        → IfOk result (λ text. piece_at (asked_read asked.now) strict past cut (Some time) ≡ text_alone text.items) }
    ensures halts { (past : List trace.Said) → IsPart (asked_read asked.now) past cut (Some time) part.now
        → IfErr result (IsHaltFor (piece_at (asked_read asked.now) strict past cut (Some time)).halt) }
{
    if part.settled.judged.is_empty() {
        return Ok(Vec::new(alloc));
    }
    text_of(alloc, asked, cut, strict, Some(time), part)
}

/// What was written of a processor that has no job, behind a line where it is looked for a part.
pub(crate) fn without_job(
    alloc: Global,
    asked: &Asked,
    shown: &Shown,
    cut: Cut,
) -> Result<Cut, Halt>
    requires { kept.IsPlainShown asked.now shown.now }
    ensures made { (past : List trace.Said) → IsShared (asked_read asked.now) past cut.boundary shown.now → parts.is_due past ≡ true
        → IfOk result (λ next. next ≡ without_job_at past cut (parts.place_of (asked_read asked.now) past cut)) }
    ensures halts { IfErr result (IsHaltFor None) }
{
    let waiting = judge_waiting(alloc, asked, shown, cut.boundary)?;
    if !is_much(&waiting) {
        return Ok(cut);
    }
    match place_among(asked, shown, &waiting.judged) {
        Some(time) => Ok(cut_with(cut, time, shown.last, &[])),
        None => Ok(cut),
    }
}

/// The last part of a processor.
pub(crate) fn last_part(
    alloc: Global,
    asked: &Asked,
    shown: &Shown,
    cut: Cut,
    strict: bool,
) -> Result<Last, Halt>
    requires { kept.IsPlainShown asked.now shown.now }
    ensures made { (past : List trace.Said) → IsShared (asked_read asked.now) past cut.boundary shown.now
        → IfOk result (IsLast (asked_read asked.now) strict past cut) }
    ensures halts { (past : List trace.Said) → IsShared (asked_read asked.now) past cut.boundary shown.now
        → IfErr result (IsHaltFor (part_halt (asked_read asked.now) strict past cut None)) }
{
    let waiting = judge_waiting(alloc, asked, shown, cut.boundary)?;
    let part = settle_part(alloc, asked, shown.first, waiting, None)?;
    let text = text_of(alloc, asked, cut, strict, None, &part)?;
    let has_job = has_written(cut, &part);
    Ok(Last { text, has_job })
}

/// Whether a job is written in the last part, or in one before it.
fn has_written(cut: Cut, part: &Part<'_>) -> bool
    ensures { (asked : asking.Asked) (past : List trace.Said) → IsPart asked past cut None part.now → result ≡ has_written asked past cut }
{
    cut.jobs > 0 || !part.settled.jobs.is_empty()
}

/// The text of a part that ends at this time, or of the last one.
fn text_of(
    alloc: Global,
    asked: &Asked,
    cut: Cut,
    strict: bool,
    until: Option<u64>,
    part: &Part<'_>,
) -> Result<Vec<u8>, Halt>
    ensures made { (past : List trace.Said) → IsPart (asked_read asked.now) past cut until part.now
        → IfOk result (λ text. IsText (asked_read asked.now) strict past cut until text.items) }
    ensures halts { (past : List trace.Said) → IsPart (asked_read asked.now) past cut until part.now
        → IfErr result (IsHaltFor (part_halt (asked_read asked.now) strict past cut until)) }
{
    match part_text(alloc, asked, strict, cut, until, part) {
        Ok(text) => Ok(text),
        Err(fault) => Err(Halt::of_text(part_processor(asked), next_number(cut), fault)),
    }
}

/// The processor whose part it is, where each has documents of its own.
fn part_processor(asked: &Asked) -> Option<u64>
    ensures { result ≡ part_processor (asked_read asked.now) }
{
    if asked.everywhere {
        Some(asked.processor)
    } else {
        None
    }
}

/// The number of the part behind these.
fn next_number(cut: Cut) -> u64
    ensures { result ≡ next_number cut }
{
    cut.parts.saturating_add(1)
}

/// With a part more, which ends at this time and has these jobs; the trace's last time is `last`.
#[tactic(auto, using(crate::proofs::Parting::capped_twice))]
fn cut_with(cut: Cut, time: u64, last: u64, part: &[Judged<'_>]) -> Cut
    ensures { (past : List trace.Said) → last ≡ last_time past → result ≡ parts.with_part past time (judged_list part.now) cut }
{
    Cut {
        boundary: time,
        decided: last,
        parts: parts_with(cut, part),
        jobs: cut.jobs.saturating_add(written(part)),
        due: greatest_due(cut.due, part),
    }
}

/// How many parts there are with this one: one without a job isn't written.
fn parts_with(cut: Cut, part: &[Judged<'_>]) -> u64
    ensures { result ≡ parts.parts_with cut.parts (judged_list part.now) }
{
    match part.first() {
        Some(_) => next_number(cut),
        None => cut.parts,
    }
}

/// How many of these jobs are written; beyond 64 bits they aren't counted.
fn written(part: &[Judged<'_>]) -> u64
    ensures { result ≡ capped (count_by parts.is_written (judged_list part.now)) }
{
    let mut count: u64 = 0;
    for judged in part {
        if is_written(judged) {
            count = count.saturating_add(1);
        }
    }
    count
}

/// The last deadline of these jobs that are written, and of those before.
fn greatest_due(due: u64, part: &[Judged<'_>]) -> u64
    ensures { result ≡ parts.greatest_due due (judged_list part.now) }
{
    let mut greatest = due;
    for judged in part {
        if is_written(judged) {
            greatest = greatest.max(judged.due);
        }
    }
    greatest
}

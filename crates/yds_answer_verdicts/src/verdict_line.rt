//! The line of a verdict, made on the stack. Slots are told by their numbers from 1, and jobs by their
//! names.
ghost use Rattle.std.specs.Prelude.{◌≡◌, ◌+◌, ◌<◌, ◌≤◌, ◌∷◌, ◌++◌, [], length, codes, decimal};
ghost use Rattle.yds_model.specs.Job.{job_at};
ghost use Rattle.yds_model.specs.Document.{name_at};
ghost use Rattle.base.specs.Lines.{line};
ghost use Rattle.yds_model.specs.Text.{fraction_text};
ghost use Rattle.yds_model.specs.AuditAnswer.{slot_in, job_name, previous_end, verdict_words};
ghost use Rattle.yds_audit.specs.Verdict.{verdict_view};
ghost use Rattle.document_value.specs.Documents.{document_view};
ghost use Rattle.yds_answer.specs.Spaced.{spaced};
ghost use Rattle.yds_answer_verdicts.specs.VerdictLine.{later_words, verdict_word, NamesSlots};

use document_value::Document;
use text_line::LineBuffer;
use text_line::line_buffer::{FRACTION_BYTES, NUMBER_BYTES};
use yds_audit::Verdict;
use yds_fraction::Amount;
use yds_model::JobRow;
use yds_model::limits::MAX_NAME;
use yds_slots::Slot;

/// How many bytes a number has at most, with the space before it.
const NUMBER: usize = 1 + NUMBER_BYTES;

/// The same of a name.
const NAME: usize = 1 + MAX_NAME;

/// The same of a fraction.
const FRACTION: usize = 1 + FRACTION_BYTES;

/// How many bytes a line has at most before its slot or its job: `K1 off-point`.
const BEGUN: usize = 12;

/// The same with the slot's number and the name of its job.
const SLOT_TOLD: usize = BEGUN + 5 + NUMBER + NAME;

/// The same with the time at which the slot begins.
const START_TOLD: usize = SLOT_TOLD + FRACTION;

/// The same with the end of the slot before it.
const PREVIOUS_TOLD: usize = START_TOLD + 9 + FRACTION;

/// How many bytes a line has at most with its job and the work that it is given.
const GIVEN_TOLD: usize = BEGUN + NAME + 6 + FRACTION;

/// The same with the work that it wants.
const WANTED_TOLD: usize = GIVEN_TOLD + 7 + NUMBER;

/// How many bytes a line has at most without its end: a slot, its times and its work.
const PLACE_TOLD: usize = SLOT_TOLD + 3 * FRACTION;

/// The line of a verdict on the document's slots.
pub fn verdict_line(document: &Document<'_>, verdict: &Verdict) -> LineBuffer
    requires { NamesSlots (document_view document.now) (verdict_view verdict.now) }
    ensures { result ≡ line (verdict_words (document_view document.now) (verdict_view verdict.now)) }
{
    add_place(LineBuffer::new(first_word(verdict)), document, verdict).end()
}

/// The first word of a verdict's line.
pub fn first_word(verdict: &Verdict) -> &'static str
    ensures word { result.now ≡ verdict_word (verdict_view verdict.now) }
    ensures short { length result.now ≤ 9 }
{
    match verdict {
        Verdict::Feasible => "feasible",
        Verdict::Backward(_) => "backward",
        Verdict::Overlap(_) => "overlap",
        Verdict::Early(_) => "early",
        Verdict::Late(_) => "late",
        Verdict::OffPoint(_) => "off-point",
        Verdict::Work { .. } => "work",
    }
}

/// The words of a verdict's line after the first one.
pub fn add_place(line: LineBuffer, document: &Document<'_>, verdict: &Verdict) -> LineBuffer
    requires room { length line ≤ BEGUN }
    requires names { NamesSlots (document_view document.now) (verdict_view verdict.now) }
    ensures bytes { result ≡ line ++ spaced (later_words (verdict_words (document_view document.now) (verdict_view verdict.now))) }
    ensures short { length result ≤ PLACE_TOLD }
{
    match verdict {
        Verdict::Feasible => line,
        Verdict::Backward(slot) => {
            let at = slot_at(document, *slot);
            add_slot(line, document, *slot)
                .fraction(at.from)
                .fraction(at.to)
        }
        Verdict::Overlap(slot) => {
            let line = add_start(line, document, *slot);
            add_previous(line, document, *slot)
        }
        Verdict::Early(slot) => add_start(line, document, *slot)
            .field("release")
            .number(u64::from(job_of(document, *slot).release)),
        Verdict::Late(slot) => {
            let at = slot_at(document, *slot);
            add_slot(line, document, *slot)
                .fraction(at.to)
                .field("deadline")
                .number(u64::from(job_of(document, *slot).deadline))
        }
        Verdict::OffPoint(slot) => {
            let at = slot_at(document, *slot);
            add_slot(line, document, *slot)
                .fraction(at.from)
                .fraction(at.to)
                .fraction(at.work)
        }
        Verdict::Work { job, given, wanted } => {
            let line = add_given(line, document, *job, *given);
            add_wanted(line, *wanted)
        }
    }
}

/// The job's name and the work that it is given.
fn add_given(line: LineBuffer, document: &Document<'_>, job: u32, given: Amount) -> LineBuffer
    requires room { length line ≤ BEGUN }
    requires within { job < length document.now.instance.jobs }
    ensures bytes { result ≡ line ++ spaced (name_at document.now.instance.names job ∷ codes "given" ∷ fraction_text given ∷ []) }
    ensures short { length result ≤ GIVEN_TOLD }
{
    line.field(name_of(document, job))
        .field("given")
        .fraction(given)
}

/// The work that a job wants.
fn add_wanted(line: LineBuffer, wanted: u32) -> LineBuffer
    requires room { length line ≤ GIVEN_TOLD }
    ensures bytes { result ≡ line ++ spaced (codes "wanted" ∷ decimal wanted ∷ []) }
    ensures short { length result ≤ WANTED_TOLD }
{
    line.field("wanted").number(u64::from(wanted))
}

/// The time at which the slot before this one ends.
fn add_previous(line: LineBuffer, document: &Document<'_>, slot: u32) -> LineBuffer
    requires room { length line ≤ START_TOLD }
    requires later { 1 ≤ slot }
    requires within { slot < length document.now.schedule.slots }
    ensures bytes { result ≡ line ++ spaced (codes "previous" ∷ previous_end (document_view document.now) slot ∷ []) }
    ensures short { length result ≤ PREVIOUS_TOLD }
{
    let previous = slot_at(document, slot - 1);
    line.field("previous").fraction(previous.to)
}

/// The slot's number, from 1, and the name of its job.
fn add_slot(line: LineBuffer, document: &Document<'_>, slot: u32) -> LineBuffer
    requires room { length line ≤ BEGUN }
    requires within { slot < length document.now.schedule.slots }
    ensures bytes { result ≡ line ++ spaced (codes "slot" ∷ decimal (slot + 1) ∷ job_name (document_view document.now) slot ∷ []) }
    ensures short { length result ≤ SLOT_TOLD }
{
    let name = name_of(document, slot_at(document, slot).job);
    line.field("slot").number(u64::from(slot) + 1).field(name)
}

/// The same, and the time at which the slot begins.
fn add_start(line: LineBuffer, document: &Document<'_>, slot: u32) -> LineBuffer
    requires room { length line ≤ BEGUN }
    requires within { slot < length document.now.schedule.slots }
    ensures bytes { result ≡ line ++ spaced (codes "slot" ∷ decimal (slot + 1) ∷ job_name (document_view document.now) slot
        ∷ fraction_text (slot_in (document_view document.now) slot).from ∷ []) }
    ensures short { length result ≤ START_TOLD }
{
    let at = slot_at(document, slot);
    add_slot(line, document, slot).fraction(at.from)
}

/// The slot at this place, whose job is one of the document's.
fn slot_at<'b>(document: &'b Document<'_>, slot: u32) -> &'b Slot
    requires within { slot < length document.now.schedule.slots }
    ensures slot { result.now ≡ slot_in (document_view document.now) slot }
    ensures known { result.now.job < length document.now.instance.jobs }
{
    let slots = document.schedule.slots();
    &slots[slot as usize]
}

/// The job of the slot at this place.
fn job_of<'b>(document: &'b Document<'_>, slot: u32) -> &'b JobRow
    requires within { slot < length document.now.schedule.slots }
    ensures job { result.now ≡ job_at document.now.instance.jobs (slot_in (document_view document.now) slot).job }
{
    let job = slot_at(document, slot).job;
    let rows = document.instance.rows();
    &rows[job as usize]
}

/// The name of a job, which is short.
pub fn name_of<'a>(document: &Document<'a>, job: u32) -> &'a str
    requires within { job < length document.now.instance.jobs }
    ensures name { result.now ≡ name_at document.now.instance.names job }
    ensures short { length result.now ≤ MAX_NAME }
{
    document.instance.name(job)
}

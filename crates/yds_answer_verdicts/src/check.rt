//! `check`: whether the document's levels show that its slots are least, and if not, the first condition
//! that fails. Levels and slots are told by their numbers from 1, and jobs by their names.
ghost use Rattle.std.specs.Prelude.{◌≡◌, ◌+◌, ◌≤◌, ◌∷◌, [], length, codes, decimal, IfOk};
ghost use Rattle.base.specs.Lines.{line};
ghost use Rattle.yds_model.specs.AuditAnswer.{CheckAnswer, judgement_words, judgement_status};
ghost use Rattle.yds_model.specs.Judgement.{IsJudgement};
ghost use Rattle.yds_checker.specs.Judgement.{judgement_view};
ghost use Rattle.yds_answer.specs.Endings.{Replies};
ghost use Rattle.yds_model.specs.Answer.{AnswersQuestion};
ghost use Rattle.yds_model.specs.Request.{AskCheck};
ghost use Rattle.document_value.specs.Documents.{document_view};
ghost use Rattle.yds_answer.specs.Told.{told_line, told_status};
ghost use Rattle.yds_answer_verdicts.specs.Check.{NamesPlaces};

use crate::verdict_line::{add_place, first_word, name_of};
use document_value::Document;
use std::alloc::Global;
use text_line::LineBuffer;
use yds_answer::{Told, reply};
use yds_checker::{Judgement, check};
use yds_model::limits::MAX_NAME;
use yds_model::{Memory, Status};
use yds_port::Sink;

/// Answers with the judgement of the document's levels.
pub fn answer_check<K: Sink>(alloc: Global, document: Document<'_>, sink: &mut K) -> Status
    ensures { Replies K.written K.flushed K.flushes K.faults (AnswersQuestion AskCheck (document_view document.entry)) result sink.old sink.new }
{
    reply(check_document(alloc, &document), sink)
}

/// The judgement of the document's levels.
fn check_document(alloc: Global, document: &Document<'_>) -> Result<Told, Memory>
    ensures { IfOk result (λ told. CheckAnswer (document_view document.now) (told_line told) (told_status told.holds)) }
{
    let rows = document.instance.rows();
    match check(alloc, rows, &document.schedule, &document.certificate) {
        Ok(judgement) => Ok(told(document, &judgement)),
        Err(error) => Err(error),
    }
}

/// A judgement of the document's levels, told.
fn told(document: &Document<'_>, judgement: &Judgement) -> Told
    requires { IsJudgement (document_view document.now).jobs (document_view document.now).slots (document_view document.now).levels (judgement_view judgement.now) }
    ensures { CheckAnswer (document_view document.now) (told_line result) (told_status result.holds) }
{
    Told {
        line: judgement_line(document, judgement),
        holds: is_accepted(judgement),
    }
}

/// Whether the judgement is that the levels are accepted.
pub fn is_accepted(judgement: &Judgement) -> bool
    ensures { told_status result ≡ judgement_status (judgement_view judgement.now) }
{
    match judgement {
        Judgement::Accepted => true,
        _ => false,
    }
}

/// The line of a judgement of the document's levels.
fn judgement_line(document: &Document<'_>, judgement: &Judgement) -> LineBuffer
    requires { NamesPlaces (document_view document.now) (judgement_view judgement.now) }
    ensures { result ≡ line (judgement_words (document_view document.now) (judgement_view judgement.now)) }
{
    match judgement {
        Judgement::Accepted => LineBuffer::new("accepted").end(),
        Judgement::Slots(verdict) => {
            add_place(
                LineBuffer::new("K1").field(first_word(verdict)),
                document,
                verdict,
            )
            .end()
        }
        Judgement::Pieces(level) => numbered("K2", "level", *level),
        Judgement::Members(job) => named("K3", name_of(document, *job)),
        Judgement::Sums(level) => numbered("K4", "level", *level),
        Judgement::Order(level) => numbered("K5", "level", *level),
        Judgement::Window(job) => named("K6", name_of(document, *job)),
        Judgement::Speed(slot) => numbered("K7", "slot", *slot),
    }
}

/// The line of a condition that fails at a level or a slot, counted from 0.
fn numbered(condition: &str, what: &str, place: u32) -> LineBuffer
    requires short { (length condition.now ≤ 2) × (length what.now ≤ 5) }
    ensures { result ≡ line (condition.now ∷ what.now ∷ decimal (place + 1) ∷ []) }
{
    LineBuffer::new(condition)
        .field(what)
        .number(u64::from(place) + 1)
        .end()
}

/// The line of a condition that fails at a job.
fn named(condition: &str, name: &str) -> LineBuffer
    requires short { (length condition.now ≤ 2) × (length name.now ≤ MAX_NAME) }
    ensures { result ≡ line (condition.now ∷ codes "job" ∷ name.now ∷ []) }
{
    LineBuffer::new(condition).field("job").field(name).end()
}

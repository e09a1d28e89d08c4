//! `round`: the document's jobs and points with a plan's slots on the points and their energy, or the level for which the
//! points are too slow.
ghost use Rattle.std.specs.Prelude.{◌≡◌, ◌∷◌, [], codes, decimal, IfOk};
ghost use Rattle.base.specs.Lines.{line};
ghost use Rattle.yds_model.specs.Answer.{AnswersQuestion};
ghost use Rattle.yds_model.specs.Request.{AskRound};
ghost use Rattle.yds_answer.specs.Endings.{Replies};
ghost use Rattle.document_value.specs.Documents.{document_view};
ghost use Rattle.yds_answer_points.specs.Round.{rounded_text, rounded_status};
ghost use Rattle.yds_answer.specs.WithPoints.{text_with_points, status_with_points};

use document_text::print;
use document_value::Document;
use std::alloc::Global;
use text_line::LineBuffer;
use yds_answer::{Answer, WithPoints, reply};
use yds_certificate::Certificate;
use yds_model::{Memory, Status};
use yds_plan::plan;
use yds_port::{Sink, WriteFault, write_all};
use yds_round::{RoundFault, round};

/// A document's plan on its operating points.
#[derive(Drop)]
pub enum RoundedDocument<'a> {
    /// The document with the slots and their energy.
    Rounded(Document<'a>),
    /// The line of the plan's first level, which is faster than the last point.
    TooSlow(LineBuffer),
}

impl Answer for RoundedDocument<'_> {
    ghost use Rattle.yds_answer_points.specs.Round.{rounded_text, rounded_status};

    ghost text = { rounded_text };

    ghost ends = { rounded_status };

    fn status(&self) -> Status {
        match self {
            RoundedDocument::Rounded(_) => Status::Done,
            RoundedDocument::TooSlow(_) => Status::No,
        }
    }

    fn write<K: Sink>(&self, sink: &mut K) -> Result<(), WriteFault> {
        match self {
            RoundedDocument::Rounded(document) => print(document, sink),
            RoundedDocument::TooSlow(line) => write_all(sink, line.as_bytes()),
        }
    }
}

/// Answers with a plan of the document's jobs on its operating points.
pub fn answer_round<K: Sink>(alloc: Global, document: Document<'_>, sink: &mut K) -> Status
    ensures { Replies K.written K.flushed K.flushes K.faults (AnswersQuestion AskRound (document_view document.entry)) result sink.old sink.new }
{
    reply(round_document(alloc, document), sink)
}

/// Plans the document's jobs and rounds the plan to its operating points.
fn round_document<'a>(
    alloc: Global,
    document: Document<'a>,
) -> Result<WithPoints<RoundedDocument<'a>>, Memory>
    ensures { IfOk result (λ answer. AnswersQuestion AskRound (document_view document.entry)
        (text_with_points rounded_text answer) (status_with_points rounded_status answer)) }
{
    let Some(table) = &document.table else {
        return Ok(WithPoints::NoTable);
    };
    // A table has a point.
    let _points = table.points();
    let rows = document.instance.rows();
    let planned = plan(alloc, rows)?;
    match round(alloc, rows, &planned, table) {
        Ok(rounded) => {
            let levels = Certificate::new(alloc);
            let document = document.with_answer(
                rounded.schedule,
                levels,
                None,
                Some(rounded.energy),
            );
            Ok(WithPoints::Answered(RoundedDocument::Rounded(document)))
        }
        Err(RoundFault::TooSlow { work, length, top }) => {
            let line = too_slow_line(work, length, top);
            Ok(WithPoints::Answered(RoundedDocument::TooSlow(line)))
        }
        Err(RoundFault::Memory) => Err(Memory),
    }
}

/// The line of a level's work and length, in units of work and of time, and of the top speed, in work per time unit.
pub fn too_slow_line(work: u64, length: u64, top: u32) -> LineBuffer
    ensures { result ≡ line (codes "too-slow" ∷ codes "work" ∷ decimal work ∷ codes "length" ∷ decimal length ∷ codes "top" ∷ decimal top ∷ []) }
{
    LineBuffer::new("too-slow")
        .field("work")
        .number(work)
        .field("length")
        .number(length)
        .field("top")
        .number(u64::from(top))
        .end()
}

//! `curve`: the speeds at which the least excess of the document's jobs bends, each in a line with the excess above it.
ghost use Rattle.std.specs.Prelude.{◌≡◌, flat_map, IfOk};
ghost use Rattle.yds_model.specs.CurveAnswer.{CurveAnswer, break_line};
ghost use Rattle.yds_answer.specs.Endings.{Replies};
ghost use Rattle.yds_model.specs.Answer.{AnswersQuestion};
ghost use Rattle.yds_model.specs.Request.{AskCurve};
ghost use Rattle.document_value.specs.Documents.{document_view};
ghost use Rattle.yds_port.specs.Sink.{Puts};
ghost use Rattle.yds_answer_plans.specs.Curve.{breaks_text};

use document_value::Document;
use std::alloc::Global;
use text_line::LineBuffer;
use yds_answer::{Answer, reply};
use yds_curve::{Break, curve};
use yds_fraction::Amount;
use yds_model::{Memory, Status};
use yds_plan::plan_levels;
use yds_port::{Sink, WriteFault, write_all};

/// The breaks of the curve of a document's jobs.
#[derive(Drop)]
pub struct Breaks {
    breaks: Vec<Break>,
}

impl Answer for Breaks {
    ghost use Rattle.base.specs.declared.status.Status.TheVariants as statuses;
    ghost use Rattle.yds_answer_plans.specs.Curve.{breaks_text};

    ghost text = { breaks_text };

    ghost ends = { λ _. statuses.Done };

    fn status(&self) -> Status {
        Status::Done
    }

    fn write<K: Sink>(&self, sink: &mut K) -> Result<(), WriteFault> {
        write_breaks(&self.breaks, sink)
    }
}

/// A line for each break, in rising order of speed.
fn write_breaks<K: Sink>(breaks: &[Break], sink: &mut K) -> Result<(), WriteFault>
    ensures { Puts K.written K.flushed K.flushes K.faults result (flat_map break_line breaks.now) sink.old sink.new }
{
    let mut line = LineBuffer::new("");
    for bend in breaks {
        put_break(&mut line, bend);
        write_all(sink, line.as_bytes())?;
    }
    Ok(())
}

/// Makes the line of a break: its speed, in work per time unit, and the least excess above it, both in lowest terms.
fn put_break(line: &mut LineBuffer, bend: &Break)
    ensures { line.new ≡ break_line bend.now }
{
    let parts = u128::from(bend.speed.num());
    line.restart("break");
    line.push_fraction(Amount::of_parts(parts, bend.speed.den()));
    line.push_fraction(bend.excess);
    line.push_end();
}

/// Answers with the curve of least excess of the document's jobs.
pub fn answer_curve<K: Sink>(alloc: Global, document: Document<'_>, sink: &mut K) -> Status
    ensures { Replies K.written K.flushed K.flushes K.faults (AnswersQuestion AskCurve (document_view document.entry)) result sink.old sink.new }
{
    reply(curve_document(alloc, &document), sink)
}

/// Plans the document's jobs, for the curve of the plan's levels.
fn curve_document(alloc: Global, document: &Document<'_>) -> Result<Breaks, Memory>
    ensures { IfOk result (λ told. CurveAnswer (document_view document.now) (breaks_text told) Status.Done) }
{
    let certificate = plan_levels(alloc, document.instance.rows())?;
    let breaks = curve(alloc, &certificate)?;
    Ok(Breaks { breaks })
}

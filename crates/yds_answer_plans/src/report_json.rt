//! `report --json`: the levels of a plan of the document's jobs as a line of JSON.
ghost use Rattle.std.specs.Prelude.{IfOk};
ghost use Rattle.yds_model.specs.JsonAnswer.{JsonAnswer};
ghost use Rattle.yds_answer.specs.Endings.{Replies};
ghost use Rattle.yds_model.specs.Answer.{AnswersQuestion};
ghost use Rattle.yds_model.specs.Request.{AskReportAsJson};
ghost use Rattle.document_value.specs.Documents.{document_view};
ghost use Rattle.yds_answer_plans.specs.ReportJson.{json_text};

use document_value::Document;
use std::alloc::Global;
use yds_answer::{Answer, reply};
use yds_model::{Memory, Status};
use yds_plan::plan_levels;
use yds_port::{Sink, WriteFault, write_all};
use yds_report::json;

/// A report as a line of JSON, which is made before it is written.
#[derive(Drop)]
pub struct JsonReport {
    text: Vec<u8>,
}

impl Answer for JsonReport {
    ghost use Rattle.base.specs.declared.status.Status.TheVariants as statuses;
    ghost use Rattle.yds_answer_plans.specs.ReportJson.{json_text};

    ghost text = { json_text };

    ghost ends = { λ _. statuses.Done };

    fn status(&self) -> Status {
        Status::Done
    }

    fn write<K: Sink>(&self, sink: &mut K) -> Result<(), WriteFault> {
        write_all(sink, &self.text)
    }
}

/// Answers with a plan of the document's jobs as JSON.
pub fn answer_report_as_json<K: Sink>(alloc: Global, document: Document<'_>, sink: &mut K) -> Status
    ensures { Replies K.written K.flushed K.flushes K.faults (AnswersQuestion AskReportAsJson (document_view document.entry)) result sink.old sink.new }
{
    reply(json_document(alloc, &document), sink)
}

/// Plans the document's jobs, and tells the plan's levels as JSON.
fn json_document(alloc: Global, document: &Document<'_>) -> Result<JsonReport, Memory>
    ensures { IfOk result (λ report. JsonAnswer (document_view document.now) (json_text report) Status.Done) }
{
    let certificate = plan_levels(alloc, document.instance.rows())?;
    let text = json(alloc, document, &certificate)?;
    Ok(JsonReport { text })
}

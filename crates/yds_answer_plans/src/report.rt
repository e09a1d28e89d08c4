//! `report`: the levels of a plan of the document's jobs as a table.
ghost use Rattle.std.specs.Prelude.{IfOk};
ghost use Rattle.yds_model.specs.ReportAnswer.{ReportAnswer};
ghost use Rattle.yds_answer.specs.Endings.{Replies};
ghost use Rattle.yds_model.specs.Answer.{AnswersQuestion};
ghost use Rattle.yds_model.specs.Request.{AskReport};
ghost use Rattle.document_value.specs.Documents.{document_view};
ghost use Rattle.yds_answer_plans.specs.Report.{table_text};

use document_value::Document;
use std::alloc::Global;
use yds_answer::{Answer, reply};
use yds_certificate::Certificate;
use yds_model::{Memory, Status};
use yds_plan::plan_levels;
use yds_port::{Sink, WriteFault};
use yds_report::report;

/// The levels of a plan of a document's jobs, to be told as a table.
#[derive(Drop)]
pub struct PlanTable<'a> {
    document: Document<'a>,
    certificate: Certificate,
}

impl Answer for PlanTable<'_> {
    ghost use Rattle.base.specs.declared.status.Status.TheVariants as statuses;
    ghost use Rattle.yds_answer_plans.specs.Report.{table_text};

    ghost text = { table_text };

    ghost ends = { λ _. statuses.Done };

    fn status(&self) -> Status {
        Status::Done
    }

    fn write<K: Sink>(&self, sink: &mut K) -> Result<(), WriteFault> {
        report(&self.document, &self.certificate, sink)
    }
}

/// Answers with the table of a plan of the document's jobs.
pub fn answer_report<K: Sink>(alloc: Global, document: Document<'_>, sink: &mut K) -> Status
    ensures { Replies K.written K.flushed K.flushes K.faults (AnswersQuestion AskReport (document_view document.entry)) result sink.old sink.new }
{
    reply(report_document(alloc, document), sink)
}

/// Plans the document's jobs, for a table of the plan's levels.
fn report_document<'a>(alloc: Global, document: Document<'a>) -> Result<PlanTable<'a>, Memory>
    ensures { IfOk result (λ table. ReportAnswer (document_view document.entry) (table_text table) Status.Done) }
{
    let certificate = plan_levels(alloc, document.instance.rows())?;
    Ok(PlanTable {
        document,
        certificate,
    })
}

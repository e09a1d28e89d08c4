//! `plan`: the document's jobs and points with the slots and the levels of a plan of its jobs.
ghost use Rattle.std.specs.Prelude.{IfOk};
ghost use Rattle.yds_model.specs.PlanAnswer.{PlanAnswer};
ghost use Rattle.yds_answer.specs.Endings.{Replies};
ghost use Rattle.yds_model.specs.Answer.{AnswersQuestion};
ghost use Rattle.yds_model.specs.Request.{AskPlan};
ghost use Rattle.document_value.specs.Documents.{document_view};
ghost use Rattle.yds_answer_plans.specs.Plan.{plan_text};

use document_text::print;
use document_value::Document;
use std::alloc::Global;
use yds_answer::{Answer, reply};
use yds_model::{Memory, Status};
use yds_plan::plan;
use yds_port::{Sink, WriteFault};

/// A document with the plan of its jobs.
#[derive(Drop)]
pub struct PlannedDocument<'a> {
    document: Document<'a>,
}

impl Answer for PlannedDocument<'_> {
    ghost use Rattle.base.specs.declared.status.Status.TheVariants as statuses;
    ghost use Rattle.yds_answer_plans.specs.Plan.{plan_text};

    ghost text = { plan_text };

    ghost ends = { λ _. statuses.Done };

    fn status(&self) -> Status {
        Status::Done
    }

    fn write<K: Sink>(&self, sink: &mut K) -> Result<(), WriteFault> {
        print(&self.document, sink)
    }
}

/// Answers with a plan of the document's jobs.
pub fn answer_plan<K: Sink>(alloc: Global, document: Document<'_>, sink: &mut K) -> Status
    ensures { Replies K.written K.flushed K.flushes K.faults (AnswersQuestion AskPlan (document_view document.entry)) result sink.old sink.new }
{
    reply(plan_document(alloc, document), sink)
}

/// Plans the document's jobs.
fn plan_document<'a>(alloc: Global, document: Document<'a>) -> Result<PlannedDocument<'a>, Memory>
    ensures { IfOk result (λ planned. PlanAnswer (document_view document.entry) (plan_text planned) Status.Done) }
{
    let planned = plan(alloc, document.instance.rows())?;
    // Reading the slots and the levels shows that they are within the limits.
    let _slots = planned.schedule.slots();
    let _levels = planned.certificate.levels();
    let document = document.with_answer(planned.schedule, planned.certificate, None, None);
    Ok(PlannedDocument { document })
}

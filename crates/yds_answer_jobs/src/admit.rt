//! `admit TOP`: the jobs that a processor of that top speed can serve, admitted in the document's order, with their slots,
//! and for each other job a comment with the interval that can't hold it.
ghost use Rattle.std.specs.Prelude.{◌≡◌, ◌<◌, ◌≤◌, IfOk, length, map};
ghost use Rattle.std.specs.List.{All, flat_map};
ghost use Rattle.yds_model.specs.Document.{name_at};
ghost use Rattle.yds_model.specs.Admission.{jobs_with};
ghost use Rattle.yds_model.specs.AdmitAnswer.{AdmitAnswer};
ghost use Rattle.yds_port.specs.Sink.{Puts};
ghost use Rattle.yds_answer.specs.Endings.{Replies};
ghost use Rattle.yds_model.specs.Answer.{AnswersQuestion};
ghost use Rattle.yds_model.specs.Request.{AskAdmit};
ghost use Rattle.document_value.specs.Documents.{document_view};
ghost use Rattle.yds_answer_jobs.specs.Admit.{comment_text, comments_text, admitted_text, RiseFrom};

use crate::admitted::AdmittedDocument;
use document_text::print;
use document_value::Document;
use std::alloc::Global;
use text_line::LineBuffer;
use yds_admit::{Refusal, admit};
use yds_answer::{Answer, reply};
use yds_instance::Instance;
use yds_model::limits::MAX_TOP;
use yds_model::{Memory, Status};
use yds_port::{Sink, WriteFault, write_all};

impl Answer for AdmittedDocument<'_> {
    ghost use Rattle.base.specs.declared.status.Status.TheVariants as statuses;
    ghost use Rattle.yds_answer_jobs.specs.Admit.{admitted_text};

    ghost text = { admitted_text };

    ghost ends = { λ _. statuses.Done };

    fn status(&self) -> Status {
        Status::Done
    }

    fn write<K: Sink>(&self, sink: &mut K) -> Result<(), WriteFault> {
        print(&self.document, sink)?;
        write_comments(self, sink)
    }
}

/// Answers with the jobs that are admitted under a top speed, in work per time unit.
pub fn answer_admit<K: Sink>(
    alloc: Global,
    document: Document<'_>,
    top: u32,
    sink: &mut K,
) -> Status
    requires some_top { 1 ≤ top }
    requires top_in_range { top ≤ MAX_TOP }
    ensures { Replies K.written K.flushed K.flushes K.faults (AnswersQuestion (AskAdmit top) (document_view document.entry)) result sink.old sink.new }
{
    reply(admit_document(alloc, document, top), sink)
}

/// Admits the document's jobs under a top speed.
fn admit_document<'a>(
    alloc: Global,
    document: Document<'a>,
    top: u32,
) -> Result<AdmittedDocument<'a>, Memory>
    requires some_top { 1 ≤ top }
    requires top_in_range { top ≤ MAX_TOP }
    ensures { IfOk result (λ admitted. AdmitAnswer (document_view document.entry) top (admitted_text admitted) Status.Done) }
{
    let admission = admit(alloc, document.instance.rows(), top)?;
    let instance = chosen(alloc, &document.instance, &admission.taken)?;
    Ok(AdmittedDocument {
        document: Document::of_slots(alloc, instance, document.table, admission.schedule),
        instance: document.instance,
        refused: admission.refused,
        top,
    })
}

/// The jobs with these numbers, which rise, in this order.
fn chosen<'a>(
    alloc: Global,
    instance: &Instance<'a>,
    numbers: &[u32],
) -> Result<Instance<'a>, Memory>
    requires known { All (λ number. number < length instance.now.jobs) numbers.now }
    requires rising { RiseFrom 0 numbers.now }
    ensures { IfOk result (λ chosen. chosen ≡ record {
      names = map (name_at instance.now.names) numbers.now;
      jobs = jobs_with instance.now.jobs numbers.now;
    }) }
{
    let rows = instance.rows();
    let mut chosen = Instance::new(alloc, instance.keys());
    for number in numbers {
        let row = rows[*number as usize];
        chosen.add_new(instance.name(*number), row)?;
    }
    Ok(chosen)
}

/// Appends a comment for each refused job.
fn write_comments<K: Sink>(admitted: &AdmittedDocument<'_>, sink: &mut K) -> Result<(), WriteFault>
    ensures { Puts K.written K.flushed K.flushes K.faults result (comments_text admitted.now) sink.old sink.new }
{
    for refusal in &admitted.refused {
        let line = comment(&admitted.instance, refusal, admitted.top);
        write_all(sink, line.as_bytes())?;
    }
    Ok(())
}

/// The comment of a refusal: the job's name, the interval and the work confined to it, and the top speed.
fn comment(instance: &Instance<'_>, refusal: &Refusal, top: u32) -> LineBuffer
    requires { refusal.now.job < length instance.now.jobs }
    ensures { result ≡ comment_text instance.now.names top refusal.now }
{
    LineBuffer::new("#")
        .field("refuse")
        .field(instance.name(refusal.job))
        .field("from")
        .number(u64::from(refusal.from))
        .field("to")
        .number(u64::from(refusal.to))
        .field("work")
        .number(refusal.work)
        .field("top")
        .number(u64::from(top))
        .end()
}

//! `avr --grid G` and `oa --grid G`: the document's jobs and points with the slots of a policy's run, and its grid.
ghost use Rattle.std.specs.Prelude.{◌≡◌, ◌≤◌, [], IfOk, Some, None, length};
ghost use Rattle.yds_model.specs.Document.{with_answer};
ghost use Rattle.yds_model.specs.PolicyAnswer.{AverageRateAnswer, OptimalAvailableAnswer};
ghost use Rattle.yds_model.specs.Within.{IsDocument};
ghost use Rattle.yds_answer.specs.Endings.{Replies};
ghost use Rattle.yds_model.specs.Answer.{AnswersQuestion};
ghost use Rattle.yds_model.specs.Request.{AskAverageRate, AskOptimalAvailable};
ghost use Rattle.document_value.specs.Documents.{document_view};
ghost use Rattle.yds_answer_plans.specs.Policies.{policy_text};

use document_text::print;
use document_value::{Document, Grid};
use std::alloc::Global;
use yds_answer::{Answer, reply};
use yds_avr::avr;
use yds_certificate::Certificate;
use yds_edf::PolicyRun;
use yds_model::limits::{MAX_GRID, MAX_ROUNDED};
use yds_model::{Memory, Status};
use yds_oa::oa;
use yds_port::{Sink, WriteFault};

/// A document with the run of a policy on a grid.
#[derive(Drop)]
pub struct PolicyDocument<'a> {
    document: Document<'a>,
}

impl Answer for PolicyDocument<'_> {
    ghost use Rattle.base.specs.declared.status.Status.TheVariants as statuses;
    ghost use Rattle.yds_answer_plans.specs.Policies.{policy_text};

    ghost text = { policy_text };

    ghost ends = { λ _. statuses.Done };

    fn status(&self) -> Status {
        Status::Done
    }

    fn write<K: Sink>(&self, sink: &mut K) -> Result<(), WriteFault> {
        print(&self.document, sink)
    }
}

/// Answers with the run of Average Rate on the document's jobs.
pub fn answer_average_rate<K: Sink>(
    alloc: Global,
    document: Document<'_>,
    grid: u32,
    sink: &mut K,
) -> Status
    requires some_grid { 1 ≤ grid }
    requires grid_in_range { grid ≤ MAX_GRID }
    ensures { Replies K.written K.flushed K.flushes K.faults (AnswersQuestion (AskAverageRate grid) (document_view document.entry)) result sink.old sink.new }
{
    reply(average_rate_document(alloc, document, grid), sink)
}

/// Answers with the run of Optimal Available on the document's jobs.
pub fn answer_optimal_available<K: Sink>(
    alloc: Global,
    document: Document<'_>,
    grid: u32,
    sink: &mut K,
) -> Status
    requires some_grid { 1 ≤ grid }
    requires grid_in_range { grid ≤ MAX_GRID }
    ensures { Replies K.written K.flushed K.flushes K.faults (AnswersQuestion (AskOptimalAvailable grid) (document_view document.entry)) result sink.old sink.new }
{
    reply(optimal_available_document(alloc, document, grid), sink)
}

/// Runs Average Rate on the document's jobs.
fn average_rate_document<'a>(
    alloc: Global,
    document: Document<'a>,
    grid: u32,
) -> Result<PolicyDocument<'a>, Memory>
    requires some_grid { 1 ≤ grid }
    requires grid_in_range { grid ≤ MAX_GRID }
    ensures { IfOk result (λ answer. AverageRateAnswer (document_view document.entry) grid (policy_text answer) Status.Done) }
{
    let run = avr(alloc, document.instance.rows(), grid)?;
    Ok(with_run(alloc, document, grid, run))
}

/// Runs Optimal Available on the document's jobs.
fn optimal_available_document<'a>(
    alloc: Global,
    document: Document<'a>,
    grid: u32,
) -> Result<PolicyDocument<'a>, Memory>
    requires some_grid { 1 ≤ grid }
    requires grid_in_range { grid ≤ MAX_GRID }
    ensures { IfOk result (λ answer. OptimalAvailableAnswer (document_view document.entry) grid (policy_text answer) Status.Done) }
{
    let run = oa(alloc, document.instance.rows(), grid)?;
    Ok(with_run(alloc, document, grid, run))
}

/// The document with the slots of a run on this grid.
fn with_run(alloc: Global, document: Document<'_>, grid: u32, run: PolicyRun) -> PolicyDocument<'_>
    requires some_grid { 1 ≤ grid }
    requires grid_in_range { grid ≤ MAX_GRID }
    requires jobs { run.schedule.jobs ≡ length document.instance.jobs }
    requires count_in_range { run.rounded ≤ MAX_ROUNDED }
    ensures shown { document_view result.document ≡ with_answer (document_view document.entry) run.schedule.slots [] (Some (record { grid = grid; rounded = run.rounded })) None }
    ensures possible { IsDocument (document_view result.document) }
{
    let grid = Grid {
        grid,
        rounded: run.rounded,
    };
    let document = document.with_answer(run.schedule, Certificate::new(alloc), Some(grid), None);
    PolicyDocument { document }
}

//! `audit`: whether the document's slots are feasible for its jobs, and with `--points` whether each runs at
//! the speed of one of its operating points too.
ghost use Rattle.std.specs.Prelude.{◌≡◌, None, option_copied};
ghost use Rattle.yds_model.specs.Answer.{AnswersQuestion};
ghost use Rattle.yds_model.specs.AuditAnswer.{AuditAnswer, verdict_status};
ghost use Rattle.yds_model.specs.Request.{AskAudit, AskAuditOnPoints};
ghost use Rattle.yds_audit.specs.Verdict.{verdict_view};
ghost use Rattle.yds_answer.specs.Endings.{Replies};
ghost use Rattle.document_value.specs.Documents.{document_view};
ghost use Rattle.yds_answer.specs.Told.{told_line, told_status};
ghost use Rattle.yds_answer.specs.WithPoints.{text_with_points, status_with_points};

use crate::verdict_line::verdict_line;
use document_value::Document;
use yds_answer::{Told, WithPoints, deliver};
use yds_audit::{Verdict, audit};
use yds_model::Status;
use yds_port::Sink;
use yds_table::Table;

/// Answers with the verdict on the document's slots.
pub fn answer_audit<K: Sink>(document: Document<'_>, sink: &mut K) -> Status
    ensures { Replies K.written K.flushed K.flushes K.faults (AnswersQuestion AskAudit (document_view document.entry)) result sink.old sink.new }
{
    deliver(&audit_document(&document), sink)
}

/// Answers with the verdict on the document's slots by its operating points.
pub fn answer_audit_on_points<K: Sink>(document: Document<'_>, sink: &mut K) -> Status
    ensures { Replies K.written K.flushed K.flushes K.faults (AnswersQuestion AskAuditOnPoints (document_view document.entry)) result sink.old sink.new }
{
    deliver(&audit_on_points(&document), sink)
}

/// The verdict on the document's slots.
fn audit_document(document: &Document<'_>) -> Told
    ensures { AuditAnswer (document_view document.now) None (told_line result) (told_status result.holds) }
{
    audit_by(document, None)
}

/// The verdict on the document's slots by its operating points.
fn audit_on_points(document: &Document<'_>) -> WithPoints<Told>
    ensures { AnswersQuestion AskAuditOnPoints (document_view document.now)
        (text_with_points told_line result) (status_with_points (λ told. told_status told.holds) result) }
{
    match &document.table {
        Some(table) => {
            // A table has a point.
            let _points = table.points();
            WithPoints::Answered(audit_by(document, Some(table)))
        }
        None => WithPoints::NoTable,
    }
}

/// The verdict on the document's slots, and with a table on their speeds too.
fn audit_by(document: &Document<'_>, table: Option<&Table>) -> Told
    ensures { AuditAnswer (document_view document.now) (option_copied table.entry) (told_line result) (told_status result.holds) }
{
    let verdict = audit(document.instance.rows(), &document.schedule, table);
    Told {
        line: verdict_line(document, &verdict),
        holds: is_feasible(&verdict),
    }
}

/// Whether the verdict is that the slots are feasible.
fn is_feasible(verdict: &Verdict) -> bool
    ensures { told_status result ≡ verdict_status (verdict_view verdict.now) }
{
    match verdict {
        Verdict::Feasible => true,
        _ => false,
    }
}

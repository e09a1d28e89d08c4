ghost use Rattle.std.specs.Prelude.{◌≡◌, ◌≢◌, ◌⊎◌, ◌<◌, ◌≤◌, ℕ, List, length, Some, None, IfSome};
ghost use Rattle.base.specs.declared.limits.TheConstants.{MAX_INPUT};
ghost use Rattle.std.specs.Io.KnownBytes.{Appends, IsAtEnd};
ghost use Rattle.yds_model.specs.Answer.{AnswersReading, AnswersQuestion};
ghost use Rattle.yds_model.specs.Reading.{reading};
ghost use Rattle.yds_model.specs.Request.{usage_line, OfDocument};
ghost use Rattle.yds_port.specs.Count.{Rose, next_count};
ghost use Rattle.document_value.specs.Documents.{document_view};
ghost use Rattle.yds_words.specs.Words.{words_of, asked, IsTrial, ReadsInput, question_view, IsAskable};
ghost use Rattle.yds_answer.specs.Endings.{Outcome, IsWhole, CountTells, IsDelivered, Replies, AnswersBytes, AnswersTaken, IsTooLong};
ghost use Rattle.yds_run.specs.Worth.{IsWorth};

use document_reader::{DocFault, read_document};
use document_value::Document;
use std::alloc::Global;
use std::hash::RandomState;
use yds_answer::{RefusedAt, TooLong, Usage, deliver};
use yds_answer_jobs::{answer_admit, answer_tasks};
use yds_answer_plans::{
    answer_average_rate, answer_curve, answer_optimal_available, answer_plan, answer_report,
    answer_report_as_json,
};
use yds_answer_points::{answer_compare, answer_round};
use yds_answer_verdicts::{answer_audit, answer_audit_on_points, answer_check, answer_trial};
use yds_model::Status;
use yds_model::limits::MAX_INPUT;
use yds_port::{ReadAllFault, Sink, Source, read_all};
use yds_words::{Command, Question};

/// Runs the command that the words name: reads the source to its end, computes the answer, writes its
/// text and flushes the sink, once. Words that name no command are answered by the usage line, and no memory
/// is taken for them. For them and for a trial the source isn't read. No memory is taken after the first
/// byte was written.
///
/// The source and the sink need not tell their bytes. Where both do, what was written is the answer to all
/// bytes of the source. Where the source doesn't, as standard input, `answer` says only that what was written
/// is the answer to some input; and where neither does, only that the status is that of the answer to some
/// input. The code is one for all sources and sinks.
///
/// Names are looked up with the keys, on which no answer depends.
pub fn run<S: Source, K: Sink>(
    alloc: Global,
    keys: RandomState,
    words: &[String],
    source: &mut S,
    sink: &mut K,
) -> Status
    // The counts of faults tell a fault from the answer.
    ensures source_later { S.faults source.old ≤ S.faults source.new }
    ensures sink_later { K.faults sink.old ≤ K.faults sink.new }
    ensures read_fault { result ≡ Status.ReadFault → Rose (S.faults source.old) (S.faults source.new) }
    ensures write_fault { result ≡ Status.WriteFault → Rose (K.faults sink.old) (K.faults sink.new) }
    ensures source_rose { S.faults source.old < S.faults source.new → result ≡ Status.ReadFault }
    ensures sink_rose { K.faults sink.old < K.faults sink.new → result ≡ Status.WriteFault }

    // Words that name no command, and a trial, leave the source unread.
    ensures unread { ¬ ReadsInput (asked (words_of words.now)) → source.new ≡ source.old }
    ensures usage { asked (words_of words.now) ≡ None → (result ≡ Status.Usage) ⊎ (result ≡ Status.WriteFault) }
    ensures usage_text { asked (words_of words.now) ≡ None
        → Outcome result usage_line Status.Usage (K.written sink.old) (K.written sink.new) (K.flushed sink.new) }

    // A trial's answer is the same whatever the input is.
    ensures trial { IsTrial (asked (words_of words.now)) → (result ≡ Status.Done) ⊎ (result ≡ Status.WriteFault) ⊎ (result ≡ Status.Memory) }
    ensures trial_text { IsTrial (asked (words_of words.now)) → result ≢ Status.Memory
        → (input : List ℕ) → AnswersBytes (asked (words_of words.now)) input result (K.written sink.old) (K.written sink.new) (K.flushed sink.new) }

    ensures nothing_written { (result ≡ Status.Memory) ⊎ (result ≡ Status.ReadFault) → sink.new ≡ sink.old }
    ensures flushed_once { IsWhole result → K.flushes sink.new ≡ next_count (K.flushes sink.old) }

    // What was written is the answer to the bytes that were taken ..
    ensures answer { ReadsInput (asked (words_of words.now)) → result ≢ Status.Memory → result ≢ Status.ReadFault
        → AnswersTaken (asked (words_of words.now)) result (S.left source.old) (S.left source.new) (K.written sink.old) (K.written sink.new) (K.flushed sink.new) }

    // .. and, where the source tells them, to all of them.
    ensures complete { result ≢ Status.Memory → result ≢ Status.ReadFault → IfSome (S.left source.old) (λ input.
        AnswersBytes (asked (words_of words.now)) input result (K.written sink.old) (K.written sink.new) (K.flushed sink.new)) }
    ensures read_to_end { ReadsInput (asked (words_of words.now))
        → (result ≡ Status.Done) ⊎ (result ≡ Status.No) ⊎ (result ≡ Status.Refused)
        → IsAtEnd (S.left source.new) ⊎ IsTooLong result (S.left source.old) (S.left source.new) (K.written sink.old) (K.written sink.new) }

    // An answer that was written whole is worth what the record says of the words, the input, the text and the status: for each
    // command what its user relies on. Any other end is want of memory or a fault that was counted.
    ensures worth { IsWhole result → IfSome (S.left source.old) (λ input.
        (text : List ℕ) × Appends (K.written sink.old) (K.written sink.new) text × IsWorth (words_of words.now) input text result) }
{
    match Command::of(words) {
        Some(Command::Document(question)) => answer_input(alloc, keys, question, source, sink),
        Some(Command::Expand) => answer_tasks(alloc, keys, source, sink),
        Some(Command::Trial { seed, jobs }) => answer_trial(alloc, seed, jobs, sink),
        None => deliver(&Usage, sink),
    }
}

/// Answers the question about the document in the input.
fn answer_input<S: Source, K: Sink>(
    alloc: Global,
    keys: RandomState,
    question: Question,
    source: &mut S,
    sink: &mut K,
) -> Status
    requires { IsAskable question }
    ensures source { CountTells Status.ReadFault result (S.faults source.old) (S.faults source.new) }
    ensures sink { CountTells Status.WriteFault result (K.faults sink.old) (K.faults sink.new) }
    ensures nothing_written { (result ≡ Status.Memory) ⊎ (result ≡ Status.ReadFault) → sink.new ≡ sink.old }
    ensures flushed_once { IsWhole result → K.flushes sink.new ≡ next_count (K.flushes sink.old) }
    ensures answer { result ≢ Status.Memory → result ≢ Status.ReadFault
        → AnswersTaken (Some (OfDocument (question_view question))) result (S.left source.old) (S.left source.new) (K.written sink.old) (K.written sink.new) (K.flushed sink.new) }
{
    match read_all(alloc, source, MAX_INPUT) {
        Ok(bytes) => answer_bytes(alloc, keys, question, &bytes, sink),
        Err(ReadAllFault::TooLong) => deliver(&TooLong, sink),
        Err(ReadAllFault::ReadFault) => Status::ReadFault,
        Err(ReadAllFault::Memory) => Status::Memory,
    }
}

/// Answers the question about the document that the bytes are.
pub fn answer_bytes<K: Sink>(
    alloc: Global,
    keys: RandomState,
    question: Question,
    bytes: &[u8],
    sink: &mut K,
) -> Status
    requires askable { IsAskable question }
    requires short { length bytes.now ≤ MAX_INPUT }
    ensures { Replies K.written K.flushed K.flushes K.faults (AnswersReading (question_view question) (reading bytes.now)) result sink.old sink.new }
{
    match read_document(alloc, keys, bytes) {
        Ok(document) => answer_document(alloc, question, document, sink),
        Err(
            DocFault::At {
                line,
                column,
                reason,
            },
        ) => {
            let refused = RefusedAt {
                line,
                column,
                word: reason.word(),
            };
            deliver(&refused, sink)
        }
        Err(DocFault::Memory) => Status::Memory,
    }
}

/// Answers the question about the document.
fn answer_document<K: Sink>(
    alloc: Global,
    question: Question,
    document: Document<'_>,
    sink: &mut K,
) -> Status
    requires { IsAskable question }
    ensures { Replies K.written K.flushed K.flushes K.faults (AnswersQuestion (question_view question) (document_view document.entry)) result sink.old sink.new }
{
    match question {
        Question::Plan => answer_plan(alloc, document, sink),
        Question::Round => answer_round(alloc, document, sink),
        Question::AverageRate { grid } => answer_average_rate(alloc, document, grid, sink),
        Question::OptimalAvailable { grid } => answer_optimal_available(
            alloc, document, grid, sink,
        ),
        Question::Check => answer_check(alloc, document, sink),
        Question::Audit { points: false } => answer_audit(document, sink),
        Question::Audit { points: true } => answer_audit_on_points(document, sink),
        Question::Report { json: false } => answer_report(alloc, document, sink),
        Question::Report { json: true } => answer_report_as_json(alloc, document, sink),
        Question::Curve => answer_curve(alloc, document, sink),
        Question::Compare { grid } => answer_compare(alloc, document, grid, sink),
        Question::Admit { top } => answer_admit(alloc, document, top, sink),
    }
}

ghost use Rattle.std.specs.Prelude.{◌≡◌, Some};
ghost use Rattle.yds_model.specs.Answer.{AnswersRequest};
ghost use Rattle.yds_model.specs.Request.{OfDocument};
ghost use Rattle.yds_words.specs.Words.{words_of, asked, question_view, IsAskable};
ghost use Rattle.yds_answer.specs.Endings.{Replies};

use crate::running::answer_bytes;
use std::alloc::Global;
use std::hash::RandomState;
use yds_answer::{TooLong, Usage, deliver};
use yds_answer_jobs::answer_tasks_of;
use yds_answer_verdicts::answer_trial;
use yds_model::Status;
use yds_model::limits::MAX_INPUT;
use yds_port::Sink;
use yds_words::{Command, Question};

/// Runs the command that the words name over an input in memory, as `run` does over a source. So what was written is the answer to
/// just this input, and there is no read that could fail.
pub fn run_on_bytes<K: Sink>(
    alloc: Global,
    keys: RandomState,
    words: &[String],
    input: &[u8],
    sink: &mut K,
) -> Status
    ensures { Replies K.written K.flushed K.flushes K.faults (AnswersRequest (asked (words_of words.now)) input.now) result sink.old sink.new }
{
    match Command::of(words) {
        Some(Command::Document(question)) => answer_document_of(alloc, keys, question, input, sink),
        Some(Command::Expand) => answer_tasks_of(alloc, keys, input, sink),
        Some(Command::Trial { seed, jobs }) => answer_trial(alloc, seed, jobs, sink),
        None => deliver(&Usage, sink),
    }
}

/// Answers the question about the document that an input in memory is, or refuses it as too long.
fn answer_document_of<K: Sink>(
    alloc: Global,
    keys: RandomState,
    question: Question,
    input: &[u8],
    sink: &mut K,
) -> Status
    requires { IsAskable question }
    ensures { Replies K.written K.flushed K.flushes K.faults (AnswersRequest (Some (OfDocument (question_view question))) input.now) result sink.old sink.new }
{
    if input.len() > MAX_INPUT {
        return deliver(&TooLong, sink);
    }
    answer_bytes(alloc, keys, question, input, sink)
}

//! `expand`: the jobs of the periodic tasks in the input, and their one level where they have one.
ghost use Rattle.std.specs.Prelude.{◌≡◌, ◌≢◌, ◌⊎◌, ◌≤◌, length, Some};
ghost use Rattle.base.specs.declared.limits.TheConstants.{MAX_INPUT};
ghost use Rattle.yds_model.specs.Answer.{AnswersRequest, AnswersTasks};
ghost use Rattle.yds_model.specs.TaskReading.{task_reading};
ghost use Rattle.yds_model.specs.Request.{OfTasks};
ghost use Rattle.yds_port.specs.Count.{next_count};
ghost use Rattle.yds_answer.specs.Endings.{IsWhole, CountTells, Replies, AnswersTaken};

use std::alloc::Global;
use std::hash::RandomState;
use yds_answer::{Answer, RefusedAt, TooLong, deliver};
use yds_model::Status;
use yds_model::limits::MAX_INPUT;
use yds_port::{ReadAllFault, Sink, Source, WriteFault, read_all};
use yds_tasks::{TaskFault, TaskSet, print_jobs, read_tasks};

/// Tasks, which are answered with their jobs.
#[derive(Drop)]
pub struct Expansion<'a> {
    tasks: TaskSet<'a>,
}

impl Answer for Expansion<'_> {
    ghost use Rattle.base.specs.declared.status.Status.TheVariants as statuses;
    ghost use Rattle.yds_answer_jobs.specs.Expand.{expanded_text};

    ghost text = { expanded_text };

    ghost ends = { λ _. statuses.Done };

    fn status(&self) -> Status {
        Status::Done
    }

    fn write<K: Sink>(&self, sink: &mut K) -> Result<(), WriteFault> {
        print_jobs(&self.tasks, sink)
    }
}

/// Answers with the jobs of the tasks in the input.
pub fn answer_tasks<S: Source, K: Sink>(
    alloc: Global,
    keys: RandomState,
    source: &mut S,
    sink: &mut K,
) -> Status
    ensures source { CountTells Status.ReadFault result (S.faults source.old) (S.faults source.new) }
    ensures sink { CountTells Status.WriteFault result (K.faults sink.old) (K.faults sink.new) }
    ensures nothing_written { (result ≡ Status.Memory) ⊎ (result ≡ Status.ReadFault) → sink.new ≡ sink.old }
    ensures flushed_once { IsWhole result → K.flushes sink.new ≡ next_count (K.flushes sink.old) }
    ensures answer { result ≢ Status.Memory → result ≢ Status.ReadFault
        → AnswersTaken (Some OfTasks) result (S.left source.old) (S.left source.new) (K.written sink.old) (K.written sink.new) (K.flushed sink.new) }
{
    match read_all(alloc, source, MAX_INPUT) {
        Ok(bytes) => expand_bytes(alloc, keys, &bytes, sink),
        Err(ReadAllFault::TooLong) => deliver(&TooLong, sink),
        Err(ReadAllFault::ReadFault) => Status::ReadFault,
        Err(ReadAllFault::Memory) => Status::Memory,
    }
}

/// Answers with the jobs of the tasks that an input in memory is, or refuses it as too long.
pub fn answer_tasks_of<K: Sink>(
    alloc: Global,
    keys: RandomState,
    input: &[u8],
    sink: &mut K,
) -> Status
    ensures { Replies K.written K.flushed K.flushes K.faults (AnswersRequest (Some OfTasks) input.now) result sink.old sink.new }
{
    if input.len() > MAX_INPUT {
        return deliver(&TooLong, sink);
    }
    expand_bytes(alloc, keys, input, sink)
}

/// Answers with the jobs of the tasks that the bytes are.
fn expand_bytes<K: Sink>(alloc: Global, keys: RandomState, bytes: &[u8], sink: &mut K) -> Status
    requires { length bytes.now ≤ MAX_INPUT }
    ensures { Replies K.written K.flushed K.flushes K.faults (AnswersTasks (task_reading bytes.now)) result sink.old sink.new }
{
    match read_tasks(alloc, keys, bytes) {
        Ok(tasks) => deliver(&Expansion { tasks }, sink),
        Err(
            TaskFault::At {
                line,
                column,
                reason,
            },
        ) => {
            let refused = RefusedAt {
                line,
                column,
                word: reason.word(),
            };
            deliver(&refused, sink)
        }
        Err(TaskFault::Memory) => Status::Memory,
    }
}

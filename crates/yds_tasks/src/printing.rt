//! What `expand` writes: the jobs of the tasks, line by line, and their one level where they have one.
ghost use Rattle.std.specs.Prelude.{◌<◌, ◌≤◌, IsErr};
ghost use Rattle.std.specs.List.{flat_map};
ghost use Rattle.base.specs.declared.limits.TheConstants.{MAX_TIME};
ghost use Rattle.yds_model.specs.ExpandAnswer.{level_comment, expansion_text};
ghost use Rattle.yds_port.specs.Sink.{Puts};
ghost use Rattle.yds_tasks.specs.Printed.{task_lines};
ghost use Rattle.yds_tasks.specs.Read.{task_read};

use crate::job_line::{LINE_BYTES, put_job, put_level};
use crate::task::Task;
use crate::task_set::TaskSet;
use arrayvec::ArrayString;
use yds_port::{Sink, WriteFault, write_all};

/// Appends the lines of the tasks' jobs, task by task, and where `one_level` is `Some` the comment
/// `# one level WORK LENGTH`, or after a fault of the sink a front of this text. It takes no memory.
pub fn print_jobs<K: Sink>(tasks: &TaskSet<'_>, sink: &mut K) -> Result<(), WriteFault>
    ensures puts { Puts K.written K.flushed K.flushes K.faults result (expansion_text tasks.now) sink.old sink.new }
    ensures later { K.faults sink.old ≤ K.faults sink.new }
    ensures counted { K.faults sink.old < K.faults sink.new → IsErr result }
{
    print_tasks(tasks.tasks(), tasks.horizon(), sink)?;
    print_level(tasks.one_level(), sink)
}

/// Appends the lines of the tasks' jobs.
fn print_tasks<K: Sink>(tasks: &[Task<'_>], horizon: u32, sink: &mut K) -> Result<(), WriteFault>
    requires { horizon ≤ MAX_TIME }
    ensures { Puts K.written K.flushed K.flushes K.faults result (flat_map (λ task. task_lines horizon (task_read task)) tasks.now) sink.old sink.new }
{
    for task in tasks {
        print_task(task, horizon, sink)?;
    }
    Ok(())
}

/// Appends the lines of one task's jobs.
fn print_task<K: Sink>(task: &Task<'_>, horizon: u32, sink: &mut K) -> Result<(), WriteFault>
    requires { horizon ≤ MAX_TIME }
    ensures { Puts K.written K.flushed K.flushes K.faults result (task_lines horizon (task_read task.now)) sink.old sink.new }
{
    let mut line = ArrayString::<LINE_BYTES>::new();
    for k in 0..task.jobs_until(horizon) {
        put_job(&mut line, task, k);
        write_all(sink, line.as_str().as_bytes())?;
    }
    Ok(())
}

/// Appends the comment that tells the one level, where there is one.
fn print_level<K: Sink>(level: Option<(u64, u64)>, sink: &mut K) -> Result<(), WriteFault>
    ensures { Puts K.written K.flushed K.flushes K.faults result (level_comment level) sink.old sink.new }
{
    match level {
        Some((work, length)) => {
            let mut line = ArrayString::<LINE_BYTES>::new();
            put_level(&mut line, work, length);
            write_all(sink, line.as_str().as_bytes())
        }
        None => Ok(()),
    }
}

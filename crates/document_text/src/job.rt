//! Prints the lines of jobs.

ghost use Rattle.std.specs.Prelude.{◌≡◌, ◌+◌, ◌<◌, ◌≤◌, ◌++◌, length};
ghost use Rattle.base.specs.declared.limits.TheConstants.{MAX_NAME};
ghost use Rattle.yds_model.specs.Document.{name_at};
ghost use Rattle.yds_model.specs.Text.{job_line, job_lines};
ghost use Rattle.yds_port.specs.Sink.{Puts};
ghost use Rattle.document_text.specs.Job.{job_lines_from};

use crate::tail_buffer::{BATCH_BYTES, BATCH_LINES, Lines};
use text_line::line_buffer::LINE_BYTES;
use yds_instance::Instance;
use yds_model::JobRow;
use yds_port::{Sink, WriteFault, write_all};

/// The name of a job, which is short.
pub(crate) fn name_of<'a>(instance: &Instance<'a>, job: u32) -> &'a str
    requires { job < length instance.now.jobs }
    ensures name { result.now ≡ name_at instance.now.names job }
    ensures short { length result.now ≤ MAX_NAME }
{
    instance.name(job)
}

/// Puts the line of a job before the text.
fn put(text: &mut Lines, name: &str, job: &JobRow)
    requires name { length name.now ≤ MAX_NAME }
    requires room { LINE_BYTES + length text.old ≤ BATCH_BYTES }
    ensures bytes { text.new ≡ job_line name.now job.now ++ text.old }
    ensures short { length text.new ≤ LINE_BYTES + length text.old }
{
    text.put_byte(b'\n');
    text.put_number_field(u64::from(job.work));
    text.put_number_field(u64::from(job.deadline));
    text.put_number_field(u64::from(job.release));
    text.put_field(name);
    text.put_kind("job");
}

/// Makes the lines of the jobs from one place to another, from the last to the first.
fn put_all(text: &mut Lines, instance: &Instance<'_>, from: usize, to: usize)
    requires forward { from ≤ to }
    requires within { to ≤ length instance.now.jobs }
    requires few { to ≤ from + BATCH_LINES }
    ensures { text.new ++ job_lines_from to instance.now ≡ job_lines_from from instance.now }
{
    text.clear();
    let rows = instance.rows();
    for job in (from..to).rev() {
        put(text, name_of(instance, job as u32), &rows[job]);
    }
}

/// Appends the lines of the jobs, in their order.
pub(crate) fn print<K: Sink>(instance: &Instance<'_>, sink: &mut K) -> Result<(), WriteFault>
    ensures { Puts K.written K.flushed K.flushes K.faults result (job_lines instance.now.names instance.now.jobs) sink.old sink.new }
{
    let count = instance.rows().len();
    let mut text = Lines::new();
    let mut from = 0;
    while from < count {
        let to = count.min(from + BATCH_LINES);
        put_all(&mut text, instance, from, to);
        write_all(sink, text.as_bytes())?;
        from = to;
    }
    Ok(())
}

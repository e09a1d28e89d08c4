//! The lines that are printed, made on the stack.
ghost use Rattle.std.specs.Prelude.{◌≡◌, ◌+◌, ◌≤◌, ◌∷◌, ◌++◌, length, decimal, Some};
ghost use Rattle.yds_model.specs.Job.{IsJob};
ghost use Rattle.yds_model.specs.Tasks.{nth_job};
ghost use Rattle.yds_model.specs.ExpandAnswer.{level_comment};
ghost use Rattle.yds_tasks.specs.Printed.{nth_line};
ghost use Rattle.yds_tasks.specs.Read.{task_read};

use crate::task::Task;
use arrayvec::ArrayString;
use itoa::Buffer;

/// How many bytes a line has at most. The longest one, that of a job, has its kind, a name, a dot and four
/// numbers.
pub(crate) const LINE_BYTES: usize = 192;

/// How many digits a number has at most.
pub(crate) const NUMBER_BYTES: usize = 20;

/// Makes the line of the job that comes `k` periods after the task's first.
pub(crate) fn put_job(text: &mut ArrayString<LINE_BYTES>, task: &Task<'_>, k: u32)
    requires { IsJob (nth_job (task_read task.now) k) }
    ensures { text.new.bytes ≡ nth_line (task_read task.now) k }
{
    let row = task.row(k);
    text.clear();
    text.push_str("job ");
    text.push_str(task.name);
    text.push_str(".");
    text.push_str(Buffer::new().format(k));
    push_number(text, u64::from(row.release));
    push_number(text, u64::from(row.deadline));
    push_number(text, u64::from(row.work));
    text.push_str("\n");
}

/// Makes the comment that tells the one level, its work and its length.
pub(crate) fn put_level(text: &mut ArrayString<LINE_BYTES>, work: u64, length: u64)
    ensures { text.new.bytes ≡ level_comment (Some (work, length)) }
{
    text.clear();
    text.push_str("# one level");
    push_number(text, work);
    push_number(text, length);
    text.push_str("\n");
}

/// One more field with a number, after a space.
fn push_number(text: &mut ArrayString<LINE_BYTES>, number: u64)
    requires { length text.old.bytes + 1 + NUMBER_BYTES ≤ LINE_BYTES }
    ensures bytes { text.new.bytes ≡ text.old.bytes ++ 32 ∷ decimal number }
    ensures short { length text.new.bytes ≤ length text.old.bytes + 1 + NUMBER_BYTES }
{
    text.push_str(" ");
    text.push_str(Buffer::new().format(number));
}

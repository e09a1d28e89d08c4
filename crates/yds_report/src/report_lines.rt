//! The lines of a report, each made on the stack.

ghost use Rattle.std.specs.Prelude.{◌≡◌, ◌≤◌, length};
ghost use Rattle.std.specs.List.{All};
ghost use Rattle.base.specs.declared.limits.TheConstants.{MAX_JOBS, MAX_LEVELS};
ghost use Rattle.yds_model.specs.Job.{IsJob};
ghost use Rattle.yds_model.specs.ReportAnswer.{jobs_row, level_row, idle_row};
ghost use Rattle.yds_model.specs.Within.{IsLevel};

use crate::numbers::{idle_time, speed_of, total_work};
use text_line::LineBuffer;
use yds_certificate::Level;
use yds_events::{first_release, last_deadline};
use yds_model::JobRow;

/// The number of the jobs, their work together, and the times from their first release to their last deadline.
pub(crate) fn jobs_line(rows: &[JobRow]) -> LineBuffer
    requires few { length rows.now ≤ MAX_JOBS }
    requires jobs { All IsJob rows.now }
    ensures { result ≡ jobs_row rows.now }
{
    LineBuffer::new("jobs")
        .number(rows.len() as u64)
        .field("work")
        .number(total_work(rows))
        .field("from")
        .number(u64::from(first_release(rows)))
        .field("to")
        .number(u64::from(last_deadline(rows)))
        .end()
}

/// Makes the line of a level: its number, its work, its length and its speed, one column each.
pub(crate) fn put_level(line: &mut LineBuffer, number: u64, level: &Level)
    ensures { line.new ≡ level_row (number, level.now) }
{
    line.restart("");
    line.push_right(5, number);
    line.push_column(10, level.work);
    line.push_column(10, level.length);
    line.push_fraction(speed_of(level));
    line.push_end();
}

/// The time in which nothing runs.
pub(crate) fn idle_line(rows: &[JobRow], levels: &[Level]) -> LineBuffer
    requires few { length levels.now ≤ MAX_LEVELS }
    requires levels { All IsLevel levels.now }
    ensures { result ≡ idle_row rows.now levels.now }
{
    LineBuffer::new("idle")
        .number(idle_time(rows, levels))
        .end()
}

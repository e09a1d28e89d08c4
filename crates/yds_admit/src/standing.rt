ghost use Rattle.std.specs.Prelude.{◌≤◌, insert, length};
ghost use Rattle.std.specs.List.Sorted.{IsNonDecreasingBy};

use crate::rows::Rows;
use yds_model::JobRow;

/// The place of one more among these jobs, which stand in rising order of their deadlines.
pub(crate) fn deadline_place(by_deadline: &Rows, row: &JobRow) -> usize
    requires { IsNonDecreasingBy (λ job. job.deadline) by_deadline.now }
    ensures within { result ≤ length by_deadline.now }
    ensures rising { IsNonDecreasingBy (λ job. job.deadline) (insert by_deadline.now result row.now) }
{
    // It comes after those of its own deadline, so that they needn't be moved.
    by_deadline.due_before(row.deadline + 1)
}

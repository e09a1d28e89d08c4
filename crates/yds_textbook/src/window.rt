ghost use Rattle.std.specs.Prelude.{◌↔◌, ◌≤◌, IsTrue};
ghost use Rattle.std.specs.List.{All};

use yds_model::JobRow;

/// Whether the row's window lies between these times, in time units.
pub fn is_within(row: &JobRow, from: u32, to: u32) -> bool
    ensures { IsTrue result ↔ ((from ≤ row.now.release) × (row.now.deadline ≤ to)) }
{
    from <= row.release && row.deadline <= to
}

/// Whether each row has work.
pub fn have_work(rows: &[JobRow]) -> bool
    ensures { IsTrue result ↔ All (λ job. 1 ≤ job.work) rows.now }
{
    rows.iter().all(|row| row.work >= 1)
}

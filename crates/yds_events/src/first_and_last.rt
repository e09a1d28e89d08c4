ghost use Rattle.std.specs.Prelude.{◌≡◌};
ghost use Rattle.yds_model.specs.Energy.{first_release, last_deadline, horizon};

use yds_model::JobRow;

/// The greatest deadline, in time units: 0 where there are no jobs.
pub fn last_deadline(rows: &[JobRow]) -> u32
    ensures { result ≡ last_deadline rows.now }
{
    rows.iter().fold(0, |time, row| row.deadline.max(time))
}

/// The least release, in time units: 0 where there are no jobs.
pub fn first_release(rows: &[JobRow]) -> u32
    ensures { result ≡ first_release rows.now }
{
    rows.iter()
        .fold(last_deadline(rows), |time, row| row.release.min(time))
}

/// The time from the first release to the last deadline, in time units: 0 where there are no jobs.
pub fn horizon(rows: &[JobRow]) -> u32
    ensures { result ≡ horizon rows.now }
{
    last_deadline(rows) - first_release(rows)
}

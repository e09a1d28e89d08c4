ghost use Rattle.std.specs.Prelude.{◌≡◌, ◌<◌, ◌≤◌, ◌↔◌, List, IsTrue, length, MatchOption};
ghost use Rattle.base.specs.declared.limits.TheConstants.{MAX_JOBS};
ghost use Rattle.base.specs.Numbers.{Each};
ghost use Rattle.yds_model.specs.Level.{Level as LevelOfPlan};
ghost use Rattle.yds_model.specs.Proper.{IsWindowCovered};
ghost use Rattle.base.specs.Numbers.{IsFirstFailure};
ghost use Rattle.yds_checker.specs.Home.{AreSettled};
ghost use Rattle.yds_checker.specs.Standing.{AreInRun};

use crate::home::Home;
use crate::pieces_in_turn::PiecesInTurn;
use yds_model::JobRow;

/// Whether the job's window is covered by the pieces of the level of which it is a member, if there is one, and of
/// earlier levels.
fn is_covered(rows: &[JobRow], homes: &[Home], run: &PiecesInTurn, job: usize) -> bool
    requires known { job < length rows.now }
    requires jobs { length homes.now ≡ length rows.now }
    ensures { (levels : List LevelOfPlan) → AreSettled rows.now levels homes.now → AreInRun levels run.now →
        (IsTrue result ↔ IsWindowCovered rows.now levels job) }
{
    let row = &rows[job];
    match homes[job] {
        Home::In(level) => run.covers(level, row.release, row.deadline),
        Home::Nowhere | Home::Often => true,
    }
}

/// The first job whose window isn't covered, if there is one.
pub(crate) fn first_uncovered(rows: &[JobRow], homes: &[Home], run: &PiecesInTurn) -> Option<u32>
    requires few { length rows.now ≤ MAX_JOBS }
    requires jobs { length homes.now ≡ length rows.now }
    ensures { (levels : List LevelOfPlan) → AreSettled rows.now levels homes.now → AreInRun levels run.now →
        MatchOption result
        (Each (length rows.now) (IsWindowCovered rows.now levels))
        (IsFirstFailure (length rows.now) (IsWindowCovered rows.now levels)) }
{
    for job in 0..rows.len() {
        if !is_covered(rows, homes, run, job) {
            return Some(job as u32);
        }
    }
    None
}

ghost use Rattle.std.specs.Prelude.{◌≡◌, ◌<◌, ◌≤◌, ◌↔◌, List, IsTrue, length, MatchOption};
ghost use Rattle.base.specs.declared.limits.TheConstants.{MAX_JOBS};
ghost use Rattle.base.specs.Numbers.{Each};
ghost use Rattle.yds_model.specs.Level.{Level as LevelOfPlan, all_members};
ghost use Rattle.yds_model.specs.Proper.{StandsOnce};
ghost use Rattle.base.specs.Numbers.{IsFirstFailure};
ghost use Rattle.yds_checker.specs.Home.{AreHomes};

use crate::home::Home;
use yds_model::JobRow;

/// Whether the job stands once, or, where it has no work, at most once.
fn stands_once(rows: &[JobRow], homes: &[Home], job: usize) -> bool
    requires known { job < length rows.now }
    requires homes { length homes.now ≡ length rows.now }
    ensures { (levels : List LevelOfPlan) → AreHomes levels (all_members levels) homes.now →
        (IsTrue result ↔ StandsOnce rows.now levels job) }
{
    let row = &rows[job];
    match homes[job] {
        Home::Nowhere => row.work == 0,
        Home::In(_) => true,
        Home::Often => false,
    }
}

/// The first job that doesn't stand once, if there is one.
pub(crate) fn first_wrong_member(rows: &[JobRow], homes: &[Home]) -> Option<u32>
    requires few { length rows.now ≤ MAX_JOBS }
    requires homes { length homes.now ≡ length rows.now }
    ensures { (levels : List LevelOfPlan) → AreHomes levels (all_members levels) homes.now →
        MatchOption result
        (Each (length rows.now) (StandsOnce rows.now levels))
        (IsFirstFailure (length rows.now) (StandsOnce rows.now levels)) }
{
    for job in 0..rows.len() {
        if !stands_once(rows, homes, job) {
            return Some(job as u32);
        }
    }
    None
}

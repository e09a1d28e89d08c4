ghost use Rattle.std.specs.Prelude.{◌≡◌, ℕ, ◌<◌, ◌≤◌, [], ◌∷◌, ◌++◌, List, length, vec_len, IfOk};
ghost use Rattle.std.specs.List.{All, Contains};
ghost use Rattle.base.specs.declared.limits.TheConstants.{MAX_LEVELS};
ghost use Rattle.yds_model.specs.Level.{Level as LevelOfPlan, level_at, all_members};
ghost use Rattle.yds_checker.specs.Home.{IsHome, AreHomes};

use std::alloc::Global;
use yds_certificate::Level;
use yds_model::Memory;

/// Where a job stands among the members of levels.
#[derive(Clone, Copy, Debug)]
pub(crate) enum Home {
    /// It is a member of no level.
    Nowhere,
    /// It stands once, in the level of this number.
    In(u32),
    /// It stands twice or more often.
    Often,
}

impl Home {
    /// Where the job stands when it is met once more, in this level.
    fn with(self, level: u32) -> Home
        ensures { (levels : List LevelOfPlan) (members : List ℕ) (job : ℕ) →
            level < length levels → Contains (level_at levels level).members job →
            IsHome levels members job self → IsHome levels (members ++ job ∷ []) job result }
    {
        match self {
            Home::Nowhere => Home::In(level),
            Home::In(_) | Home::Often => Home::Often,
        }
    }
}

/// Notes where the members of one level stand.
fn settle(homes: &mut [Home], members: &[u32], level: u32)
    requires known { All (λ job. job < length homes.old) members.now }
    ensures { (levels : List LevelOfPlan) (before : List ℕ) →
        level < length levels → (level_at levels level).members ≡ members.now →
        AreHomes levels before homes.old → AreHomes levels (before ++ members.now) homes.new }
{
    for job in members {
        let home = &mut homes[*job as usize];
        *home = home.with(level);
    }
}

/// Notes where the members of all levels stand.
fn settle_all(homes: &mut [Home], levels: &[Level])
    requires few { length levels.now ≤ MAX_LEVELS }
    requires known { All (λ level. All (λ job. job < length homes.old) level.members) levels.now }
    ensures { AreHomes levels.now [] homes.old → AreHomes levels.now (all_members levels.now) homes.new }
{
    for (i, level) in levels.iter().enumerate() {
        settle(homes, &level.members, i as u32);
    }
}

/// Where each of so many jobs stands.
pub(crate) fn homes_of(alloc: Global, jobs: usize, levels: &[Level]) -> Result<Vec<Home>, Memory>
    requires few { length levels.now ≤ MAX_LEVELS }
    requires known { All (λ level. All (λ job. job < jobs) level.members) levels.now }
    ensures jobs { IfOk result (λ homes. vec_len homes ≡ jobs) }
    ensures homes { IfOk result (λ homes. AreHomes levels.now (all_members levels.now) homes.items) }
{
    let mut homes = Vec::new(alloc);
    homes.resize(jobs, Home::Nowhere)?;
    settle_all(&mut homes, levels);
    Ok(homes)
}

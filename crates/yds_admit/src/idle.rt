ghost use Rattle.std.specs.Prelude.{◌≡◌, ℕ, ◌+◌, ◌-◌, ◌<◌, ◌≤◌, List, length, slice_index, slice_set, min, MatchOption};
ghost use Rattle.yds_admit.specs.Chain.{AreLinks, AreEmpty};
ghost use Rattle.yds_admit.specs.Idle.{IsIdleFrom, IsTakenFrom, idle_before};

use crate::chain::last_open;

/// The last place from which so many units are idle up to `end`, if there is one.
pub(crate) fn idle_place(idle: &[u64], links: &mut [usize], end: usize, units: u64) -> Option<usize>
    requires within { end ≤ length idle.now }
    requires links { AreLinks idle.now links.old }
    ensures place { MatchOption result (idle_before idle.now end < units) (IsIdleFrom idle.now end units) }
    ensures links { AreLinks idle.now links.new }
{
    let mut wanted = units;
    let mut place = end;
    while wanted > 0 {
        if place == 0 {
            return None;
        }
        place = last_idle(links, place);
        wanted -= wanted.min(idle[place]);
    }
    Some(place)
}

/// Takes so many units from what is idle before `end`, or all of it where that is less. Answers the place after the earliest gap from which
/// units were taken, or 0 where they were too few.
pub(crate) fn take_before(idle: &mut [u64], links: &mut [usize], end: usize, units: u64) -> usize
    requires within { end ≤ length idle.old }
    requires links { AreLinks idle.old links.old }
    ensures taken { IsTakenFrom idle.old idle.new end units result }
    ensures links { AreLinks idle.new links.new }
{
    let mut left = units;
    let mut place = end;
    while left > 0 && place > 0 {
        place = last_idle(links, place);
        left -= take_part(idle, links, place, left);
    }
    if left > 0 { 0 } else { place + 1 }
}

/// The last gap before a place of which something is idle, or the first gap. The links get shorter.
fn last_idle(links: &mut [usize], place: usize) -> usize
    requires some { 0 < place }
    requires known { place < length links.old }
    requires back { (p : ℕ) → p < length links.old → slice_index links.old p ≤ p }
    ensures before { result < place }
    ensures kept { (idle : List ℕ) → AreLinks idle links.old → AreLinks idle links.new }
    ensures empty { (idle : List ℕ) → AreLinks idle links.old → AreEmpty idle (result + 1) place }
{
    last_open(links, place).max(1) - 1
}

/// Takes so many units from what is idle in one gap, or all of it where that is less. Answers how many.
#[tactic(auto, using(crate::proofs::Links::less_left, crate::proofs::Links::linked))]
fn take_part(idle: &mut [u64], links: &mut [usize], gap: usize, units: u64) -> u64
    requires within { gap < length idle.old }
    requires links { AreLinks idle.old links.old }
    ensures taken { result ≡ min units (slice_index idle.old gap) }
    ensures idle { idle.new ≡ slice_set idle.old gap (slice_index idle.old gap - result) }
    ensures links { AreLinks idle.new links.new }
{
    let taken = units.min(idle[gap]);
    idle[gap] -= taken;
    if idle[gap] == 0 {
        links[gap + 1] = gap;
    }
    taken
}

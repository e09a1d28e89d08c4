ghost use Rattle.std.specs.Prelude.{◌≤◌, ◌<◌, ◌⊎◌, length, IsTrue, IsFalse, IfSome};
ghost use Rattle.yds_edf.specs.Blocks.{units_before};
ghost use Rattle.yds_oa.specs.Greatest.{AreInOrder, AreDueAfter, IsGreatestOf, IsWalk, IsFurther, IsQuotientAmong, IsGreatestWithin};

use crate::quotient::Quotient;
use yds_edf::{PendingJobs, block_end, group_end};

/// How far a walk over the jobs that are due after a time has come.
#[derive(Clone, Copy, Debug)]
pub(crate) struct Walk {
    /// The time.
    pub(crate) from: u32,
    /// The place of the first of them.
    pub(crate) start: usize,
    /// The place that comes next.
    pub(crate) place: usize,
    /// The units at the places from the start to it.
    pub(crate) units: u64,
    /// The greatest quotient so far.
    pub(crate) greatest: Quotient,
}

/// The greatest quotient of the pending units that are due after this time and by a deadline, and the time until then; no
/// units where there are no such deadlines. It looks first at the place that is expected to have it, and passes over
/// blocks of places where even all units that are due by the end of a block, at its first deadline, give no greater one, eight
/// blocks at once where it can. Behind the last pending unit no deadline has a greater one.
pub(crate) fn greatest_quotient(jobs: &PendingJobs, from: u32, expected: usize) -> Quotient
    requires { AreInOrder jobs.now }
    ensures { IsGreatestOf jobs.now from result }
{
    let start = first_due(jobs, from);
    let mut walk = Walk {
        from,
        start,
        place: start,
        units: 0,
        greatest: first_guess(jobs, from, start, expected),
    };
    while has_more(jobs, &walk) {
        walk = past_block(jobs, walk);
    }
    walk.greatest
}

/// The first place whose deadline is after this time, behind the places where nothing is pending.
fn first_due(jobs: &PendingJobs, from: u32) -> usize
    requires { AreInOrder jobs.now }
    ensures { AreDueAfter jobs.now from result }
{
    let mut start = jobs.units.start().min(jobs.order.len());
    while start < jobs.order.len() {
        if jobs.order[start].deadline > from {
            break;
        }
        start += 1;
    }
    start
}

/// Whether a place is left at which units may be pending.
fn has_more(jobs: &PendingJobs, walk: &Walk) -> bool
    ensures more { IsTrue result → walk.now.place < length jobs.now.order.items }
    ensures none { IsFalse result → (length jobs.now.order.items ≤ walk.now.place) ⊎ (units_before jobs.now.units (length jobs.now.units) ≤ walk.now.units) }
{
    walk.place < jobs.order.len() && walk.units < jobs.units.total()
}

/// The quotient of the expected place's deadline, where that is none of the places before the start.
fn first_guess(jobs: &PendingJobs, from: u32, start: usize, expected: usize) -> Quotient
    requires units { AreInOrder jobs.now }
    requires after { AreDueAfter jobs.now from start }
    ensures some_time { 1 ≤ result.time }
    ensures attained { IsQuotientAmong jobs.now from start result }
{
    if expected < start || expected >= jobs.order.len() {
        return Quotient {
            units: 0,
            time: 1,
            place: start,
        };
    }
    Quotient {
        units: jobs.units.sum(start, expected + 1),
        time: jobs.order[expected].deadline - from,
        place: expected,
    }
}

/// Past the block of blocks that begins at the next place where it can be passed over, or past the place's block.
fn past_block(jobs: &PendingJobs, walk: Walk) -> Walk
    requires units { AreInOrder jobs.now }
    requires walk { IsWalk jobs.now walk }
    requires more { walk.place < length jobs.now.order.items }
    ensures walk { IsWalk jobs.now result }
    ensures further { IsFurther walk result }
{
    let long = group_end(walk.place, jobs.order.len());
    if let Some(further) = passed_over(jobs, long, walk) {
        return further;
    }
    let end = block_end(walk.place, jobs.order.len());
    if let Some(further) = passed_over(jobs, end, walk) {
        return further;
    }
    Walk {
        place: end,
        units: walk.units + jobs.units.between(walk.place, end),
        greatest: greatest_until(jobs, end, walk),
        ..walk
    }
}

/// The walk at this end where even all units that are due by it, at the next place's deadline, give no greater quotient.
fn passed_over(jobs: &PendingJobs, end: usize, walk: Walk) -> Option<Walk>
    requires units { AreInOrder jobs.now }
    requires walk { IsWalk jobs.now walk }
    requires forward { walk.place < end }
    requires within { end ≤ length jobs.now.order.items }
    ensures walk { IfSome result (IsWalk jobs.now) }
    ensures further { IfSome result (IsFurther walk) }
{
    let units = walk.units + jobs.units.between(walk.place, end);
    let most = Quotient {
        units,
        time: jobs.order[walk.place].deadline - walk.from,
        place: walk.place,
    };
    if !most.is_at_most(walk.greatest) {
        return None;
    }
    Some(Walk {
        place: end,
        units,
        ..walk
    })
}

/// The greatest quotient once the walk has come to this end.
fn greatest_until(jobs: &PendingJobs, end: usize, walk: Walk) -> Quotient
    requires units { AreInOrder jobs.now }
    requires walk { IsWalk jobs.now walk }
    requires forward { walk.place ≤ end }
    requires within { end ≤ length jobs.now.order.items }
    ensures { IsGreatestWithin jobs.now walk.from walk.start end result }
{
    let placed = jobs.units.units();
    let mut units = walk.units;
    let mut greatest = walk.greatest;
    for place in walk.place..end {
        units += placed[place];
        greatest = greatest.max(Quotient {
            units,
            time: jobs.order[place].deadline - walk.from,
            place,
        });
    }
    greatest
}

ghost use Rattle.std.specs.Prelude.{◌≡◌, ℕ, ◌+◌, ◌-◌, ◌*◌, ◌<◌, ◌≤◌, ◌⊎◌, IfOk, IsTrue, List, length, slice_index};
ghost use Rattle.std.specs.List.{range_with_len};
ghost use Rattle.std.specs.List.Sorted.{IsNonDecreasing, IsNonDecreasingBy};
ghost use Rattle.yds_admit.specs.Chain.{AreTimes, IsPlace, Takes, AreLinks, AreEmpty};

use std::alloc::{AllocError, Global};
use yds_model::{JobRow, Memory};

/// Time 0 and the deadlines, each once.
pub(crate) fn times(alloc: Global, by_deadline: &[JobRow]) -> Result<Vec<u32>, Memory>
    requires { IsNonDecreasingBy (λ job. job.deadline) by_deadline.now }
    ensures { IfOk result (λ times. AreTimes 0 by_deadline.now times.items) }
{
    let mut times = Vec::new(alloc);
    let mut last = 0;
    times.push(last)?;
    for job in by_deadline {
        if last < job.deadline {
            last = job.deadline;
            times.push(last)?;
        }
    }
    Ok(times)
}

/// The work that the top speed does between each time and the next.
#[tactic(auto, using(std::proofs::lemmas::List::length_push, crate::proofs::Times::gap_pushed))]
pub(crate) fn gaps(alloc: Global, times: &[u32], top: u32) -> Result<Vec<u64>, Memory>
    requires some { 1 ≤ length times.now }
    requires rising { IsNonDecreasing times.now }
    ensures as_long { IfOk result (λ gaps. length gaps.items + 1 ≡ length times.now) }
    ensures each { IfOk result (λ gaps. (q : ℕ) → q + 1 < length times.now →
        slice_index gaps.items q + top * slice_index times.now q ≡ top * slice_index times.now (q + 1)) }
{
    let mut gaps = Vec::new(alloc);
    for next in 1..times.len() {
        gaps.push(u64::from(top) * u64::from(times[next] - times[next - 1]))?;
    }
    Ok(gaps)
}

/// How many of the times come before this one.
pub(crate) fn place(times: &[u32], time: u32) -> usize
    requires { IsNonDecreasing times.now }
    ensures within { result ≤ length times.now }
    ensures is { IsPlace times.now time result }
{
    if !times.is_empty() && time <= times[0] {
        return 0;
    }
    times.partition_point(|other| *other < time)
}

/// Takes so many units from the gaps before this place, from the last one on, down to the lowest gap. Answers how many are left.
/// Gaps of which nothing is left are jumped over by their links.
pub(crate) fn take(
    gaps: &mut [u64],
    links: &mut [usize],
    place: usize,
    lowest: usize,
    units: u64,
) -> u64
    requires within { place ≤ length gaps.old }
    requires links { AreLinks gaps.old links.old }
    ensures takes { result ≡ 0 ⊎ lowest ≡ 0 → Takes gaps.old place units gaps.new 0 result }
    ensures kept { (q : ℕ) → q < lowest → slice_index gaps.new q ≡ slice_index gaps.old q }
    ensures links { AreLinks gaps.new links.new }
{
    let mut left = units;
    let mut place = last_open(links, place);
    while left > 0 && place > lowest {
        place -= 1;
        let taken = left.min(gaps[place]);
        gaps[place] -= taken;
        left -= taken;
        links[place + 1] = if left > 0 { place } else { place + 1 };
        place = last_open(links, place);
    }
    left
}

/// The place that the links lead to from this one. They get shorter.
#[tactic(auto, using(crate::proofs::Links::shorter, crate::proofs::Links::still_back, crate::proofs::Links::emptier))]
pub(crate) fn last_open(links: &mut [usize], place: usize) -> usize
    requires known { place < length links.old }
    requires back { (p : ℕ) → p < length links.old → slice_index links.old p ≤ p }
    ensures within { result ≤ place }
    ensures own { slice_index links.new result ≡ result }
    ensures kept { (gaps : List ℕ) → AreLinks gaps links.old → AreLinks gaps links.new × AreEmpty gaps result place }
{
    let mut at = place;
    while links[at] < at {
        let next = links[at];
        let further = links[next];
        links[at] = further;
        at = further;
    }
    at
}

/// Each place with a link to itself.
pub(crate) fn own_links(alloc: Global, count: usize) -> Result<Vec<usize>, AllocError>
    ensures { IfOk result (λ links. links.items ≡ range_with_len 0 count) }
{
    (0..count).collect(alloc)
}

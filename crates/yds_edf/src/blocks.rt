ghost use Rattle.std.specs.Prelude.{◌≡◌, ◌+◌, ◌*◌, ◌<◌, ◌≤◌, IfOk, MatchOption, length, replicate, slice_index, slice_set};
ghost use Rattle.yds_edf.specs.Blocks.{units_before, HaveFewUnits, IsFirstPlace};

use crate::limits::MAX_GRAIN;
use std::alloc::Global;
use std::marker::Model;
use yds_model::Memory;
use yds_model::limits::{MAX_JOBS, MAX_WORK};

/// How many places a block has.
pub const BLOCK: usize = 8;

/// How many places a block of blocks has.
pub const GROUP: usize = 64;

/// The units at places, with their sums in blocks of places, and in blocks of such blocks.
#[derive(Drop)]
pub struct PlacedUnits {
    units: Vec<u64>,
    /// The sum of each block, of which the last may have no place.
    blocks: Vec<u64>,
    /// The sum of each block of those, likewise.
    groups: Vec<u64>,
    /// The sum of all.
    total: u64,
    /// A place with no units before it.
    start: usize,
}

impl Model for PlacedUnits {
    ghost use Rattle.std.specs.Prelude.{ℕ, List};
    ghost use Rattle.yds_edf.specs.Blocks.{AreSummed};

    ghost Value = { List ℕ };

    ghost view = { λ placed. placed.units.items };

    ghost invariant = { λ placed. AreSummed placed.units.items placed.blocks.items placed.groups.items placed.total placed.start };
}

impl PlacedUnits {
    /// None at so many places.
    pub(crate) fn new(alloc: Global, count: usize) -> Result<PlacedUnits, Memory>
        requires { count ≤ MAX_JOBS }
        ensures { IfOk result (λ placed. placed ≡ replicate count 0) }
    {
        Ok(PlacedUnits {
            units: vec![in alloc; 0; count]?,
            blocks: vec![in alloc; 0; count / BLOCK + 1]?,
            groups: vec![in alloc; 0; (count / BLOCK + 1) / BLOCK + 1]?,
            total: 0,
            start: 0,
        })
    }

    /// The units at each place.
    pub fn units(&self) -> &[u64]
        ensures units { result.now ≡ self.now }
        ensures few { HaveFewUnits result.now }
    {
        &self.units
    }

    /// The units at all places together.
    pub fn total(&self) -> u64
        ensures { result ≡ units_before self.now (length self.now) }
    {
        self.total
    }

    /// A place with no units before it.
    pub fn start(&self) -> usize
        ensures { units_before self.now result ≡ 0 }
    {
        self.start
    }

    /// Puts so many units at the place, in place of those that were there.
    pub(crate) fn set(&mut self, place: usize, units: u64)
        requires known { place < length self.old }
        requires in_range { units ≤ MAX_WORK * MAX_GRAIN }
        ensures { self.new ≡ slice_set self.old place units }
    {
        let old = self.units[place];
        let block = place / BLOCK;
        let group = block / BLOCK;
        self.groups[group] = self.groups[group] - old + units;
        self.blocks[block] = self.blocks[block] - old + units;
        self.total = self.total - old + units;
        self.units[place] = units;
        self.start = self.start.min(place);
    }

    /// The units at the place.
    pub fn at(&self, place: usize) -> u64
        requires { place < length self.now }
        ensures units { result ≡ slice_index self.now place }
        ensures in_range { result ≤ MAX_WORK * MAX_GRAIN }
    {
        self.units[place]
    }

    /// The first place that has units.
    pub(crate) fn first(&mut self) -> Option<usize>
        ensures same { self.new ≡ self.old }
        ensures first { MatchOption result (units_before self.old (length self.old) ≡ 0) (IsFirstPlace self.old) }
    {
        if self.total == 0 {
            return None;
        }
        let mut place = self.start;
        while self.at(place) == 0 {
            place = self.next(place);
        }
        self.start = place;
        Some(place)
    }

    /// A place after this one, which has no units, with none before it either where this one has none before it.
    fn next(&self, place: usize) -> usize
        requires known { place < length self.now }
        requires none { slice_index self.now place ≡ 0 }
        ensures further { place < result }
        ensures none { units_before self.now result ≡ units_before self.now place }
    {
        if place % GROUP == 0 && self.groups[place / BLOCK / BLOCK] == 0 {
            place + GROUP
        } else if place % BLOCK == 0 && self.blocks[place / BLOCK] == 0 {
            place + BLOCK
        } else {
            place + 1
        }
    }

    /// The units from this place to the end: of a block or of a block of blocks without looking at its places.
    pub fn between(&self, start: usize, end: usize) -> u64
        requires forward { start ≤ end }
        requires within { end ≤ length self.now }
        ensures units { units_before self.now start + result ≡ units_before self.now end }
        ensures few { HaveFewUnits self.now }
    {
        if start % GROUP == 0 && end == start + GROUP {
            return self.groups[start / BLOCK / BLOCK];
        }
        if start % BLOCK == 0 && end == start + BLOCK {
            return self.blocks[start / BLOCK];
        }
        let mut units = 0;
        for place in start..end {
            units += self.units[place];
        }
        units
    }

    /// The units from this place to the end, block by block.
    pub fn sum(&self, start: usize, end: usize) -> u64
        requires few { length self.now ≤ MAX_JOBS }
        requires forward { start ≤ end }
        requires within { end ≤ length self.now }
        ensures units { units_before self.now start + result ≡ units_before self.now end }
    {
        let mut units = 0;
        let mut place = start;
        while place < end {
            let next = group_end(place, end);
            units += self.between(place, next);
            place = next;
        }
        units
    }
}

/// The end of the place's block, or this limit where it comes first.
pub fn block_end(place: usize, limit: usize) -> usize
    requires before { place < limit }
    requires in_range { limit ≤ MAX_JOBS }
    ensures forward { place < result }
    ensures within { result ≤ limit }
{
    limit.min((place / BLOCK + 1) * BLOCK)
}

/// The end of the block of blocks that begins at the place, or of the place's block where none does before this limit.
pub fn group_end(place: usize, limit: usize) -> usize
    requires before { place < limit }
    requires in_range { limit ≤ MAX_JOBS }
    ensures forward { place < result }
    ensures within { result ≤ limit }
{
    if place % GROUP == 0 && place + GROUP <= limit {
        place + GROUP
    } else {
        block_end(place, limit)
    }
}

ghost use Rattle.std.specs.Prelude.{◌≡◌, ◌<◌, ◌≤◌, ◌-◌, ◌*◌, [], IfOk, OnOk, OnErr};
ghost use Rattle.std.specs.List.Sorted.{IsStrictlyIncreasing};
ghost use Rattle.base.specs.declared.limits.TheConstants.{MAX_TIME};
ghost use Rattle.yds_contract.specs.Contracted.{place, ArePieces, Removes};
ghost use Rattle.yds_contract.specs.Spread.{IsSpread};
ghost use Rattle.yds_model.specs.Scale.{at_scale, of_parts};

use crate::removed::{Removed, pieces_between, time_before};
use crate::removing::with_removed;
use crate::spreading::spread_over;
use std::alloc::Global;
use std::marker::Model;
use yds_certificate::Piece;
use yds_fraction::Speed;
use yds_model::Memory;
use yds_slots::Slot;

/// Time from which stretches of real time are removed.
///
/// The removed stretches are in order, don't touch, and end by `MAX_TIME`.
#[derive(Drop)]
pub struct Contraction {
    removed: Vec<Removed>,
}

impl Model for Contraction {
    ghost use Rattle.std.specs.Prelude.{List};
    ghost use Rattle.yds_model.specs.Piece.{Piece as PieceOfTime};
    ghost use Rattle.yds_contract.specs.Removed.{removed_stretches, IsContraction};

    ghost Value = { List PieceOfTime };

    ghost view = { λ c. removed_stretches c.removed.items };

    ghost invariant = { λ c. IsContraction c.removed.items };
}

impl Contraction {
    /// Real time, from which nothing is removed.
    pub fn new(alloc: Global) -> Contraction
        ensures { result ≡ [] }
    {
        Contraction {
            removed: Vec::new(alloc),
        }
    }

    /// The place of a time in contracted time: the time less the removed time before it, in time units.
    pub fn place(&self, time: u32) -> u32
        requires { time ≤ MAX_TIME }
        ensures { result ≡ place self.now time }
    {
        time - time_before(&self.removed, time)
    }

    /// The pieces of real time that aren't removed and whose places lie from `start` to `end`: in order, not touching,
    /// each of some length.
    pub fn pieces(&self, start: u32, end: u32) -> Result<Vec<Piece>, Memory>
        requires forward { start < end }
        requires within { end ≤ place self.now MAX_TIME }
        ensures { IfOk result (λ pieces. ArePieces self.now start end pieces.items) }
    {
        pieces_between(*self.removed.allocator(), &self.removed, start, end)
    }

    /// Removes the pieces from `start` to `end` besides. The contraction is unchanged after want of memory.
    pub fn remove(&mut self, start: u32, end: u32) -> Result<(), Memory>
        requires forward { start < end }
        requires within { end ≤ place self.old MAX_TIME }
        ensures ok { OnOk result (Removes self.old start end self.new) }
        ensures err { OnErr result (self.new ≡ self.old) }
    {
        let alloc = *self.removed.allocator();
        self.removed = with_removed(alloc, &self.removed, start, end)?;
        Ok(())
    }

    /// The real slots that make up a slot of contracted time, which runs at this speed, in lowest terms: of the same job, in
    /// order, at the same speed. None overlaps a removed stretch, and no event lies strictly inside one; the slot is cut there
    /// and nowhere else. The ends of the slot are whole or have the speed's numerator as denominator, and so do those of the real
    /// slots; works that aren't whole have the speed's denominator.
    pub fn spread(&self, slot: Slot, speed: Speed, events: &[u32]) -> Result<Vec<Slot>, Memory>
        requires some { 1 ≤ speed.num }
        requires forward { at_scale speed.num slot.from < at_scale speed.num slot.to }
        requires within { at_scale speed.num slot.to ≤ place self.now MAX_TIME * speed.num }
        requires at_speed { slot.work ≡ of_parts (at_scale speed.num slot.to - at_scale speed.num slot.from) speed.den }
        requires events { IsStrictlyIncreasing events.now }
        ensures { IfOk result (λ slots. IsSpread self.now slot speed events.now slots.items) }
    {
        let alloc = *self.removed.allocator();
        spread_over(alloc, &self.removed, slot, speed, events)
    }
}

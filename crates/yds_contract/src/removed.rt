ghost use Rattle.std.specs.Prelude.{◌≡◌, ◌<◌, ◌≤◌, ◌+◌, ◌-◌, [], ◌∷◌, ◌++◌, length, IfOk, OnOk};
ghost use Rattle.base.specs.declared.limits.TheConstants.{MAX_TIME};
ghost use Rattle.yds_contract.specs.Contracted.{removed_before, place, ArePieces};
ghost use Rattle.yds_contract.specs.Removed.{removed_stretches, AreBegun, IsContraction};
ghost use Rattle.yds_contract.specs.Clipped.{clipped};

use std::alloc::Global;
use yds_certificate::Piece;
use yds_model::Memory;

/// A stretch of real time that is removed.
#[derive(Clone, Copy, Debug)]
pub(crate) struct Removed {
    /// Where it begins, in time units.
    pub from: u32,
    /// Where it ends, in time units.
    pub to: u32,
    /// The removed time before it, in time units.
    pub before: u32,
}

/// How many of the stretches begin before `time`. They are looked through by halves.
fn begun_before(removed: &[Removed], time: u32) -> usize
    requires { IsContraction removed.now }
    ensures { AreBegun removed.now time result }
{
    removed.partition_point(|stretch| stretch.from < time)
}

/// The removed time before `time`, by the stretch that begins last before it.
pub(crate) fn time_before(removed: &[Removed], time: u32) -> u32
    requires { IsContraction removed.now }
    ensures { result ≡ removed_before (removed_stretches removed.now) time }
{
    let begun = begun_before(removed, time);
    if begun == 0 {
        return 0;
    }
    let last = &removed[begun - 1];
    last.before + (time.min(last.to) - last.from)
}

/// Puts the time between these two last among the pieces, where there is any.
fn add(pieces: &mut Vec<Piece>, from: u32, to: u32) -> Result<(), Memory>
    requires { to ≤ MAX_TIME }
    ensures { OnOk result (pieces.new.items ≡ pieces.old.items ++ clipped from to) }
{
    if from < to {
        pieces.push(Piece { from, to })?;
    }
    Ok(())
}

/// The pieces of real time that aren't removed and whose places lie from `start` to `end`.
pub(crate) fn pieces_between(
    alloc: Global,
    removed: &[Removed],
    start: u32,
    end: u32,
) -> Result<Vec<Piece>, Memory>
    requires removed { IsContraction removed.now }
    requires forward { start < end }
    requires within { end ≤ place (removed_stretches removed.now) MAX_TIME }
    ensures { IfOk result (λ pieces. ArePieces (removed_stretches removed.now) start end pieces.items) }
{
    let mut pieces = Vec::new(alloc);
    let mut from: u32 = 0;
    let mut before = 0;
    for stretch in removed {
        add(
            &mut pieces,
            from.max(start + before),
            stretch.from.min(end + before),
        )?;
        from = stretch.to;
        before += stretch.to - stretch.from;
    }
    add(&mut pieces, from.max(start + before), end + before)?;
    Ok(pieces)
}

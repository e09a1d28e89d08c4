ghost use Rattle.std.specs.Prelude.{◌≡◌, ◌<◌, ◌≤◌, ◌+◌, [], ◌∷◌, ◌++◌, length, IfOk, OnOk};
ghost use Rattle.std.specs.List.{All};
ghost use Rattle.base.specs.declared.limits.TheConstants.{MAX_TIME};
ghost use Rattle.yds_model.specs.Piece.{IsForward, total_length};
ghost use Rattle.yds_contract.specs.Contracted.{place, Removes};
ghost use Rattle.yds_contract.specs.Removed.{removed_stretches, AreSummed, IsContraction};
ghost use Rattle.yds_contract.specs.Removing.{IsAppended};

use crate::removed::Removed;
use std::alloc::Global;
use yds_model::Memory;

/// How long the removed stretches are together, in time units.
fn total_removed(removed: &[Removed]) -> u32
    requires summed { AreSummed removed.now }
    requires forward { All IsForward (removed_stretches removed.now) }
    requires fits { total_length (removed_stretches removed.now) ≤ MAX_TIME }
    ensures { result ≡ total_length (removed_stretches removed.now) }
{
    match removed {
        [.., last] => last.before + (last.to - last.from),
        [] => 0,
    }
}

/// Puts a stretch last, with the removed time before it.
fn append(removed: &mut Vec<Removed>, from: u32, to: u32) -> Result<(), Memory>
    requires summed { AreSummed removed.old.items }
    requires forward { All IsForward (removed_stretches removed.old.items) }
    requires fits { total_length (removed_stretches removed.old.items) ≤ MAX_TIME }
    ensures { OnOk result (IsAppended removed.old.items (record { from = from; to = to }) removed.new.items) }
{
    let before = total_removed(removed);
    removed.push(Removed { from, to, before })?;
    Ok(())
}

/// The removed stretches once the time between these two places is removed besides. Those that touch it or lie inside
/// join it.
pub(crate) fn with_removed(
    alloc: Global,
    removed: &[Removed],
    start: u32,
    end: u32,
) -> Result<Vec<Removed>, Memory>
    requires removed { IsContraction removed.now }
    requires forward { start < end }
    requires within { end ≤ place (removed_stretches removed.now) MAX_TIME }
    ensures removes { IfOk result (λ changed. Removes (removed_stretches removed.now) start end (removed_stretches changed.items)) }
    ensures kept { IfOk result (λ changed. IsContraction changed.items) }
{
    let mut changed = Vec::new(alloc);
    let mut from = start;
    let mut to = end;
    for stretch in removed {
        let length = stretch.to - stretch.from;
        if stretch.from < from {
            append(&mut changed, stretch.from, stretch.to)?;
            from += length;
            to += length;
        } else if stretch.from <= to {
            to += length;
        } else {
            append(&mut changed, from, to)?;
            from = stretch.from;
            to = stretch.to;
        }
    }
    append(&mut changed, from, to)?;
    Ok(changed)
}

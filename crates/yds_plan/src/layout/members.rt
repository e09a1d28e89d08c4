ghost use Rattle.std.specs.Prelude.{◌≡◌, ◌<◌, ◌≤◌, [], length, map, slice_set, IfOk, IsTrue};
ghost use Rattle.std.specs.List.{All, range_with_len};
ghost use Rattle.yds_model.specs.Level.{level_at};
ghost use Rattle.yds_model.specs.Within.{IsPiece};
ghost use Rattle.yds_certificate.specs.Level.{with_member};
ghost use Rattle.yds_search.specs.Views.{found_view};
ghost use Rattle.yds_plan.specs.Laid.{level_of};
ghost use Rattle.yds_plan.specs.Drafts.{drafts, touches_last, with_next, extended_level};

use yds_certificate::{Level, Piece};
use yds_events::Stretch;
use yds_model::Memory;
use yds_model::limits::MAX_JOBS;
use yds_search::Found;

/// The job stands last among the members of the level.
fn add_member(levels: &mut Vec<Level>, number: usize, job: u32) -> Result<(), Memory>
    requires { number < length levels.old.items }
    ensures { IfOk result (λ _. levels.new.items ≡ slice_set levels.old.items number (with_member job (level_at levels.old.items number))) }
{
    let level = &mut levels[number];
    level.members.push(job)?;
    Ok(())
}

/// Whether the piece begins where the last one ends.
fn touches(pieces: &[Piece], piece: Piece) -> bool
    ensures { result ≡ touches_last pieces.now piece }
{
    match pieces {
        [.., last] => last.to == piece.from,
        _ => false,
    }
}

/// The piece joins the last one, or stands last.
fn extend(pieces: &mut Vec<Piece>, joins: bool, piece: Piece) -> Result<(), Memory>
    requires some { IsTrue joins → 0 < length pieces.old.items }
    requires kept { All IsPiece pieces.old.items }
    ensures ok { IfOk result (λ _. pieces.new.items ≡ with_next pieces.old.items joins piece) }
    ensures kept { All IsPiece pieces.new.items }
{
    if joins {
        let last = pieces.len() - 1;
        let last = &mut pieces[last];
        last.to = piece.to;
    } else {
        pieces.push(piece)?;
    }
    Ok(())
}

/// The level's pieces and one more, which joins the last one where they touch.
fn add_piece(levels: &mut Vec<Level>, number: usize, piece: Piece) -> Result<(), Memory>
    requires { number < length levels.old.items }
    ensures { IfOk result (λ _. levels.new.items ≡ slice_set levels.old.items number (extended_level piece (level_at levels.old.items number))) }
{
    let level = &mut levels[number];
    let joins = touches(&level.pieces, piece);
    extend(&mut level.pieces, joins, piece)
}

/// Each job of a group becomes a member of the group's level.
pub(crate) fn add_members(
    found: &Found,
    numbers: &[u32],
    levels: &mut Vec<Level>,
) -> Result<(), Memory>
    requires numbers { numbers.now ≡ map (level_of (found_view found.now).groups) (range_with_len 0 (length (found_view found.now).groups)) }
    requires few { length found.now.group_of_job.items ≤ MAX_JOBS }
    requires levels { levels.old.items ≡ drafts [] (found_view found.now) 0 0 }
    ensures { IfOk result (λ _. levels.new.items ≡ drafts [] (found_view found.now) (length found.now.group_of_job.items) 0) }
{
    for (job, place) in found.group_of_job.iter().enumerate() {
        if let Some(number) = numbers.get(*place as usize) {
            add_member(levels, *number as usize, job as u32)?;
        }
    }
    Ok(())
}

/// Each stretch of a group becomes a piece of the group's level, or a part of one.
pub(crate) fn add_pieces(
    timeline: &[Stretch],
    found: &Found,
    numbers: &[u32],
    levels: &mut Vec<Level>,
) -> Result<(), Memory>
    requires numbers { numbers.now ≡ map (level_of (found_view found.now).groups) (range_with_len 0 (length (found_view found.now).groups)) }
    requires stretches { length found.now.group_of_stretch.items ≡ length timeline.now }
    requires levels { levels.old.items ≡ drafts timeline.now (found_view found.now) (length found.now.group_of_job.items) 0 }
    ensures { IfOk result (λ _. levels.new.items ≡ drafts timeline.now (found_view found.now) (length found.now.group_of_job.items) (length timeline.now)) }
{
    for (stretch, place) in found.group_of_stretch.iter().enumerate() {
        if let Some(number) = numbers.get(*place as usize) {
            let own = timeline[stretch];
            let piece = Piece {
                from: own.from,
                to: own.to,
            };
            add_piece(levels, *number as usize, piece)?;
        }
    }
    Ok(())
}

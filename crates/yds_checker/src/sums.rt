ghost use Rattle.std.specs.Prelude.{◌≡◌, ◌<◌, ◌≤◌, ◌↔◌, IsTrue, length, MatchOption};
ghost use Rattle.std.specs.List.{All};
ghost use Rattle.base.specs.declared.limits.TheConstants.{MAX_PIECES, MAX_MEMBERS};
ghost use Rattle.base.specs.Numbers.{Each};
ghost use Rattle.yds_model.specs.Job.{work_of};
ghost use Rattle.yds_model.specs.Piece.{total_length};
ghost use Rattle.yds_model.specs.Proper.{SumsAgree};
ghost use Rattle.base.specs.Numbers.{IsFirstFailure};
ghost use Rattle.yds_certificate.specs.Certificate.{IsCertificate};

use yds_certificate::{Level, Piece};
use yds_model::JobRow;

/// The work of these jobs together, in units of work.
fn works_together(rows: &[JobRow], members: &[u32]) -> u64
    requires known { All (λ number. number < length rows.now) members.now }
    requires few { length members.now ≤ MAX_MEMBERS }
    ensures { result ≡ work_of rows.now members.now }
{
    let mut work = 0;
    for job in members {
        let row = &rows[*job as usize];
        work += u64::from(row.work);
    }
    work
}

/// The length of these pieces together, in time units.
fn lengths_together(pieces: &[Piece]) -> u64
    requires few { length pieces.now ≤ MAX_PIECES }
    ensures { result ≡ total_length pieces.now }
{
    let mut length = 0;
    for piece in pieces {
        length += u64::from(piece.to.saturating_sub(piece.from));
    }
    length
}

/// Whether the level's work is its members' together, and its length its pieces'.
fn sums_agree(rows: &[JobRow], levels: &[Level], i: usize) -> bool
    requires within { i < length levels.now }
    requires kept { IsCertificate levels.now }
    requires known { All (λ level. All (λ number. number < length rows.now) level.members) levels.now }
    ensures { IsTrue result ↔ SumsAgree rows.now levels.now i }
{
    let level = &levels[i];
    level.work == works_together(rows, &level.members)
        && level.length == lengths_together(&level.pieces)
}

/// The first level whose work or length isn't that of its members or pieces, if there is one.
pub(crate) fn first_wrong_sums(rows: &[JobRow], levels: &[Level]) -> Option<u32>
    requires kept { IsCertificate levels.now }
    requires known { All (λ level. All (λ number. number < length rows.now) level.members) levels.now }
    ensures { MatchOption result
        (Each (length levels.now) (SumsAgree rows.now levels.now))
        (IsFirstFailure (length levels.now) (SumsAgree rows.now levels.now)) }
{
    for i in 0..levels.len() {
        if !sums_agree(rows, levels, i) {
            return Some(i as u32);
        }
    }
    None
}

//! Tests of `yds_certificate`.
ghost use Rattle.std.specs.Prelude.{◌≡◌, ◌≤◌, []};

use std::alloc::Global;
use std::test::Fail;
use yds_certificate::{Certificate, Level, Piece};
use yds_fraction::Speed;

fn level(alloc: Global, work: u64, length: u64) -> Level
    requires some { 1 ≤ work }
    requires work { work ≤ 4 }
    requires has_length { 1 ≤ length }
    requires length { length ≤ 4 }
    ensures { result ≡ record { work = work; length = length; pieces = []; members = [] } }
{
    Level {
        work,
        length,
        pieces: Vec::new(alloc),
        members: Vec::new(alloc),
    }
}

#[test]
fn levels_of_one_speed_are_merged(rt: HostRuntime) -> Result<(), Fail> {
    let mut certificate = Certificate::new(rt.alloc());
    certificate.push(level(rt.alloc(), 4, 2))?;
    certificate.push_merging(level(rt.alloc(), 2, 1))?;
    assert_eq!(rt; certificate.levels().len(), 1);
    assert_eq!(rt; certificate.prefix(Speed::new(1, 1)).len(), 1);
    assert_eq!(rt; certificate.prefix(Speed::new(4, 2)).len(), 0);
    Ok(())
}

#[test]
fn a_piece_and_a_member(rt: HostRuntime) -> Result<(), Fail> {
    let mut certificate = Certificate::new(rt.alloc());
    certificate.push(level(rt.alloc(), 4, 2))?;
    certificate.piece(Piece { from: 0, to: 2 })?;
    certificate.member(7)?;
    let level = &certificate.levels()[0];
    assert_eq!(rt;
        level.pieces.as_slice(),
        [Piece { from: 0, to: 2 }].as_slice()
    );
    assert_eq!(rt; level.members.as_slice(), [7].as_slice());
    Ok(())
}

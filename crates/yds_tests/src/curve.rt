//! The curve of three levels and of one, worked by hand.
ghost use Rattle.std.specs.Prelude.{◌≡◌, ◌≤◌, []};

use std::alloc::Global;
use std::test::Fail;
use yds_certificate::{Certificate, Level};
use yds_curve::{curve, least_above};
use yds_fraction::Speed;

fn level(alloc: Global, work: u64, length: u64) -> Level
    requires some { 1 ≤ work }
    requires work { work ≤ 8 }
    requires has_length { 1 ≤ length }
    requires length { length ≤ 8 }
    ensures { result ≡ record { work = work; length = length; pieces = []; members = [] } }
{
    Level {
        work,
        length,
        pieces: Vec::new(alloc),
        members: Vec::new(alloc),
    }
}

#[test]
fn the_excess_of_three_levels(rt: HostRuntime) -> Result<(), Fail> {
    let alloc = rt.alloc();
    let mut certificate = Certificate::new(alloc);
    certificate.push(level(alloc, 6, 2))?;
    certificate.push(level(alloc, 8, 6))?;
    certificate.push(level(alloc, 4, 4))?;
    let cases = [
        (Speed::new(0, 1), "18"),
        (Speed::new(4, 4), "6"),
        (Speed::new(4, 3), "3+1/3"),
        (Speed::new(2, 1), "2"),
        (Speed::new(3, 1), "0"),
    ];
    for (speed, want) in cases {
        let excess = least_above(&certificate, speed);
        assert_eq!(rt; excess.to_string(alloc)?.as_str(), want);
    }
    Ok(())
}

#[test]
fn the_curve_of_one_level(rt: HostRuntime) -> Result<(), Fail> {
    let mut certificate = Certificate::new(rt.alloc());
    certificate.push(level(rt.alloc(), 6, 4))?;
    let breaks = curve(rt.alloc(), &certificate)?;
    assert_eq!(rt; breaks.len(), 2);
    assert_eq!(rt; breaks[0].excess.to_string(rt.alloc())?.as_str(), "6");
    assert_eq!(rt; breaks[1].speed.to_string(rt.alloc())?.as_str(), "3/2");
    assert_eq!(rt; breaks[1].excess.to_string(rt.alloc())?.as_str(), "0");
    Ok(())
}

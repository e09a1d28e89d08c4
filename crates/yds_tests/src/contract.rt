//! Tests of `yds_contract`.
use std::test::Fail;
use yds_contract::Contraction;
use yds_fraction::{Amount, Moment, Speed};
use yds_model::limits::MAX_TIME;
use yds_slots::Slot;

/// 4 to 6 is removed, and then what lies around it: 2 to 8 of the time that is left is 2 to 4 and 6 to 10. What is removed then
/// is one stretch.
#[test]
fn around_a_removed_stretch(rt: HostRuntime) -> Result<(), Fail> {
    let mut contraction = Contraction::new(rt.alloc());
    contraction.remove(4, 6)?;
    assert_eq!(rt; contraction.place(5), 4);
    assert_eq!(rt; contraction.place(10), 8);
    assert!(rt; contraction.place(MAX_TIME) == 999_999_998);
    let pieces = contraction.pieces(2, 8)?;
    assert_eq!(rt; pieces.len(), 2);
    assert_eq!(rt; (pieces[0].from, pieces[0].to), (2, 4));
    assert_eq!(rt; (pieces[1].from, pieces[1].to), (6, 10));
    contraction.remove(2, 8)?;
    assert_eq!(rt; contraction.place(10), 2);
    Ok(())
}

/// 4 to 6 is removed. A slot from 2 to 8 of the time that is left is cut there and at the events 3 and 9.
#[test]
fn spread_around_a_removed_stretch(rt: HostRuntime) -> Result<(), Fail> {
    let mut contraction = Contraction::new(rt.alloc());
    contraction.remove(4, 6)?;
    assert!(rt; contraction.place(MAX_TIME) == 999_999_998);
    let slot = Slot {
        job: 7,
        from: Moment::from_whole(2),
        to: Moment::from_whole(8),
        work: Amount::from_whole(3),
    };
    let real = contraction.spread(slot, Speed::new(1, 2), &[0, 3, 9])?;
    assert_eq!(rt; real.len(), 4);
    assert!(rt; real[0].from == Moment::from_whole(2) && real[0].to == Moment::from_whole(3));
    assert!(rt; real[1].from == Moment::from_whole(3) && real[1].to == Moment::from_whole(4));
    assert!(rt; real[2].from == Moment::from_whole(6) && real[2].to == Moment::from_whole(9));
    assert!(rt; real[3].from == Moment::from_whole(9) && real[3].to == Moment::from_whole(10));
    assert!(rt; real[2].job == 7 && real[2].work == Amount::new(1, 1, 2));
    Ok(())
}

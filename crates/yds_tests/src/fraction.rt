//! Tests of `yds_fraction`.
use std::cmp::Ordering;
use std::test::Fail;
use yds_fraction::{Amount, Moment, Speed, gcd, in_lowest_terms, lcm_within};

#[test]
fn divides_by_hand(rt: HostRuntime) {
    assert_eq!(rt; gcd(12, 18), 6);
    assert_eq!(rt; gcd(0, 7), 7);
    assert_eq!(rt; gcd(0, 0), 0);
    assert_eq!(rt; lcm_within(3989, 11, 43_879), Some(43_879));
    assert_eq!(rt; lcm_within(3989, 11, 43_878), None);
}

#[test]
fn quotients_by_hand(rt: HostRuntime) -> Result<(), Fail> {
    let half = Speed::new(1, 2);
    let quarters = Speed::new(2, 4);
    assert!(rt; half == quarters);
    assert_eq!(rt; half.cmp(&Speed::new(2, 3)), Ordering::Less);
    let middle = half.mediant(quarters);
    assert_eq!(rt; (middle.num(), middle.den()), (3, 6));
    let lowest = Speed::new(0, 6).reduced();
    assert_eq!(rt; (lowest.num(), lowest.den()), (0, 1));
    assert_eq!(rt; middle.to_string(rt.alloc())?.as_str(), "3/6");
    Ok(())
}

#[test]
fn fractions_by_hand(rt: HostRuntime) -> Result<(), Fail> {
    let least = Moment::new(1, 1, 1_152_921_504_606_846_976);
    let next = Moment::new(1, 1, 1_152_921_504_606_846_975);
    assert_eq!(rt; least.cmp(&next), Ordering::Less);
    assert!(rt; !least.alike(next));

    let one = Moment::new(1, 2, 3);
    let two = Moment::new(2, 2, 3);
    let sum = one + two;
    assert_eq!(rt; (sum.whole(), sum.num(), sum.den()), (4, 1, 3));
    let whole = one + Moment::new(0, 1, 3);
    assert_eq!(rt; (whole.whole(), whole.num(), whole.den()), (2, 0, 1));
    let left = Moment::new(4, 1, 3) - two;
    assert!(rt; left == one);
    let product = Amount::new(1, 1, 4) * 6;
    assert_eq!(rt; product.to_string(rt.alloc())?.as_str(), "7+2/4");
    let lowest = product.reduced();
    assert_eq!(rt; (lowest.whole(), lowest.num(), lowest.den()), (7, 1, 2));
    assert_eq!(rt;
        in_lowest_terms(30, 4).to_string(rt.alloc())?.as_str(),
        "7+1/2"
    );
    assert_eq!(rt; Amount::from_whole(5).to_string(rt.alloc())?.as_str(), "5");
    Ok(())
}

//! Rows of divisors, ratios and their order.
use crate::{Ratio, gcd};
use std::cmp::Ordering;
use std::test::Fail;

#[test]
fn divisors(rt: HostRuntime) -> Result<(), Fail> {
    let table = [
        (0, 0, 0),
        (0, 7, 7),
        (7, 0, 7),
        (12, 18, 6),
        (35, 64, 1),
        (u64::MAX, u64::MAX, u64::MAX),
    ];
    for (a, b, divisor) in table {
        assert_eq!(rt; gcd(a, b), divisor);
    }
    Ok(())
}

#[test]
fn lowest_terms(rt: HostRuntime) -> Result<(), Fail> {
    let table = [
        (66, 2, 33, 1),
        (0, 5, 0, 1),
        (33, 2, 33, 2),
        (u64::MAX, u64::MAX, 1, 1),
    ];
    for (top, bottom, lowest, positive) in table {
        let ratio = Ratio::of(top, bottom);
        assert_eq!(rt; ratio.top(), lowest);
        assert_eq!(rt; ratio.bottom(), positive);
        assert!(rt; ratio == Ratio::of(lowest, positive));
    }
    Ok(())
}

#[test]
fn orders(rt: HostRuntime) -> Result<(), Fail> {
    let half = Ratio::of(1, 2);
    let third = Ratio::of(1, 3);
    assert_eq!(rt; third.order(&half), Ordering::Less);
    assert_eq!(rt; half.order(&half), Ordering::Equal);
    assert_eq!(rt;
        Ratio::of(u64::MAX, 1).order(&Ratio::of(u64::MAX - 1, 1)),
        Ordering::Greater
    );
    Ok(())
}

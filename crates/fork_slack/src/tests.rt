//! Rows of forks and their slacks.
ghost use Rattle.std.specs.Prelude.{◌<◌, ◌≤◌};

use crate::{ForkOf, slack};
use cyc_num::Ratio;
use std::test::Fail;

/// A fork of a ring of three inverters, its events A+ A- B+ B- C+ C-, with their arrivals from A+.
fn ring_slack(fast: u32, slow: u32, margin: u32, offset: u32, period: Ratio) -> i64
    requires top { period.top ≤ 1000 }
    requires bottom { period.bottom ≤ 1000 }
    requires fast { fast < 6 }
    requires slow { slow < 6 }
    requires margin { margin ≤ 1000 }
    requires offset { offset ≤ 15 }
{
    let fork = ForkOf {
        root: 0,
        fast,
        slow,
        margin,
        offset,
    };
    slack(&fork, &[0, 32, 44, 10, 22, 54], period)
}

#[test]
fn slacks(rt: HostRuntime) -> Result<(), Fail> {
    let whole = Ratio::of(66, 1);
    let half = Ratio::of(33, 2);
    assert_eq!(rt; ring_slack(4, 1, 0, 0, whole), 10);
    assert_eq!(rt; ring_slack(4, 1, 10, 0, whole), 0);
    assert_eq!(rt; ring_slack(4, 1, 11, 0, whole), -1);
    assert_eq!(rt; ring_slack(1, 4, 0, 0, whole), -10);
    assert_eq!(rt; ring_slack(4, 1, 3, 2, half), 70);
    Ok(())
}

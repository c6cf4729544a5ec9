//! The slack of a fork.
ghost use Rattle.std.specs.Prelude.{◌≡◌, ◌*◌, ◌<◌, ◌≤◌, pos, ◌+ℤ◌, All, length};
ghost use Rattle.cyc_num.specs.Ratio.{IsSmallRatio};
ghost use Rattle.cyc_num.specs.Within.{LiesWithin, time_limit};
ghost use Rattle.fork_slack.specs.Slack.{HasBranches, arrival_of, slack_of};

use cyc_num::Ratio;

/// A fork of two events that a root reaches: the slow branch is to arrive no less than the margin after the fast one.
#[derive(Clone, Copy, Debug, PartialEq, Eq)]
pub struct ForkOf {
    /// The event that arrivals are counted from.
    pub root: u32,
    /// The event that is to come first.
    pub fast: u32,
    /// The event that is to come after it.
    pub slow: u32,
    /// By how much, in picoseconds.
    pub margin: u32,
    /// How many periods the slow event lies after the fast one.
    pub offset: u32,
}

/// The slack of a fork, in picoseconds scaled by the period's bottom. The fork is met exactly where it is at least 0.
/// The arrivals are those from the fork's own root, one for each event, scaled by the period's bottom.
pub fn slack(fork: &ForkOf, arrivals: &[i64], period: Ratio) -> i64
    requires ratio { IsSmallRatio period.top period.bottom }
    requires fork { HasBranches (length arrivals.now) fork.now }
    requires within { All (LiesWithin time_limit) arrivals.now }
    ensures { result ≡ slack_of period.top period.bottom fork.now arrivals.now }
{
    let slow = later(arrivals, fork.slow, period.top(), fork.offset);
    let fast = later(arrivals, fork.fast, period.bottom(), fork.margin);
    slow - fast
}

/// The arrival of an event, later by a product.
fn later(arrivals: &[i64], event: u32, factor: u64, count: u32) -> i64
    requires event { event < length arrivals.now }
    requires arrivals { All (LiesWithin time_limit) arrivals.now }
    requires product { factor * count ≤ 491520000000 }
    ensures value { result ≡ arrival_of arrivals.now event +ℤ pos (factor * count) }
    ensures within { LiesWithin 18000000000000000 result }
{
    arrivals[event as usize] + (factor * count as u64) as i64
}

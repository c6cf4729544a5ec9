//! Rounds over all rules, which raise weights of walks to the arrivals.
ghost use Rattle.std.specs.Prelude.{◌≡◌, ◌<◌, ◌≤◌, ℕ, ℤ, pos, ◌+ℤ◌, ◌≤ℤ◌, All, length};
ghost use Rattle.cyc_num.specs.Ratio.{IsSmallRatio};
ghost use Rattle.rule_system.specs.Weights.{time_of, HasNoGain, AreAttained, AreArrivals, IsRound};
ghost use Rattle.rule_system.specs.Bounds.{IsRule};
ghost use Rattle.potentials.specs.Raised.{raised, AreAbove, AreBelow};
ghost use Rattle.cyc_num.specs.Within.{LiesWithin, time_limit};
ghost use Rattle.potentials.specs.Times.{ArePathWeights};

use crate::checks::are_loose;
use rule_system::laws::{
    attained_feasible_numbers_are_arrivals, round_covers_one_more, rounds_end,
};
use rule_system::measures::offered;
use rule_system::{Rule, System};

/// Raises the number of the rule's target to what the rule offers.
fn relax(rule: Rule, top: u64, bottom: u64, times: &mut [i64])
    requires ratio { IsSmallRatio top bottom }
    requires rule { IsRule (length times.old) rule }
    requires low { AreAbove time_limit times.old }
    requires high { AreBelow time_limit times.old }
    ensures { times.new ≡ raised top bottom rule times.old }
{
    let offer = offered(rule, top, bottom, times);
    let there = times[rule.target as usize];
    times[rule.target as usize] = there.max(offer);
}

/// Relaxes each rule once.
fn round(system: &System, root: u32, top: u64, bottom: u64, times: &mut [i64])
    requires ratio { IsSmallRatio top bottom }
    requires root { root < system.now.events }
    requires no_gain { HasNoGain top bottom system.now.rules }
    requires low { AreAbove time_limit times.old }
    requires attained { AreAttained top bottom system.now.events system.now.rules root times.old }
    ensures low { AreAbove time_limit times.new }
    ensures attained { AreAttained top bottom system.now.events system.now.rules root times.new }
    ensures round { IsRound top bottom system.now.rules times.old times.new }
{
    'rules: for rule in system.rules() {
        relax(*rule, top, bottom, times);
    }
}

/// Raises attained numbers to the arrivals.
/// Rounds over all rules (Bellman 1958, Ford 1956), until no rule raises a number:
/// at most as many as there are events, and none where the numbers are the arrivals already.
pub fn settle(system: &System, root: u32, top: u64, bottom: u64, times: &mut [i64])
    requires ratio { IsSmallRatio top bottom }
    requires root { root < system.now.events }
    requires no_gain { HasNoGain top bottom system.now.rules }
    requires weights { ArePathWeights top bottom system.now.events system.now.rules root times.old }
    ensures arrivals { AreArrivals top bottom system.now.events system.now.rules root times.new }
    ensures within { All (LiesWithin time_limit) times.new }
{
    attained_feasible_numbers_are_arrivals();
    round_covers_one_more();
    rounds_end();
    let limit = system.events();
    'rounds: for _ in 0..limit {
        if are_loose(system, top, bottom, times) {
            return;
        }
        round(system, root, top, bottom, times);
    }
}

//! The laws of walks, cycles, periods and arrivals.
//! Each is the contract of a function that does nothing: a call makes the law known where it stands.
ghost use Rattle.std.specs.Prelude.{◌≡◌, ℕ, ◌+◌, ◌*◌, ◌<◌, ◌≤◌, Bool, ℤ, pos, ◌+ℤ◌, ◌≤ℤ◌, ◌<ℤ◌, ◌↔◌, List, length};
ghost use Rattle.std.specs.Int.{IsGcd};
ghost use Rattle.std.specs.List.{AllByRecursion};
ghost use Rattle.cyc_num.specs.Ratio.{IsSmallRatio};
ghost use Rattle.rule_system.specs.declared.rules.Rule.{Rule};
ghost use Rattle.rule_system.specs.Rules.{rule_at, source_of, target_of, delay_sum, offset_sum};
ghost use Rattle.rule_system.specs.Bounds.{IsSystem, AreSmallSums, most_delay, most_offset};
ghost use Rattle.rule_system.specs.Walks.{IsWalk, IsCycle, IsSimpleCycle, IsLive, IsConnected, IsKept, KeptPath, ClosedPart, EndsBelow, Reaches, has_no_offset};
ghost use Rattle.rule_system.specs.Weights as w;
ghost use Rattle.rule_system.specs.FirstCycle.{IsFirstCycle};
ghost use Rattle.rule_system.specs.Orders.{IsForward};
ghost use Rattle.rule_system.specs.CriticalCycle.{IsCriticalCycle};

/// Where along each rule some numbers rise by at least its weight, no cycle has a greater ratio.
pub fn feasible_numbers_bound_cycles()
    ensures { (top bottom : ℕ) (rules : List Rule) (times : List ℤ) →
        w.IsFeasible top bottom rules times → w.HasNoGain top bottom rules }
{}

/// Nor does a walk weigh more than the numbers rise along it.
pub fn feasible_numbers_bound_walks()
    ensures { (top bottom : ℕ) (rules : List Rule) (times : List ℤ) →
        w.IsFeasible top bottom rules times →
        (a : ℕ) (walk : List ℕ) (b : ℕ) → IsWalk rules a walk b →
        (w.time_of times a +ℤ w.weight top bottom rules walk) ≤ℤ w.time_of times b }
{}

/// A cycle of tight rules has the ratio.
pub fn tight_cycle_attains()
    ensures { (top bottom : ℕ) (rules : List Rule) (times : List ℤ) (cycle : List ℕ) →
        IsCycle rules cycle → AllByRecursion (w.IsTight top bottom rules times) cycle →
        w.Attains top bottom rules cycle }
{}

/// So does a cycle of rules that pass the test of tightness.
pub fn tested_tight_cycle_attains()
    ensures { (top bottom : ℕ) (rules : List Rule) (times : List ℤ) (cycle : List ℕ) →
        IsCycle rules cycle → IsKept (w.is_tight top bottom rules times) cycle →
        w.Attains top bottom rules cycle }
{}

/// A cycle that has the ratio is tight, where along each rule the numbers rise by at least its weight.
pub fn attaining_cycle_is_tight()
    ensures { (top bottom : ℕ) (rules : List Rule) (times : List ℤ) →
        w.IsFeasible top bottom rules times →
        (cycle : List ℕ) → IsCycle rules cycle → w.Attains top bottom rules cycle →
        AllByRecursion (w.IsTight top bottom rules times) cycle }
{}

/// Without a cycle that gains, each walk weighs at most as much as one of fewer rules than events.
pub fn short_walks_weigh_most()
    ensures { (top bottom events : ℕ) (rules : List Rule) →
        EndsBelow events rules → w.HasNoGain top bottom rules →
        (a : ℕ) (walk : List ℕ) (b : ℕ) → a < events → IsWalk rules a walk b →
        w.ShortWalkAtLeast top bottom events rules a walk b }
{}

/// A cycle with an offset and of a greater ratio gains.
pub fn greater_ratio_gains()
    ensures { (top bottom greater_top greater_bottom : ℕ) (rules : List Rule) (cycle : List ℕ) →
        IsCycle rules cycle → 1 ≤ offset_sum rules cycle → 1 ≤ greater_bottom →
        w.Attains greater_top greater_bottom rules cycle →
        top * greater_bottom < greater_top * bottom →
        w.Gains top bottom rules cycle }
{}

/// Where a cycle gains, one without repeated events does.
pub fn gain_without_repeats()
    ensures { (top bottom : ℕ) (rules : List Rule) (cycle : List ℕ) →
        IsCycle rules cycle → w.Gains top bottom rules cycle → w.GainCycle top bottom rules }
{}

/// Two different ratios whose bottoms are at most a bound differ by at least one over its square.
pub fn different_ratios_lie_apart()
    ensures { (top bottom greater_top greater_bottom bound : ℕ) →
        bottom ≤ bound → greater_bottom ≤ bound →
        top * greater_bottom < greater_top * bottom →
        bottom * greater_bottom + bound * bound * (top * greater_bottom) ≤ bound * bound * (greater_top * bottom) }
{}

/// Of two ratios whose bottoms are at most a bound, the greater has the greater rank.
pub fn greater_ratio_has_greater_rank()
    ensures { (top bottom greater_top greater_bottom bound : ℕ) →
        1 ≤ bottom → 1 ≤ greater_bottom → bottom ≤ bound → greater_bottom ≤ bound →
        top * greater_bottom < greater_top * bottom →
        w.rank bound top bottom < w.rank bound greater_top greater_bottom }
{}

/// Of the rules of each walk some make a path between its ends.
pub fn kept_walks_have_kept_paths()
    ensures { (rules : List Rule) (kept : ℕ → Bool) (a : ℕ) (walk : List ℕ) (b : ℕ) →
        IsWalk rules a walk b → IsKept kept walk → KeptPath rules kept a walk b }
{}

/// A live system has at most one period.
pub fn period_is_unique()
    ensures { (rules : List Rule) (top bottom other_top other_bottom : ℕ) →
        IsLive rules → w.IsPeriod rules top bottom → w.IsPeriod rules other_top other_bottom →
        (top ≡ other_top) × (bottom ≡ other_bottom) }
{}

/// An event has at most one arrival.
pub fn arrival_is_unique()
    ensures { (top bottom : ℕ) (rules : List Rule) (root event : ℕ) (time other : ℤ) →
        w.IsArrival top bottom rules root event time → w.IsArrival top bottom rules root event other →
        time ≡ other }
{}

/// Numbers that rise along each rule by at least its weight, and that walks attain, are the arrivals.
pub fn attained_feasible_numbers_are_arrivals()
    ensures { (top bottom events : ℕ) (rules : List Rule) (root : ℕ) (times : List ℤ) →
        w.IsFeasible top bottom rules times → w.time_of times root ≡ pos 0 →
        w.AreAttained top bottom events rules root times →
        w.AreArrivals top bottom events rules root times }
{}

/// Along each rule arrivals rise by at least its weight.
pub fn arrivals_are_feasible()
    ensures { (top bottom events : ℕ) (rules : List Rule) (root : ℕ) (times : List ℤ) →
        EndsBelow events rules → w.AreArrivals top bottom events rules root times →
        w.IsFeasible top bottom rules times }
{}

/// After a round the numbers bound walks of one rule more.
pub fn round_covers_one_more()
    ensures { (top bottom : ℕ) (rules : List Rule) (root count : ℕ) (before after : List ℤ) →
        w.Covers top bottom rules root count before → w.IsRound top bottom rules before after →
        w.Covers top bottom rules root (count + 1) after }
{}

/// Numbers that bound the walks of fewer rules than events bound all walks.
pub fn rounds_end()
    ensures { (top bottom events : ℕ) (rules : List Rule) (root count : ℕ) (times : List ℤ) →
        EndsBelow events rules → w.HasNoGain top bottom rules → root < events → events ≤ count + 1 →
        w.Covers top bottom rules root count times →
        (any : ℕ) → w.Covers top bottom rules root any times }
{}

/// Attained numbers that bound all short walks let no rule raise them, unless some cycle gains.
pub fn unsettled_numbers_show_a_gain()
    ensures { (top bottom events : ℕ) (rules : List Rule) (count n : ℕ) (times : List ℤ) →
        EndsBelow events rules → events ≤ count + 1 →
        ((root : ℕ) → w.Covers top bottom rules root count times) →
        w.AreAttainedAnywhere top bottom events rules times → n < length rules →
        w.time_of times (target_of rules n) <ℤ (w.time_of times (source_of rules n) +ℤ w.rule_weight top bottom (rule_at rules n)) →
        w.GainCycle top bottom rules }
{}

/// The sums along a walk are within the limits of a rule, times its length.
pub fn sums_are_bounded()
    ensures { (events : ℕ) (rules : List Rule) → IsSystem events rules →
        (a : ℕ) (walk : List ℕ) (b : ℕ) → IsWalk rules a walk b →
        (delay_sum rules walk ≤ most_delay * length walk) × (offset_sum rules walk ≤ most_offset * length walk) }
{}

/// A cycle without repeated events has at most as many rules as there are events.
pub fn simple_cycles_have_small_sums()
    ensures { (events : ℕ) (rules : List Rule) → IsSystem events rules →
        (cycle : List ℕ) → IsSimpleCycle rules cycle → AreSmallSums rules cycle }
{}

/// The first of the cycles of kept rules has at most as many rules as there are events.
pub fn first_cycles_have_small_sums()
    ensures { (events : ℕ) (rules : List Rule) (kept : ℕ → Bool) → IsSystem events rules →
        (cycle : List ℕ) → IsFirstCycle rules kept cycle → AreSmallSums rules cycle }
{}

/// Of the cycles of kept rules one is the first.
pub fn first_cycle_is_unique()
    ensures { (rules : List Rule) (kept : ℕ → Bool) (cycle other : List ℕ) →
        IsFirstCycle rules kept cycle → IsFirstCycle rules kept other → cycle ≡ other }
{}

/// A walk of at least as many rules as there are events has a closed part, which can be taken out.
pub fn long_walks_have_a_closed_part()
    ensures { (events : ℕ) (rules : List Rule) → EndsBelow events rules →
        (a : ℕ) (walk : List ℕ) (b : ℕ) → a < events → IsWalk rules a walk b → events ≤ length walk →
        ClosedPart rules a walk b }
{}

/// Where no cycle is of rules without offset alone, the system is live.
pub fn systems_without_dead_cycles_are_live()
    ensures { (rules : List Rule) →
        ((cycle : List ℕ) → IsCycle rules cycle → IsKept (has_no_offset rules) cycle → ⊥) → IsLive rules }
{}

/// An order of the events in which each rule without offset goes forward shows that the system is live.
pub fn forward_orders_show_liveness()
    ensures { (events : ℕ) (rules : List Rule) (order : List ℕ) →
        IsForward events rules order → IsLive rules }
{}

/// A cycle of rules without offset has none.
pub fn dead_cycles_have_no_offset()
    ensures { (rules : List Rule) (cycle : List ℕ) →
        IsKept (has_no_offset rules) cycle → offset_sum rules cycle ≡ 0 }
{}

/// A connected system of at least two events has a cycle.
pub fn connected_systems_have_a_cycle()
    ensures { (events : ℕ) (rules : List Rule) (root : ℕ) →
        2 ≤ events → IsConnected events rules root → (cycle : List ℕ) × IsCycle rules cycle }
{}

/// A live system with a cycle has a period.
pub fn live_systems_have_a_period()
    ensures { (events : ℕ) (rules : List Rule) → EndsBelow events rules → IsLive rules →
        (cycle : List ℕ) → IsCycle rules cycle → w.HasPeriod rules }
{}

/// A period is within the sums of a cycle without repeated events.
pub fn periods_are_bounded()
    ensures { (events : ℕ) (rules : List Rule) (top bottom : ℕ) →
        IsSystem events rules → IsLive rules → w.IsPeriod rules top bottom →
        IsSmallRatio top bottom }
{}

/// Without a cycle that gains, each event that a walk from the root reaches has an arrival.
pub fn reached_events_have_arrivals()
    ensures { (top bottom events : ℕ) (rules : List Rule) (root event : ℕ) →
        EndsBelow events rules → w.HasNoGain top bottom rules → root < events → Reaches rules root event →
        (time : ℤ) × w.IsArrival top bottom rules root event time }
{}

/// So each event of a connected system has one.
pub fn connected_systems_have_arrivals()
    ensures { (top bottom events : ℕ) (rules : List Rule) (root : ℕ) →
        EndsBelow events rules → w.HasNoGain top bottom rules → root < events → IsConnected events rules root →
        (times : List ℤ) × w.AreArrivals top bottom events rules root times }
{}

/// There is at most one list of arrivals.
pub fn arrivals_are_unique()
    ensures { (top bottom events : ℕ) (rules : List Rule) (root : ℕ) (times others : List ℤ) →
        w.AreArrivals top bottom events rules root times → w.AreArrivals top bottom events rules root others →
        times ≡ others }
{}

/// Where events have arrivals, the root's is 0.
pub fn root_arrives_at_zero()
    ensures { (top bottom events : ℕ) (rules : List Rule) (root : ℕ) (times : List ℤ) →
        EndsBelow events rules → root < events → w.AreArrivals top bottom events rules root times →
        w.time_of times root ≡ pos 0 }
{}

/// A walk of tight rules leads from the root to each event.
pub fn tight_walks_reach_all_events()
    ensures { (top bottom events : ℕ) (rules : List Rule) (root : ℕ) (times : List ℤ) →
        EndsBelow events rules → root < events → w.AreArrivals top bottom events rules root times →
        (event : ℕ) → event < events → w.TightWalk top bottom rules root times event }
{}

/// Where there is a cycle of kept rules, one of them is the first.
pub fn kept_cycles_have_a_first()
    ensures { (events : ℕ) (rules : List Rule) (kept : ℕ → Bool) → EndsBelow events rules →
        (cycle : List ℕ) → IsCycle rules cycle → IsKept kept cycle →
        (first : List ℕ) × IsFirstCycle rules kept first }
{}

/// At the period some cycle is of tight rules, so one of them is the first.
pub fn tight_cycles_have_a_first()
    ensures { (top bottom events : ℕ) (rules : List Rule) (root : ℕ) (times : List ℤ) →
        EndsBelow events rules → w.IsPeriod rules top bottom → w.AreArrivals top bottom events rules root times →
        (cycle : List ℕ) × IsFirstCycle rules (w.is_tight top bottom rules times) cycle }
{}

/// A connected system with a period has a critical cycle.
pub fn critical_cycle_exists()
    ensures { (top bottom events : ℕ) (rules : List Rule) (root : ℕ) →
        EndsBelow events rules → root < events → IsConnected events rules root → w.IsPeriod rules top bottom →
        (cycle : List ℕ) × IsCriticalCycle top bottom events rules root cycle }
{}

/// The critical cycle attains the period.
pub fn critical_cycle_attains()
    ensures { (top bottom events : ℕ) (rules : List Rule) (root : ℕ) (cycle : List ℕ) →
        IsCriticalCycle top bottom events rules root cycle → w.Attains top bottom rules cycle }
{}

/// There is at most one critical cycle.
pub fn critical_cycle_is_unique()
    ensures { (top bottom events : ℕ) (rules : List Rule) (root : ℕ) (cycle other : List ℕ) →
        IsCriticalCycle top bottom events rules root cycle → IsCriticalCycle top bottom events rules root other →
        cycle ≡ other }
{}

/// A walk of a greater ratio is one of positive weight, and a walk of the ratio one of weight 0.
pub fn weights_compare_ratios()
    ensures gains { (top bottom : ℕ) (rules : List Rule) (walk : List ℕ) →
        w.Gains top bottom rules walk ↔ (pos 0 <ℤ w.weight top bottom rules walk) }
    ensures attains { (top bottom : ℕ) (rules : List Rule) (walk : List ℕ) →
        w.Attains top bottom rules walk ↔ (w.weight top bottom rules walk ≡ pos 0) }
{}

/// A cycle that attains a ratio in lowest terms, and numbers that rise along each rule by at least its weight, show the period.
pub fn attained_feasible_ratios_are_periods()
    ensures { (top bottom : ℕ) (rules : List Rule) (times : List ℤ) (cycle : List ℕ) →
        1 ≤ bottom → IsGcd top bottom 1 → IsCycle rules cycle → w.Attains top bottom rules cycle →
        w.IsFeasible top bottom rules times → w.IsPeriod rules top bottom }
{}

/// Before the first round the root's number bounds the empty walk.
pub fn rounds_begin()
    ensures { (top bottom : ℕ) (rules : List Rule) (root : ℕ) (times : List ℤ) →
        pos 0 ≤ℤ w.time_of times root → w.Covers top bottom rules root 0 times }
{}

/// Attained numbers that bound all walks are the arrivals.
pub fn attained_bounds_are_arrivals()
    ensures { (top bottom events : ℕ) (rules : List Rule) (root : ℕ) (times : List ℤ) →
        w.AreAttained top bottom events rules root times →
        ((any : ℕ) → w.Covers top bottom rules root any times) →
        w.AreArrivals top bottom events rules root times }
{}

// Rounds of workers, and the arrivals that they find.
ghost use Rattle.std.specs.Prelude.{◌≡◌, ◌+◌, ◌<◌, ◌≤◌, pos, All, IfOk, OnOk, IsTrue, length};
ghost use Rattle.std.specs.List.{AllZip};
ghost use Rattle.cyc_num.specs.Ratio.{IsSmallRatio};
ghost use Rattle.cyc_num.specs.Within.{LiesWithin, time_limit};
ghost use Rattle.rule_system.specs.Weights.{HasNoGain, time_of};
ghost use Rattle.potentials.specs.Makers.{AreArrivalsFrom, IsRootOf};
ghost use Rattle.arrival_words.specs.Known.{Belongs, NothingSinks};
ghost use Rattle.relax_rounds.specs.Rounds.{AreArrivalsIn, AreAttainedIn, IsFeasibleIn, IsRoundIn};

use crate::parts::relax_parts;
use crate::reads::read_all;
use crate::steps::Steps;
use arrival_words::{RelaxSeat, Words};
use cyc_num::Ratio;
use cyc_port::Gate;
use potentials::search::Reduced;
use potentials::{ArrivalMaker, Times, feasible, first_weights_by};
use rayon::prelude::*;
use rule_system::System;
use rule_system::laws::{
    attained_bounds_are_arrivals, feasible_numbers_bound_walks, round_covers_one_more,
    rounds_begin, rounds_end,
};
use std::alloc::{AllocError, Global};
use std::marker::Brand;
use std::sync::ledger::{Blank, Ledger};
use std::thread::Threads;

/// A number of workers from 1 to 64, and the gate that each passes before its part of a round.
#[derive(Drop)]
pub struct Rounds<'g, G> {
    /// How many workers there are.
    pub workers: u32,
    /// What the worker `w`, counted from 1, passes with `who` = 1000 + `w`.
    pub gate: &'g G,
    pub ghost some: { 0 < workers },
    pub ghost few: { workers ≤ 64 },
}

impl<'g, G: Gate + Sync> Rounds<'g, G> {
    /// Each rule is relaxed once: the worker `w`, counted from 1, relaxes the rules from `(w - 1) * n / workers` up to, but not
    /// including, `w * n / workers`, of `n`, beside the others and with a seat of its own.
    pub fn round<R: Threads + Sync, L: Ledger>(
        &self,
        rt: &R,
        words: &Words<'_>,
        seat: &mut RelaxSeat,
        steps: &mut Steps<L>,
    )
        requires { Belongs words.now seat.old }
        ensures steps { steps.new ≡ steps.old + 1 }
        ensures seat { Belongs words.now seat.new }
        ensures round { IsRoundIn words.now.about seat.old.known seat.new.known }
        ensures kept { NothingSinks seat.old.known seat.new.known }
    {
        steps.tick();
        relax_parts(rt, self.gate, words, seat, self.workers, 0, self.workers);
    }

    /// A round, after which all words are read. Whether along each rule the numbers rise by at least its weight.
    fn settles<R: Threads + Sync, L: Ledger>(
        &self,
        rt: &R,
        words: &Words<'_>,
        seat: &mut RelaxSeat,
        steps: &mut Steps<L>,
        times: &mut [i64],
    ) -> bool
        requires seat { Belongs words.now seat.old }
        requires count { length times.old ≡ words.now.about.events }
        ensures steps { steps.new ≡ steps.old + 1 }
        ensures seat { Belongs words.now seat.new }
        ensures known { seat.new.known ≡ times.new }
        ensures round { IsRoundIn words.now.about seat.old.known times.new }
        ensures kept { NothingSinks seat.old.known seat.new.known }
        ensures attained { AreAttainedIn words.now.about times.new }
        ensures within { All (LiesWithin time_limit) times.new }
        ensures feasible { IsTrue result → IsFeasibleIn words.now.about times.new }
    {
        self.round(rt, words, seat, steps);
        read_all(words, seat, times);
        feasible(words.system(), words.period(), times)
    }

    /// Rounds until along each rule the numbers rise by at least its weight, or until there were as many as events.
    fn settle<R: Threads + Sync, L: Ledger>(
        &self,
        rt: &R,
        words: &Words<'_>,
        seat: &mut RelaxSeat,
        steps: &mut Steps<L>,
        times: &mut [i64],
    )
        requires seat { Belongs words.now seat.old }
        requires count { length times.old ≡ words.now.about.events }
        requires root { time_of seat.old.known words.now.about.root ≡ pos 0 }
        ensures seat { Belongs words.now seat.new }
        ensures arrivals { AreArrivalsIn words.now.about times.new }
        ensures within { All (LiesWithin time_limit) times.new }
        ensures known { seat.new.known ≡ times.new }
        ensures kept { NothingSinks seat.old.known seat.new.known }
        ensures some_steps { steps.old < steps.new }
        ensures few_steps { steps.new ≤ steps.old + words.now.about.events }
    {
        rounds_begin();
        round_covers_one_more();
        feasible_numbers_bound_walks();
        rounds_end();
        attained_bounds_are_arrivals();
        words.sound();
        let events = words.system().events();
        'rounds: for _ in 0..events {
            if self.settles(rt, words, seat, steps, times) {
                return;
            }
        }
    }

    /// The arrivals of the words' system, root and period, in picoseconds scaled by the period's bottom. The seat then knows just
    /// these. A step is a round (Bellman 1958, Ford 1956): at least one, and at most as many as there are events.
    ///
    /// # Errors
    /// Want of memory.
    pub fn arrivals_counted<R: Threads + Sync, L: Ledger>(
        &self,
        rt: &R,
        alloc: Global,
        words: &Words<'_>,
        seat: &mut RelaxSeat,
        steps: &mut Steps<L>,
    ) -> Result<Times, AllocError>
        requires seat { Belongs words.now seat.old }
        requires root { time_of seat.old.known words.now.about.root ≡ pos 0 }
        ensures seat { Belongs words.now seat.new }
        ensures arrivals { IfOk result (λ x. AreArrivalsIn words.now.about x) }
        ensures within { IfOk result (λ x. All (LiesWithin time_limit) x) }
        ensures known { IfOk result (λ x. seat.new.known ≡ x) }
        ensures kept { NothingSinks seat.old.known seat.new.known }
        ensures some_steps { OnOk result (steps.old < steps.new) }
        ensures no_less { steps.old ≤ steps.new }
        ensures few_steps { steps.new ≤ steps.old + words.now.about.events }
    {
        let events = words.system().events();
        let mut times = vec![in alloc; 0i64; events as usize]?;
        self.settle(rt, words, seat, steps, times.as_mut_slice());
        Ok(Times::of(times))
    }

    /// The same with a count of its own, on a ledger that the caller picks.
    fn arrivals_from<R: Threads + Sync, L: Ledger>(
        &self,
        rt: &R,
        alloc: Global,
        words: &Words<'_>,
        seat: &mut RelaxSeat,
        blank: Blank,
    ) -> Result<Times, AllocError>
        requires name { blank.name ≡ L.name }
        requires parts { blank.parts ≡ L.parts }
        requires some { 0 < L.parts }
        requires seat { Belongs words.now seat.old }
        requires root { time_of seat.old.known words.now.about.root ≡ pos 0 }
        ensures arrivals { IfOk result (λ x. AreArrivalsIn words.now.about x) }
        ensures within { IfOk result (λ x. All (LiesWithin time_limit) x) }
    {
        let mut steps = Steps::<L>::start(blank);
        self.arrivals_counted(rt, alloc, words, seat, &mut steps)
    }
}

/// The arrivals from a root, in rounds that begin with first weights.
fn arrivals_by<R: Threads + Sync>(
    rounds: &Rounds<'_, &(dyn Gate + Sync)>,
    rt: &R,
    alloc: Global,
    system: &System,
    root: u32,
    period: Ratio,
    reduced: &Reduced,
) -> Result<Times, AllocError>
    requires ratio { IsSmallRatio period.top period.bottom }
    requires root { IsRootOf system.now root }
    requires no_gain { HasNoGain period.top period.bottom system.now.rules }
    ensures { IfOk result (AreArrivalsFrom period.top period.bottom system.now root) }
{
    let start = first_weights_by(alloc, system, root, period, reduced)?;
    let (words, mut seat) = Words::open(alloc, system, root, period, start.list())?;
    rounds.arrivals_from::<R, Brand>(rt, alloc, &words, &mut seat, Blank::new(1))
}

// In a trait's method the bounds of its `impl` hold in the calling thread alone, so workers could not pass a gate of a type parameter.
// They can pass a `dyn` gate.
impl<'g, 'd> ArrivalMaker for Rounds<'g, &'d (dyn Gate + Sync)> {
    fn arrivals<R: Threads + Sync>(
        &self,
        rt: &R,
        alloc: Global,
        system: &System,
        root: u32,
        period: Ratio,
        reduced: &Reduced,
    ) -> Result<Times, AllocError> {
        arrivals_by(self, rt, alloc, system, root, period, reduced)
    }

    fn arrivals_each<R: Threads + Sync>(
        &self,
        rt: &R,
        alloc: Global,
        system: &System,
        roots: &[u32],
        period: Ratio,
        reduced: &Reduced,
    ) -> Result<Vec<Times>, AllocError> {
        each_by(self, rt, alloc, system, roots, period, reduced)
    }
}

/// The arrivals from each of the roots, in their order, on as many threads as there are processors.
fn each_by<R: Threads + Sync>(
    rounds: &Rounds<'_, &(dyn Gate + Sync)>,
    rt: &R,
    alloc: Global,
    system: &System,
    roots: &[u32],
    period: Ratio,
    reduced: &Reduced,
) -> Result<Vec<Times>, AllocError>
    requires ratio { IsSmallRatio period.top period.bottom }
    requires roots { All (IsRootOf system.now) roots.now }
    requires no_gain { HasNoGain period.top period.bottom system.now.rules }
    ensures { IfOk result (λ lists. AllZip (AreArrivalsFrom period.top period.bottom system.now) roots.now lists.items) }
{
    roots
        .par_iter()
        .map(
            |root: &u32| -> Result<Times, AllocError>
                requires { IsSmallRatio period.top period.bottom × IsRootOf system.now root.now × HasNoGain period.top period.bottom system.now.rules }
                ensures { IfOk result (AreArrivalsFrom period.top period.bottom system.entry.now root.now) }
            { arrivals_by(rounds, rt, alloc, system, *root, period, reduced) },
        )
        .collect(rt, alloc)?
}

// Parts of a system's rules, which workers relax side by side.
ghost use Rattle.std.specs.Prelude.{◌≡◌, ◌+◌, ◌<◌, ◌≤◌, ℕ, length};
ghost use Rattle.std.specs.Thread.{IsSync};
ghost use Rattle.rule_system.specs.Bounds.{most_rules};
ghost use Rattle.arrival_words.specs.Known.{Belongs, NothingSinks};
ghost use Rattle.relax_rounds.specs.Parts.{part_begin, RelaxesParts};

use arrival_words::{RelaxSeat, Words};
use cyc_port::Gate;
use std::thread::{Threads, join_mut};

/// The number of the rule with which the part of a worker begins. Workers are counted from 0 here.
fn begin_of(rules: usize, workers: u32, worker: u32) -> usize
    requires rules { rules ≤ most_rules }
    requires some { 0 < workers }
    requires workers { workers ≤ 64 }
    requires worker { worker ≤ workers }
    ensures begin { result ≡ part_begin rules workers worker }
    ensures within { result ≤ rules }
{
    worker as usize * rules / workers as usize
}

/// Relaxes the part of one worker.
fn relax_part(words: &Words<'_>, seat: &mut RelaxSeat, workers: u32, worker: u32)
    requires seat { Belongs words.now seat.old }
    requires worker { worker < workers }
    requires workers { workers ≤ 64 }
    ensures seat { Belongs words.now seat.new }
    ensures relaxed { RelaxesParts words.now.about workers worker (worker + 1) seat.old.known seat.new.known }
    ensures kept { NothingSinks seat.old.known seat.new.known }
{
    let rules = words.system().rules().len();
    let from = begin_of(rules, workers, worker);
    let to = begin_of(rules, workers, worker + 1);
    words.relax(seat, from, to);
}

/// The workers from `first` up to, but not including, `last` relax their parts side by side, each with a seat of its own and
/// after it has passed the gate.
#[cycle(halves)]
pub(crate) fn relax_parts<R: Threads + Sync, G: Gate + Sync>(
    rt: &R,
    gate: &G,
    words: &Words<'_>,
    seat: &mut RelaxSeat,
    workers: u32,
    first: u32,
    last: u32,
)
    requires seat { Belongs words.now seat.old }
    requires some { first < last }
    requires last { last ≤ workers }
    requires workers { workers ≤ 64 }
    ensures seat { Belongs words.now seat.new }
    ensures relaxed { RelaxesParts words.now.about workers first last seat.old.known seat.new.known }
    ensures kept { NothingSinks seat.old.known seat.new.known }
{
    if last - first == 1 {
        gate.pass(1001 + first as u64);
        relax_part(words, seat, workers, first);
        return;
    }
    let middle = first + (last - first) / 2;
    let mut other = words.split(seat);
    relax_halves(
        rt, gate, words, seat, &mut other, workers, first, middle, last,
    );
    words.join(seat, other);
}

/// The workers up to `middle` with one seat, and the others with the other, in a thread of its own.
#[cycle(halves)]
fn relax_halves<R: Threads + Sync, G: Gate + Sync>(
    rt: &R,
    gate: &G,
    words: &Words<'_>,
    seat: &mut RelaxSeat,
    other: &mut RelaxSeat,
    workers: u32,
    first: u32,
    middle: u32,
    last: u32,
)
    requires seat { Belongs words.now seat.old }
    requires other { Belongs words.now other.old }
    requires front { first < middle }
    requires back { middle < last }
    requires last { last ≤ workers }
    requires workers { workers ≤ 64 }
    ensures seat { Belongs words.now seat.new }
    ensures other { Belongs words.now other.new }
    ensures front { RelaxesParts words.now.about workers first middle seat.old.known seat.new.known }
    ensures back { RelaxesParts words.now.about workers middle last other.old.known other.new.known }
    ensures kept { NothingSinks seat.old.known seat.new.known }
    ensures others { NothingSinks other.old.known other.new.known }
{
    join_mut(
        rt,
        &mut ||
            requires shared { IsSync R.row × IsSync G.row }
            requires seat { Belongs words.now seat.now }
            requires workers { (first < middle) × (middle ≤ workers) × (workers ≤ 64) }
            ensures seat { Belongs words.entry.now seat.exit.now }
            ensures relaxed { RelaxesParts words.entry.now.about workers first middle seat.entry.now.known seat.exit.now.known }
            ensures kept { NothingSinks seat.entry.now.known seat.exit.now.known }
        { relax_parts(rt, gate, words, seat, workers, first, middle) },
        &mut ||
            requires shared { IsSync R.row × IsSync G.row }
            requires seat { Belongs words.now other.now }
            requires workers { (middle < last) × (last ≤ workers) × (workers ≤ 64) }
            ensures other { Belongs words.entry.now other.exit.now }
            ensures relaxed { RelaxesParts words.entry.now.about workers middle last other.entry.now.known other.exit.now.known }
            ensures kept { NothingSinks other.entry.now.known other.exit.now.known }
        { relax_parts(rt, gate, words, other, workers, middle, last) },
    );
}

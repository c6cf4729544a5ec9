// The table of the words, and the calls on it.
ghost use Rattle.std.specs.Prelude.{◌≡◌, ℕ, suc, ◌+◌, ◌<◌, ◌≤◌, ℤ, pos, ◌+ℤ◌, ◌-ℤ◌, ◌≤ℤ◌, max, length, All, IfOk, slice_index, slice_set};
ghost use Rattle.cyc_num.specs.Ratio.{IsSmallRatio};
ghost use Rattle.cyc_num.specs.Within.{LiesWithin, time_limit};
ghost use Rattle.rule_system.specs.Bounds.{IsRule};
ghost use Rattle.rule_system.specs.Rules.{rule_at};
ghost use Rattle.rule_system.specs.Weights.{rule_weight, time_of, AreAttained, HasNoGain};
ghost use Rattle.arrival_words.specs.About.{IsReached, about};
ghost use Rattle.arrival_words.specs.Rule.{about_key};
ghost use Rattle.arrival_words.specs.Views.{value_of, values_of};

use crate::key::Key;
use crate::steps::{Copied, Joined, Loaded, Raised, Relaxation};
use crate::view::View;
use atomic_table::{Seat, Table};
use cyc_num::Ratio;
use rule_system::{Rule, System};
use std::alloc::{AllocError, Global};
use std::snapshot::Snapshot;

/// A seat on the table.
pub type Token = Seat<(), View>;

/// A word for each event of a system, behind a first that stays 0.
#[derive(Drop)]
pub struct WordTable<'s> {
    system: &'s System,
    root: u32,
    period: Ratio,
    table: Table<(), View, Key, Relaxation, Global>,
    pub ghost tied: { about_key table.shared.key ≡ about system.now root period },
    pub ghost wide: { table.shared.table_id.words ≡ suc system.now.events },
    pub ghost small: { IsSmallRatio period.top period.bottom },
    pub ghost rooted: { root < system.now.events },
    pub ghost no_gain: { HasNoGain period.top period.bottom system.now.rules },
}

impl<'s> WordTable<'s> {
    ghost use Rattle.arrival_words.specs.Seats.{about_words, IsSeatOf};
    ghost use Rattle.arrival_words.specs.Known.{Relaxes, NothingSinks};
    ghost use Rattle.arrival_words.specs.About.{IsWeightOfWalk};
    ghost use Rattle.arrival_words.specs.Views.{Learns, known_at, maxima};

    pub fn open(
        alloc: Global,
        system: &'s System,
        root: u32,
        period: Ratio,
        start: &[i64],
    ) -> Result<(WordTable<'s>, Token), AllocError>
        requires period { IsSmallRatio period.top period.bottom }
        requires no_gain { HasNoGain period.top period.bottom system.now.rules }
        requires root { root < system.now.events }
        requires start { AreAttained period.top period.bottom system.now.events system.now.rules root start.now }
        requires within { All (LiesWithin time_limit) start.now }
        ensures about { IfOk result (λ r. about_words r.0 ≡ about system.now root period) }
        ensures seat { IfOk result (λ r. IsSeatOf r.0 r.1 × (r.1.me.0.known ≡ start.now)) }
    {
        system.sound();
        let words = words_of(alloc, start)?;
        let key = Key {
            system: Snapshot::of(system),
            root,
            period,
            words: Snapshot::of(&words),
        };
        let (table, seat) = Table::of_words(alloc, words.as_slice(), &key)?;
        let words = WordTable {
            system,
            root,
            period,
            table,
        };
        Ok((words, seat))
    }

    pub fn system(&self) -> &'s System
        ensures { result.now ≡ self.now.system.now }
    {
        self.system
    }

    pub fn sound(&self)
        ensures root { (about_words self.now).root < self.now.system.now.events }
        ensures period { IsSmallRatio (about_words self.now).top (about_words self.now).bottom }
        ensures no_gain { HasNoGain (about_words self.now).top (about_words self.now).bottom self.now.system.now.rules }
    {
        let _ = &self.root;
    }

    pub fn root(&self) -> u32
        ensures same { result ≡ (about_words self.now).root }
        ensures event { result < self.now.system.now.events }
    {
        self.root
    }

    pub fn period(&self) -> Ratio
        ensures top { result.top ≡ (about_words self.now).top }
        ensures bottom { result.bottom ≡ (about_words self.now).bottom }
        ensures within { IsSmallRatio result.top result.bottom }
        ensures no_gain { HasNoGain result.top result.bottom self.now.system.now.rules }
    {
        self.period
    }

    fn rule(&self, n: usize) -> Rule
        requires { n < length self.now.system.now.rules }
        ensures rule { result ≡ rule_at self.now.system.now.rules n }
        ensures within { IsRule self.now.system.now.events result }
    {
        self.system.rules()[n]
    }

    // What the rule offers at its target where its source has the word `found`.
    fn offer(&self, rule: Rule, found: u64) -> u64
        requires rule { IsRule self.now.system.now.events rule }
        requires within { LiesWithin time_limit (value_of found) }
        ensures { value_of result ≡ value_of found
            +ℤ rule_weight self.now.period.top self.now.period.bottom rule }
    {
        let up = self.period.bottom() * rule.delay as u64;
        let down = self.period.top() * rule.offset as u64;
        found + up - down
    }

    fn load(&self, seat: &mut Token, event: u32) -> u64
        requires seat { IsSeatOf self.now seat.old }
        requires event { event < self.now.system.now.events }
        ensures seat { IsSeatOf self.now seat.new }
        ensures learns { Learns seat.old.me.0 event result (value_of result) seat.new.me.0 }
    {
        self.table.shared.load::<Loaded>(seat, event as usize + 1)
    }

    fn raise(&self, seat: &mut Token, event: u32, offer: u64) -> u64
        requires seat { IsSeatOf self.now seat.old }
        requires event { event < self.now.system.now.events }
        requires reached { IsReached (about_words self.now) event (value_of offer) }
        ensures seat { IsSeatOf self.now seat.new }
        ensures learns { Learns seat.old.me.0 event result (value_of (max result offer)) seat.new.me.0 }
    {
        self.table
            .shared
            .fetch_max::<Raised>(seat, event as usize + 1, offer)
    }

    // One load of the word of the rule's source, and one fetch_max of its target's.
    fn relax_rule(&self, seat: &mut Token, n: usize)
        requires seat { IsSeatOf self.now seat.old }
        requires n { n < length self.now.system.now.rules }
        ensures seat { IsSeatOf self.now seat.new }
        ensures relaxed { Relaxes (about_words self.now) n (n + 1) seat.old.me.0.known seat.new.me.0.known }
        ensures kept { NothingSinks seat.old.me.0.known seat.new.me.0.known }
    {
        let rule = self.rule(n);
        let found = self.load(seat, rule.source);
        let offer = self.offer(rule, found);
        self.raise(seat, rule.target, offer);
    }

    pub fn relax(&self, seat: &mut Token, from: usize, to: usize)
        requires seat { IsSeatOf self.now seat.old }
        requires order { from ≤ to }
        requires rules { to ≤ length self.now.system.now.rules }
        ensures seat { IsSeatOf self.now seat.new }
        ensures relaxed { Relaxes (about_words self.now) from to seat.old.me.0.known seat.new.me.0.known }
        ensures kept { NothingSinks seat.old.me.0.known seat.new.me.0.known }
    {
        for n in from..to {
            self.relax_rule(seat, n);
        }
    }

    pub fn read(&self, seat: &mut Token, event: u32) -> i64
        requires seat { IsSeatOf self.now seat.old }
        requires event { event < self.now.system.now.events }
        ensures seat { IsSeatOf self.now seat.new }
        ensures walk { IsWeightOfWalk (about_words self.now) event result }
        ensures risen { known_at seat.old.me.0 event ≤ℤ result }
        ensures known { seat.new.me.0.known ≡ slice_set seat.old.me.0.known event result }
    {
        let found = self.load(seat, event);
        value(found)
    }

    pub fn split(&self, seat: &mut Token) -> Token
        requires { IsSeatOf self.now seat.old }
        ensures seat { IsSeatOf self.now seat.new × (seat.new.me.0.known ≡ seat.old.me.0.known) }
        ensures given { IsSeatOf self.now result × (result.me.0.known ≡ seat.old.me.0.known) }
    {
        self.table.shared.split_seat::<Copied>(seat)
    }

    pub fn join(&self, seat: &mut Token, other: Token)
        requires seat { IsSeatOf self.now seat.old }
        requires other { IsSeatOf self.now other }
        ensures seat { IsSeatOf self.now seat.new }
        ensures known { seat.new.me.0.known ≡ maxima seat.old.me.0.known other.me.0.known }
        ensures kept { NothingSinks seat.old.me.0.known seat.new.me.0.known }
        ensures gained { NothingSinks other.me.0.known seat.new.me.0.known }
    {
        self.table.shared.join_seat::<Joined>(seat, other);
    }
}

// The number that a word stands for.
fn value(word: u64) -> i64
    requires { LiesWithin time_limit (value_of word) }
    ensures { result ≡ value_of word }
{
    word as i64 - (1 << 62)
}

// A word of 0, and a word for each number.
fn words_of(alloc: Global, start: &[i64]) -> Result<Vec<u64>, AllocError>
    requires { All (LiesWithin time_limit) start.now }
    ensures length { IfOk result (λ v. length v.items ≡ suc (length start.now)) }
    ensures first { IfOk result (λ v. slice_index v.items 0 ≡ 0) }
    ensures values { IfOk result (λ v. values_of v.items ≡ start.now) }
{
    let mut words = Vec::with_capacity(alloc, start.len() + 1)?;
    words.push(0)?;
    for value in start {
        words.push((*value + (1 << 62)) as u64)?;
    }
    Ok(words)
}

// The words, and the calls of threads on them.
ghost use Rattle.std.specs.Prelude.{◌≡◌, ℕ, ◌<◌, ◌≤◌, ℤ, pos, ◌≤ℤ◌, length, All, IfOk, slice_set};
ghost use Rattle.cyc_num.specs.Ratio.{IsSmallRatio};
ghost use Rattle.cyc_num.specs.Within.{LiesWithin, time_limit};
ghost use Rattle.rule_system.specs.Weights.{time_of, AreAttained, HasNoGain};
ghost use Rattle.arrival_words.specs.About.{IsWeightOfWalk, about, system_of};
ghost use Rattle.arrival_words.specs.Views.{maxima};
ghost use Rattle.arrival_words.specs.Known.{Belongs, Relaxes, NothingSinks};

use crate::word_table::{Token, WordTable};
use cyc_num::Ratio;
use rule_system::System;
use std::alloc::{AllocError, Global};
use std::marker::Model;

/// A seat of no bytes, with which a thread steps on the words. Clauses see which words it belongs to, and the number that it knows of
/// each event.
#[derive(Drop)]
pub struct RelaxSeat {
    token: Token,
}

impl Model for RelaxSeat {
    ghost use Rattle.std.specs.Prelude.{◌≡◌, []};
    ghost use Rattle.arrival_words.specs.Known.{Knowledge};

    ghost Value = { Knowledge };

    ghost view = { λ s.
        record { place = record { table = s.token.table_id; about = s.token.me.0.about }; known = s.token.me.0.known } };

    ghost invariant = { λ s. s.token.me.1 ≡ [] };
}

/// A word for each event of a system, which threads raise, each with a seat of its own. Clauses see which words they are, and their
/// system, root and period.
#[derive(Drop)]
pub struct Words<'s> {
    words: WordTable<'s>,
}

impl<'s> Model for Words<'s> {
    ghost use Rattle.arrival_words.specs.Known.{Place};
    ghost use Rattle.arrival_words.specs.Seats.{about_words};

    ghost Value = { Place };

    ghost view = { λ w. record { table = w.words.table.shared.table_id; about = about_words w.words } };
}

impl<'s> Words<'s> {
    /// Words that stand for the start values, the weights of walks from the root, and a seat that knows these.
    ///
    /// # Errors
    /// Want of memory.
    pub fn open(
        alloc: Global,
        system: &'s System,
        root: u32,
        period: Ratio,
        start: &[i64],
    ) -> Result<(Words<'s>, RelaxSeat), AllocError>
        requires period { IsSmallRatio period.top period.bottom }
        requires no_gain { HasNoGain period.top period.bottom system.now.rules }
        requires root { root < system.now.events }
        requires start { AreAttained period.top period.bottom system.now.events system.now.rules root start.now }
        requires within { All (LiesWithin time_limit) start.now }
        ensures words { IfOk result (λ r. r.0.about ≡ about system.now root period) }
        ensures seat { IfOk result (λ r. Belongs r.0 r.1) }
        ensures known { IfOk result (λ r. r.1.known ≡ start.now) }
    {
        let (words, token) = WordTable::open(alloc, system, root, period, start)?;
        Ok((Words { words }, RelaxSeat { token }))
    }

    /// The system that the words were opened with.
    pub fn system(&self) -> &'s System
        ensures { result.now ≡ system_of self.now.about }
    {
        self.words.system()
    }

    /// The root that the words were opened with.
    pub fn root(&self) -> u32
        ensures same { result ≡ self.now.about.root }
        ensures event { result < self.now.about.events }
    {
        self.words.root()
    }

    /// The period that the words were opened with.
    pub fn period(&self) -> Ratio
        ensures top { result.top ≡ self.now.about.top }
        ensures bottom { result.bottom ≡ self.now.about.bottom }
        ensures within { IsSmallRatio result.top result.bottom }
        ensures no_gain { HasNoGain result.top result.bottom self.now.about.rules }
    {
        self.words.period()
    }

    /// Makes known what holds of the root and the period of all words. It does nothing.
    pub fn sound(&self)
        ensures root { self.now.about.root < self.now.about.events }
        ensures period { IsSmallRatio self.now.about.top self.now.about.bottom }
        ensures no_gain { HasNoGain self.now.about.top self.now.about.bottom self.now.about.rules }
    {
        self.words.sound();
    }

    /// Relaxes the rules numbered from `from` up to, but not including, `to`: for each one load of the word of its source and one
    /// fetch_max of its target's.
    pub fn relax(&self, seat: &mut RelaxSeat, from: usize, to: usize)
        requires seat { Belongs self.now seat.old }
        requires order { from ≤ to }
        requires rules { to ≤ length self.now.about.rules }
        ensures seat { Belongs self.now seat.new }
        ensures relaxed { Relaxes self.now.about from to seat.old.known seat.new.known }
        ensures kept { NothingSinks seat.old.known seat.new.known }
    {
        self.words.relax(&mut seat.token, from, to);
    }

    /// The number that an event's word stands for now, which other threads may have raised.
    pub fn read(&self, seat: &mut RelaxSeat, event: u32) -> i64
        requires seat { Belongs self.now seat.old }
        requires event { event < self.now.about.events }
        ensures seat { Belongs self.now seat.new }
        ensures walk { IsWeightOfWalk self.now.about event result }
        ensures risen { time_of seat.old.known event ≤ℤ result }
        ensures known { seat.new.known ≡ slice_set seat.old.known event result }
    {
        self.words.read(&mut seat.token, event)
    }

    /// A seat for another thread, which knows the same.
    pub fn split(&self, seat: &mut RelaxSeat) -> RelaxSeat
        requires { Belongs self.now seat.old }
        ensures seat { seat.new ≡ seat.old }
        ensures given { result ≡ seat.old }
    {
        let token = self.words.split(&mut seat.token);
        RelaxSeat { token }
    }

    /// The seat knows the greater number of each event.
    pub fn join(&self, seat: &mut RelaxSeat, other: RelaxSeat)
        requires seat { Belongs self.now seat.old }
        requires other { Belongs self.now other }
        ensures seat { Belongs self.now seat.new }
        ensures known { seat.new.known ≡ maxima seat.old.known other.known }
        ensures kept { NothingSinks seat.old.known seat.new.known }
        ensures gained { NothingSinks other.known seat.new.known }
    {
        let RelaxSeat { token } = other;
        self.words.join(&mut seat.token, token);
    }
}

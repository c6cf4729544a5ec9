// All words read, one after the other.
ghost use Rattle.std.specs.Prelude.{◌≡◌, All, length};
ghost use Rattle.cyc_num.specs.Within.{LiesWithin, time_limit};
ghost use Rattle.arrival_words.specs.Known.{Belongs, NothingSinks};
ghost use Rattle.relax_rounds.specs.Rounds.{AreAttainedIn};

use arrival_words::{RelaxSeat, Words};

/// Reads the number of each event, which the seat then knows.
pub(crate) fn read_all(words: &Words<'_>, seat: &mut RelaxSeat, times: &mut [i64])
    requires seat { Belongs words.now seat.old }
    requires count { length times.old ≡ words.now.about.events }
    ensures seat { Belongs words.now seat.new }
    ensures known { seat.new.known ≡ times.new }
    ensures attained { AreAttainedIn words.now.about times.new }
    ensures within { All (LiesWithin time_limit) times.new }
    ensures kept { NothingSinks seat.old.known seat.new.known }
{
    let events = words.system().events();
    'events: for event in 0..events {
        times[event as usize] = words.read(seat, event);
    }
}

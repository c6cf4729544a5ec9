// The words of a line, lent one by one, and what a word says.
ghost use Rattle.std.specs.Prelude.{◌≡◌, ◌≢◌, ◌<◌, [], ◌∷◌, length, position, IfSome, MatchResult, None, Some};
ghost use Rattle.cyc_text.specs.Number.{number_of};
ghost use Rattle.cyc_text.specs.Words.{words_of};
ghost use Rattle.netlist_reader.specs.EditLines as spec;
ghost use Rattle.netlist_reader.specs.Readings.{HasWord, Reads};

use crate::faults::LineFault;
pub(crate) use cyc_text::first_word;
use cyc_text::read_number;
use netlist_model::{EventName, EventWord, PinWord};
use std::alloc::Global;

/// The first word of a line that must have one, and the line behind it.
pub fn take_word(line: &[u8]) -> Result<(&[u8], &[u8]), LineFault>
    ensures { MatchResult result (λ p. words_of line.now ≡ p.0.now ∷ words_of p.1.now) (λ _. words_of line.now ≡ []) }
{
    first_word(line).ok_or(LineFault::Syntax)
}

/// Refuses a line that has a word.
pub fn take_end(line: &[u8]) -> Result<(), LineFault>
    ensures { MatchResult result (λ _. words_of line.now ≡ []) (λ _. HasWord (words_of line.now)) }
{
    match first_word(line) {
        Some(_) => Err(LineFault::Syntax),
        None => Ok(()),
    }
}

/// A number.
pub(crate) fn number(word: &[u8]) -> Result<u64, LineFault>
    ensures { Reads result (number_of word.now) }
{
    read_number(word).ok_or(LineFault::Syntax)
}

/// Whether the last byte of an event word says that the net rises.
fn rises(edge: u8) -> Result<bool, LineFault>
    ensures { Reads result (spec.edge_of edge) }
{
    match edge {
        b'+' => Ok(true),
        b'-' => Ok(false),
        _ => Err(LineFault::Syntax),
    }
}

/// An event word.
#[tactic(auto, unfolding(crate::specs::EditLines::event_word))]
pub(crate) fn lent_event(word: &[u8]) -> Result<EventWord<'_>, LineFault>
    ensures { Reads result (spec.event_word word.now) }
{
    let Some((edge, net)) = word.split_last() else {
        return Err(LineFault::Syntax);
    };
    let rising = rises(*edge)?;
    Ok(EventWord::of(net, rising))
}

/// An event word, with a text of its own.
pub fn event_word(alloc: Global, word: &[u8]) -> Result<EventName, LineFault>
    ensures { Reads result (spec.event_word word.now) }
{
    let event = lent_event(word)?;
    Ok(event.own(alloc)?)
}

/// The place of the first '='.
fn equals_at(word: &[u8]) -> Option<usize>
    ensures place { result ≡ position spec.is_equals word.now }
    ensures within { IfSome result (λ at. at < length word.now) }
{
    word.iter().position(|byte| *byte == b'=')
}

/// A pin word.
#[tactic(auto, unfolding(crate::specs::EditLines::pin_word))]
fn pin_word(word: &[u8]) -> Result<PinWord<'_>, LineFault>
    ensures { Reads result (spec.pin_word word.now) }
{
    let Some(at) = equals_at(word) else {
        return Err(LineFault::Syntax);
    };
    Ok(PinWord::of(&word[..at], &word[at + 1..]))
}

/// All words of a line as pin words.
#[tactic(auto, unfolding(crate::specs::EditLines::pin_words))]
pub(crate) fn pin_words(alloc: Global, line: &[u8]) -> Result<Vec<PinWord<'_>>, LineFault>
    ensures { MatchResult result (λ v. spec.pin_words [] (words_of line.now) ≡ Some v.items) (λ e. e ≢ LineFault.Memory → spec.pin_words [] (words_of line.now) ≡ None) }
{
    let mut pins = Vec::new(alloc);
    let mut rest = line;
    while let Some((word, more)) = first_word(rest) {
        pins.push(pin_word(word)?)?;
        rest = more;
    }
    Ok(pins)
}

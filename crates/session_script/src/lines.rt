//! What a line of a script says.
ghost use Rattle.std.specs.Prelude.{◌≡◌, ◌∷◌};
ghost use Rattle.cyc_text.specs.Number.{number_of};
ghost use Rattle.cyc_text.specs.Words.{words_of};
ghost use Rattle.netlist_reader.specs.EditLines.{edit_of};
ghost use Rattle.netlist_reader.specs.Readings.{Reads};
ghost use Rattle.session_script.specs.ScriptLines as spec;

use crate::calls::Call;
use cyc_text::{LineSpan, Text, first_word, read_number};
use netlist_model::Edit;
use netlist_reader::{LineFault, event_word, read_edit, take_end, take_word};
use std::alloc::Global;

/// What a line says whose first word, and the line behind it, are at hand.
#[tactic(auto, unfolding(crate::specs::ScriptLines::call_of))]
pub(crate) fn call_of(
    alloc: Global,
    line: &[u8],
    first: &[u8],
    rest: &[u8],
) -> Result<Call, LineFault>
    requires { words_of line.now ≡ first.now ∷ words_of rest.now }
    ensures { Reads result (spec.call_of (words_of line.now)) }
{
    if first == b"pin".as_slice() {
        pin_words(rest)
    } else if first == b"rebase".as_slice() {
        alone(Call::Rebase, rest)
    } else if first == b"publish".as_slice() {
        alone(Call::Publish, rest)
    } else if first == b"drop".as_slice() {
        alone(Call::Drop, rest)
    } else if first == b"draft".as_slice() {
        alone(Call::Draft, rest)
    } else if first == b"period".as_slice() {
        alone(Call::Period, rest)
    } else if first == b"cycle".as_slice() {
        alone(Call::Cycle, rest)
    } else if first == b"arrival".as_slice() {
        arrival_words(alloc, rest)
    } else if first == b"slack".as_slice() {
        slack_words(alloc, rest)
    } else if first == b"report".as_slice() {
        alone(Call::Report, rest)
    } else {
        Ok(Call::Make(edit_at(alloc, line)?))
    }
}

/// A call whose line has one word.
fn alone(call: Call, rest: &[u8]) -> Result<Call, LineFault>
    ensures { Reads result (spec.alone call (words_of rest.now)) }
{
    take_end(rest)?;
    Ok(call)
}

/// A number.
fn number(word: &[u8]) -> Result<u64, LineFault>
    ensures { Reads result (number_of word.now) }
{
    read_number(word).ok_or(LineFault::Syntax)
}

/// The line behind `pin`.
fn pin_words(line: &[u8]) -> Result<Call, LineFault>
    ensures { Reads result (spec.pin_words (words_of line.now)) }
{
    let Some((version, rest)) = first_word(line) else {
        return Ok(Call::Pin);
    };
    take_end(rest)?;
    Ok(Call::PinAt(number(version)?))
}

/// The line behind `arrival`.
fn arrival_words(alloc: Global, line: &[u8]) -> Result<Call, LineFault>
    ensures { Reads result (spec.arrival_words (words_of line.now)) }
{
    let (event, rest) = take_word(line)?;
    take_end(rest)?;
    Ok(Call::Arrival(event_word(alloc, event)?))
}

/// The line behind `slack`.
fn slack_words(alloc: Global, line: &[u8]) -> Result<Call, LineFault>
    ensures { Reads result (spec.slack_words (words_of line.now)) }
{
    let (fork, rest) = take_word(line)?;
    take_end(rest)?;
    Ok(Call::Slack(Text::of(alloc, fork)?))
}

/// The edit of a whole line.
fn edit_at(alloc: Global, line: &[u8]) -> Result<Edit, LineFault>
    ensures { Reads result (edit_of (words_of line.now)) }
{
    let to = line.len();
    read_edit(
        alloc,
        line,
        LineSpan {
            from: 0,
            to,
            next: to,
        },
    )
}

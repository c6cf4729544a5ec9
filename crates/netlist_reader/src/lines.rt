// What a line says.
ghost use Rattle.std.specs.Prelude.{◌≡◌, ◌≤◌, ◌∷◌, None, Some, IfOk, IfErr, ◌≢◌, length, slice_range};
ghost use Rattle.cyc_text.specs.Words as text;
ghost use Rattle.netlist_reader.specs.EditLines as spec;
ghost use Rattle.netlist_reader.specs.Told.{Says};

use crate::faults::LineFault;
use crate::lent::{DelaySaid, ForkSaid, InstSaid, MoveSaid, Said, SwapSaid, TickSaid};
use crate::words::{lent_event, number, pin_words, take_end, take_word};
use cyc_text::LineSpan;
use netlist_model::Edit;
use std::alloc::Global;

/// What a line of the bytes says.
///
/// `Syntax` exactly where it is no edit line, as where it has no word; `Memory` only for want of memory. Linear in the line; memory is
/// taken for what the edit keeps alone.
#[tactic(auto, unfolding(crate::specs::EditLines::edit_of))]
pub fn read_edit(alloc: Global, bytes: &[u8], line: LineSpan) -> Result<Edit, LineFault>
    requires ordered { line.from ≤ line.to }
    requires within { line.to ≤ length bytes.now }
    ensures ok { IfOk result (λ edit. spec.edit_of (text.words_of (slice_range bytes.now line.from line.to)) ≡ Some edit) }
    ensures refused { IfErr result (λ e. e ≢ LineFault.Memory → spec.edit_of (text.words_of (slice_range bytes.now line.from line.to)) ≡ None) }
{
    let (first, rest) = take_word(&bytes[line.from..line.to])?;
    match said_of(alloc, first, rest) {
        Ok(said) => Ok(said.own(alloc)?),
        Err(fault) => Err(fault),
    }
}

/// What a line says that begins with a word.
#[tactic(auto, unfolding(crate::specs::EditLines::edit_of))]
pub(crate) fn said_of<'a>(
    alloc: Global,
    first: &[u8],
    rest: &'a [u8],
) -> Result<Said<'a>, LineFault>
    ensures { Says result (spec.edit_of (first.now ∷ text.words_of rest.now)) }
{
    if first == b"net".as_slice() {
        net_words(rest)
    } else if first == b"const".as_slice() {
        const_words(rest)
    } else if first == b"inst".as_slice() {
        inst_words(alloc, rest)
    } else if first == b"delinst".as_slice() {
        del_inst_words(rest)
    } else if first == b"delnet".as_slice() {
        del_net_words(rest)
    } else if first == b"move".as_slice() {
        move_words(rest)
    } else if first == b"swap".as_slice() {
        swap_words(rest)
    } else if first == b"delay".as_slice() {
        delay_words(rest)
    } else if first == b"tick".as_slice() {
        tick_words(rest)
    } else if first == b"root".as_slice() {
        root_words(rest)
    } else if first == b"fork".as_slice() {
        fork_words(rest)
    } else if first == b"delfork".as_slice() {
        del_fork_words(rest)
    } else {
        Err(LineFault::Syntax)
    }
}

/// The line behind `net`.
fn net_words(line: &[u8]) -> Result<Said<'_>, LineFault>
    ensures { Says result (spec.net_words (text.words_of line.now)) }
{
    let (name, rest) = take_word(line)?;
    take_end(rest)?;
    Ok(Said::Net(name))
}

/// The line behind `const`.
fn const_words(line: &[u8]) -> Result<Said<'_>, LineFault>
    ensures { Says result (spec.const_words (text.words_of line.now)) }
{
    let (name, rest) = take_word(line)?;
    take_end(rest)?;
    Ok(Said::Const(name))
}

/// The line behind `inst`.
fn inst_words(alloc: Global, line: &[u8]) -> Result<Said<'_>, LineFault>
    ensures { Says result (spec.inst_words (text.words_of line.now)) }
{
    let (name, rest) = take_word(line)?;
    let (cell, rest) = take_word(rest)?;
    let pins = pin_words(alloc, rest)?;
    Ok(Said::Inst(InstSaid { name, cell, pins }))
}

/// The line behind `delinst`.
fn del_inst_words(line: &[u8]) -> Result<Said<'_>, LineFault>
    ensures { Says result (spec.del_inst_words (text.words_of line.now)) }
{
    let (name, rest) = take_word(line)?;
    take_end(rest)?;
    Ok(Said::DelInst(name))
}

/// The line behind `delnet`.
fn del_net_words(line: &[u8]) -> Result<Said<'_>, LineFault>
    ensures { Says result (spec.del_net_words (text.words_of line.now)) }
{
    let (name, rest) = take_word(line)?;
    take_end(rest)?;
    Ok(Said::DelNet(name))
}

/// The line behind `move`.
fn move_words(line: &[u8]) -> Result<Said<'_>, LineFault>
    ensures { Says result (spec.move_words (text.words_of line.now)) }
{
    let (inst, rest) = take_word(line)?;
    let (pin, rest) = take_word(rest)?;
    let (net, rest) = take_word(rest)?;
    take_end(rest)?;
    Ok(Said::Move(MoveSaid { inst, pin, net }))
}

/// The line behind `swap`.
fn swap_words(line: &[u8]) -> Result<Said<'_>, LineFault>
    ensures { Says result (spec.swap_words (text.words_of line.now)) }
{
    let (inst, rest) = take_word(line)?;
    let (cell, rest) = take_word(rest)?;
    take_end(rest)?;
    Ok(Said::Swap(SwapSaid { inst, cell }))
}

/// The line behind `delay`.
fn delay_words(line: &[u8]) -> Result<Said<'_>, LineFault>
    ensures { Says result (spec.delay_words (text.words_of line.now)) }
{
    let (inst, rest) = take_word(line)?;
    let (pin, rest) = take_word(rest)?;
    let (rise, rest) = take_word(rest)?;
    let (fall, rest) = take_word(rest)?;
    take_end(rest)?;
    let rise = number(rise)?;
    let fall = number(fall)?;
    Ok(Said::Delay(DelaySaid {
        inst,
        pin,
        rise,
        fall,
    }))
}

/// The line behind `tick`.
fn tick_words(line: &[u8]) -> Result<Said<'_>, LineFault>
    ensures { Says result (spec.tick_words (text.words_of line.now)) }
{
    let (source, rest) = take_word(line)?;
    let (target, rest) = take_word(rest)?;
    let (count, rest) = take_word(rest)?;
    take_end(rest)?;
    let count = number(count)?;
    let source = lent_event(source)?;
    let target = lent_event(target)?;
    Ok(Said::Tick(TickSaid {
        source,
        target,
        count,
    }))
}

/// The line behind `root`.
fn root_words(line: &[u8]) -> Result<Said<'_>, LineFault>
    ensures { Says result (spec.root_words (text.words_of line.now)) }
{
    let (event, rest) = take_word(line)?;
    take_end(rest)?;
    Ok(Said::Root(lent_event(event)?))
}

/// The line behind `fork`.
fn fork_words(line: &[u8]) -> Result<Said<'_>, LineFault>
    ensures { Says result (spec.fork_words (text.words_of line.now)) }
{
    let (name, rest) = take_word(line)?;
    let (root, rest) = take_word(rest)?;
    let (fast, rest) = take_word(rest)?;
    let (slow, rest) = take_word(rest)?;
    let (margin, rest) = take_word(rest)?;
    let (offset, rest) = take_word(rest)?;
    take_end(rest)?;
    let root = lent_event(root)?;
    let fast = lent_event(fast)?;
    let slow = lent_event(slow)?;
    let margin = number(margin)?;
    let offset = number(offset)?;
    Ok(Said::Fork(ForkSaid {
        name,
        root,
        fast,
        slow,
        margin,
        offset,
    }))
}

/// The line behind `delfork`.
fn del_fork_words(line: &[u8]) -> Result<Said<'_>, LineFault>
    ensures { Says result (spec.del_fork_words (text.words_of line.now)) }
{
    let (name, rest) = take_word(line)?;
    take_end(rest)?;
    Ok(Said::DelFork(name))
}

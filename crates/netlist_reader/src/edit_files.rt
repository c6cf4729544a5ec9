// Files of edits.
ghost use Rattle.std.specs.Prelude.{◌≡◌, ◌≢◌, [], IfOk, IfErr, OnOk, Ok, Err};
ghost use Rattle.std.specs.Str.Lines.{lines};
ghost use Rattle.cyc_text.specs.Words as text;
ghost use Rattle.netlist_reader.specs.EditFiles as spec;

use crate::faults::{EditsFault, LineFault};
use crate::lines::said_of;
use crate::words::first_word;
use cyc_text::next_line;
use netlist_model::{Edit, Edits};
use std::alloc::Global;

/// The edits of a file, in order; or its first line that is no edit line. Lines without words are passed over.
///
/// `Syntax` tells that line's number, from 1; `Memory` comes only for want of memory. Linear in the bytes.
pub fn read_edits(alloc: Global, bytes: &[u8]) -> Result<Edits, EditsFault>
    ensures ok { IfOk result (λ edits. spec.edits_of bytes.now ≡ Ok edits) }
    ensures refused { IfErr result (λ e. e ≢ EditsFault.Memory → spec.edits_of bytes.now ≡ Err e) }
{
    let items = edits_of(alloc, bytes)?;
    Ok(Edits::of(items))
}

/// The edits of the lines.
#[tactic(auto, unfolding(crate::specs::EditFiles::edits_from))]
fn edits_of(alloc: Global, bytes: &[u8]) -> Result<Vec<Edit>, EditsFault>
    ensures ok { IfOk result (λ v. spec.edits_of bytes.now ≡ Ok v.items) }
    ensures refused { IfErr result (λ e. e ≢ EditsFault.Memory → spec.edits_of bytes.now ≡ Err e) }
{
    let mut edits = Vec::new(alloc);
    let mut at = 0;
    let mut number = 1u64;
    while let Some(line) = next_line(bytes, at) {
        read_line(alloc, number, &bytes[line.from..line.to], &mut edits)?;
        number += 1;
        at = line.next;
    }
    Ok(edits)
}

/// Puts the edit of line `number` last, where it says one.
#[tactic(auto, unfolding(crate::specs::EditFiles::with_words))]
fn read_line(
    alloc: Global,
    number: u64,
    line: &[u8],
    edits: &mut Vec<Edit>,
) -> Result<(), EditsFault>
    ensures ok { OnOk result (spec.with_words number edits.old.items (text.words_of line.now) ≡ Ok edits.new.items) }
    ensures refused { IfErr result (λ e. e ≢ EditsFault.Memory → spec.with_words number edits.old.items (text.words_of line.now) ≡ Err e) }
{
    let Some((first, rest)) = first_word(line) else {
        return Ok(());
    };
    match said_of(alloc, first, rest) {
        Ok(said) => {
            edits.push(said.own(alloc)?)?;
            Ok(())
        }
        Err(LineFault::Syntax) => Err(EditsFault::Syntax(number)),
        Err(LineFault::Memory) => Err(EditsFault::Memory),
    }
}

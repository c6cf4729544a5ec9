//! Edits in turn on a copy of a netlist, and copies of edits.
ghost use Rattle.std.specs.Prelude.{◌≡◌, ◌≢◌, Ok, Err, IfOk, IfErr, OnOk};
ghost use Rattle.netlist_model.specs.Edits.{at_edit, edited, made};
ghost use Rattle.netlist_model.specs.Sound.{Fits};

use cell_arcs::Library;
use netlist_model::{Edit, EditFault, Edits, Netlist, StatementFault};
use std::alloc::{AllocError, Global};

/// The netlist that the edits make in turn, each of what those before it left. The one handed in stays as it was: they are
/// made on a copy. The cost is that of the copy and of each edit.
///
/// # Errors
///
/// `At` with the position, from 1, of the first edit that is refused, and its fault; `Memory` only for want of memory.
pub fn apply(library: &Library, net: &Netlist, edits: &[Edit]) -> Result<Netlist, EditFault>
    requires { Fits library.now net.now.insts }
    ensures ok { IfOk result (λ n. edited library.now edits.now net.now ≡ Ok n) }
    ensures refused { IfErr result (λ e. e ≢ EditFault.Memory → edited library.now edits.now net.now ≡ Err e) }
    ensures fits { IfOk result (λ n. Fits library.now n.insts) }
{
    let mut made = net.copy()?;
    make_all(library, &mut made, edits)?;
    Ok(made)
}

/// Makes the edits in turn, up to the first that is refused.
#[tactic(auto, unfolding(netlist_model::specs::Edits::edited_from))]
fn make_all(library: &Library, net: &mut Netlist, edits: &[Edit]) -> Result<(), EditFault>
    requires { Fits library.now net.old.insts }
    ensures ok { OnOk result (edited library.now edits.now net.old ≡ Ok net.new) }
    ensures refused { IfErr result (λ e. e ≢ EditFault.Memory → edited library.now edits.now net.old ≡ Err e) }
    ensures fits { Fits library.now net.new.insts }
{
    for (at, edit) in edits.iter().enumerate() {
        make_at(library, net, at + 1, edit)?;
    }
    Ok(())
}

/// Makes the edit at a position.
fn make_at(
    library: &Library,
    net: &mut Netlist,
    position: usize,
    edit: &Edit,
) -> Result<(), EditFault>
    requires { Fits library.now net.old.insts }
    ensures ok { OnOk result (at_edit position (made library.now net.old edit.now) ≡ Ok net.new) }
    ensures refused { IfErr result (λ e. e ≢ EditFault.Memory → at_edit position (made library.now net.old edit.now) ≡ Err e) }
    ensures fits { Fits library.now net.new.insts }
{
    match net.make(library, edit) {
        Ok(()) => Ok(()),
        Err(StatementFault::Memory) => Err(EditFault::Memory),
        Err(fault) => Err(EditFault::At(position, fault)),
    }
}

/// Another list of the same edits. `AllocError` only for want of memory.
pub fn copy_edits(alloc: Global, edits: &[Edit]) -> Result<Edits, AllocError>
    ensures { IfOk result (λ copies. copies ≡ edits.now) }
{
    let copies = copies(alloc, edits)?;
    Ok(Edits::of(copies))
}

fn copies(alloc: Global, edits: &[Edit]) -> Result<Vec<Edit>, AllocError>
    ensures { IfOk result (λ v. v.items ≡ edits.now) }
{
    let mut copies = Vec::with_capacity(alloc, edits.len())?;
    for edit in edits {
        copies.push(edit.copy()?)?;
    }
    Ok(copies)
}

// Netlist files.
ghost use Rattle.std.specs.Prelude.{◌≡◌, ◌≢◌, IfOk, IfErr, OnOk, Ok, Err};
ghost use Rattle.std.specs.Str.Lines.{lines};
ghost use Rattle.cyc_text.specs.Words as text;
ghost use Rattle.netlist_model.specs.Sound.{Fits};
ghost use Rattle.netlist_reader.specs.NetlistFiles as spec;
ghost use Rattle.netlist_reader.specs.Told.{told};

use crate::faults::{LineFault, NetFault};
use crate::lent::Said;
use crate::lines::said_of;
use crate::words::first_word;
use cell_arcs::Library;
use cyc_text::next_line;
use netlist_model::{Netlist, StatementFault};
use std::alloc::Global;

/// The netlist of a file, read to its end; or its first refused line.
///
/// `Syntax` and `Statement` tell that line's number, from 1; `Memory` comes only for want of memory. Linear in the bytes. Whether the
/// netlist is whole is not judged.
pub fn read(alloc: Global, library: &Library, bytes: &[u8]) -> Result<Netlist, NetFault>
    ensures ok { IfOk result (λ net. spec.netlist_of library.now bytes.now ≡ Ok net) }
    ensures refused { IfErr result (λ e. e ≢ NetFault.Memory → spec.netlist_of library.now bytes.now ≡ Err e) }
    ensures fits { IfOk result (λ net. Fits library.now net.insts) }
{
    let mut net = Netlist::empty(alloc)?;
    read_lines(alloc, library, bytes, &mut net)?;
    Ok(net)
}

/// Does what each line says, up to the first that is refused.
#[tactic(auto, unfolding(crate::specs::NetlistFiles::after_lines))]
fn read_lines(
    alloc: Global,
    library: &Library,
    bytes: &[u8],
    net: &mut Netlist,
) -> Result<(), NetFault>
    requires { Fits library.now net.old.insts }
    ensures ok { OnOk result (spec.after_lines library.now 1 (lines bytes.now) net.old ≡ Ok net.new) }
    ensures refused { IfErr result (λ e. e ≢ NetFault.Memory → spec.after_lines library.now 1 (lines bytes.now) net.old ≡ Err e) }
    ensures fits { Fits library.now net.new.insts }
{
    let mut at = 0;
    let mut number = 1u64;
    while let Some(line) = next_line(bytes, at) {
        read_line(alloc, library, number, &bytes[line.from..line.to], net)?;
        number += 1;
        at = line.next;
    }
    Ok(())
}

/// Does what line `number` says.
#[tactic(auto, unfolding(crate::specs::NetlistFiles::after_words))]
fn read_line(
    alloc: Global,
    library: &Library,
    number: u64,
    line: &[u8],
    net: &mut Netlist,
) -> Result<(), NetFault>
    requires { Fits library.now net.old.insts }
    ensures ok { OnOk result (spec.after_words library.now number (text.words_of line.now) net.old ≡ Ok net.new) }
    ensures refused { IfErr result (λ e. e ≢ NetFault.Memory → spec.after_words library.now number (text.words_of line.now) net.old ≡ Err e) }
    ensures fits { Fits library.now net.new.insts }
{
    let Some((first, rest)) = first_word(line) else {
        return Ok(());
    };
    match said_of(alloc, first, rest) {
        Ok(said) if is_in_file(&said) => make_at_line(library, number, &said, net),
        Ok(_) | Err(LineFault::Syntax) => Err(NetFault::Syntax(number)),
        Err(LineFault::Memory) => Err(NetFault::Memory),
    }
}

/// Whether a netlist file may say this: it adds, and takes nothing away.
fn is_in_file(said: &Said<'_>) -> bool
    ensures { result ≡ spec.is_in_file (told said.now) }
{
    match said {
        Said::DelInst(_) => false,
        Said::DelNet(_) => false,
        Said::Move(_) => false,
        Said::Swap(_) => false,
        Said::DelFork(_) => false,
        _ => true,
    }
}

/// Does what line `number` says.
fn make_at_line(
    library: &Library,
    number: u64,
    said: &Said<'_>,
    net: &mut Netlist,
) -> Result<(), NetFault>
    requires { Fits library.now net.old.insts }
    ensures ok { OnOk result (spec.at_line number (spec.stated library.now net.old (told said.now)) ≡ Ok net.new) }
    ensures refused { IfErr result (λ e. e ≢ NetFault.Memory → spec.at_line number (spec.stated library.now net.old (told said.now)) ≡ Err e) }
    ensures fits { Fits library.now net.new.insts }
{
    match make_in_file(library, said, net) {
        Ok(()) => Ok(()),
        Err(StatementFault::Memory) => Err(NetFault::Memory),
        Err(fault) => Err(NetFault::Statement(number, fault)),
    }
}

/// Does what a line says, in the words of the line: a root that stands is not replaced.
fn make_in_file(library: &Library, said: &Said<'_>, net: &mut Netlist) -> Result<(), StatementFault>
    requires { Fits library.now net.old.insts }
    ensures ok { OnOk result (spec.stated library.now net.old (told said.now) ≡ Ok net.new) }
    ensures refused { IfErr result (λ e. e ≢ StatementFault.Memory → spec.stated library.now net.old (told said.now) ≡ Err e) }
    ensures fits { Fits library.now net.new.insts }
{
    match said {
        Said::Net(name) => net.add_net(name),
        Said::Const(name) => net.add_const(name),
        Said::Inst(i) => net.add_inst_by_words(library, i.name, i.cell, &i.pins),
        Said::DelInst(name) => net.del_inst(name),
        Said::DelNet(name) => net.del_net(name),
        Said::Move(m) => net.move_pin(library, m.inst, m.pin, m.net),
        Said::Swap(s) => net.swap_cell(library, s.inst, s.cell),
        Said::Delay(d) => net.set_delay(library, d.inst, d.pin, d.rise, d.fall),
        Said::Tick(t) => net.set_tick_by_words(&t.source, &t.target, t.count),
        Said::Root(event) => net.set_root_by_words(event, false),
        Said::Fork(f) => {
            net.add_fork_by_words(f.name, &f.root, &f.fast, &f.slow, f.margin, f.offset)
        }
        Said::DelFork(name) => net.del_fork(name),
    }
}

//! The statements whose words are texts of their own.
ghost use Rattle.std.specs.Prelude.{◌≡◌, ◌≢◌, Ok, Err, IfErr, List, OnErr, OnOk};
ghost use Rattle.cell_arcs.specs.declared.cells.Cell.{Cell};
ghost use Rattle.netlist_model.specs.Sound.{Fits};
ghost use Rattle.netlist_model.specs.Statements as spec;

use super::Netlist;
use crate::faults::StatementFault;
use crate::parts::{EventName, PinNet};
use crate::words::lent_pins;
use cell_arcs::Library;

impl Netlist {
    /// Makes an event the root. Another root is replaced where `again` says so, and refused where not.
    pub fn set_root(&mut self, event: &EventName, again: bool) -> Result<(), StatementFault>
        ensures ok { OnOk result (spec.set_root self.old event.now again ≡ Ok self.new) }
        ensures refused { IfErr result (λ e. e ≢ StatementFault.Memory → spec.set_root self.old event.now again ≡ Err e) }
        ensures unchanged { OnErr result (self.new ≡ self.old) }
        ensures fits { (library : List Cell) → Fits library self.old.insts → Fits library self.new.insts }
    {
        self.set_root_by_words(&event.lent(), again)
    }

    /// Gives a pair of events a tick, or takes theirs away where the count is 0. The count is at most 15.
    pub fn set_tick(
        &mut self,
        source: &EventName,
        target: &EventName,
        count: u64,
    ) -> Result<(), StatementFault>
        ensures ok { OnOk result (spec.set_tick self.old source.now target.now count ≡ Ok self.new) }
        ensures refused { IfErr result (λ e. e ≢ StatementFault.Memory → spec.set_tick self.old source.now target.now count ≡ Err e) }
        ensures unchanged { OnErr result (self.new ≡ self.old) }
        ensures fits { (library : List Cell) → Fits library self.old.insts → Fits library self.new.insts }
    {
        self.set_tick_by_words(&source.lent(), &target.lent(), count)
    }

    /// Adds a fork, which stands last. The margin is in picoseconds, at most 1,000,000, and the offset at most 15.
    pub fn add_fork(
        &mut self,
        name: &[u8],
        root: &EventName,
        fast: &EventName,
        slow: &EventName,
        margin: u64,
        offset: u64,
    ) -> Result<(), StatementFault>
        ensures ok { OnOk result (spec.add_fork self.old name.now root.now fast.now slow.now margin offset ≡ Ok self.new) }
        ensures refused { IfErr result (λ e. e ≢ StatementFault.Memory → spec.add_fork self.old name.now root.now fast.now slow.now margin offset ≡ Err e) }
        ensures unchanged { OnErr result (self.new ≡ self.old) }
        ensures fits { (library : List Cell) → Fits library self.old.insts → Fits library self.new.insts }
    {
        self.add_fork_by_words(
            name,
            &root.lent(),
            &fast.lent(),
            &slow.lent(),
            margin,
            offset,
        )
    }

    /// Adds an instance of a cell of the library, which stands last. Each pin of the cell is given once.
    pub fn add_inst(
        &mut self,
        library: &Library,
        name: &[u8],
        cell: &[u8],
        pins: &[PinNet],
    ) -> Result<(), StatementFault>
        requires { Fits library.now self.old.insts }
        ensures ok { OnOk result (spec.add_inst library.now self.old name.now cell.now pins.now ≡ Ok self.new) }
        ensures refused { IfErr result (λ e. e ≢ StatementFault.Memory → spec.add_inst library.now self.old name.now cell.now pins.now ≡ Err e) }
        ensures unchanged { OnErr result (self.new ≡ self.old) }
        ensures fits { Fits library.now self.new.insts }
    {
        let pins = lent_pins(self.alloc, pins)?;
        self.add_inst_by_words(library, name, cell, &pins)
    }
}

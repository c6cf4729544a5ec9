//! What each edit keeps and what it leaves out, by the definitions. A law is the contract of a function that does nothing: a call makes it known where it stands.
ghost use Rattle.std.specs.Prelude.{◌≡◌, ◌≢◌, ℕ, List, Ok, Err};
ghost use Rattle.cell_arcs.specs.declared.cells.Cell.{Cell};
ghost use Rattle.netlist_model.specs.Circuit.{Circuit, nothing};
ghost use Rattle.netlist_model.specs.Deletions.{del_fork, del_inst, del_net};
ghost use Rattle.netlist_model.specs.Edits.{made};
ghost use Rattle.netlist_model.specs.LeftOut.{IsWithout};
ghost use Rattle.netlist_model.specs.Sound.{Fits, IsNetlist};
ghost use Rattle.netlist_model.specs.Statements.{add_const, add_fork, add_inst, add_net};
ghost use Rattle.netlist_model.specs.declared.edits.Edit.{Edit};
ghost use Rattle.netlist_model.specs.declared.faults.StatementFault.TheVariants.{Memory};
ghost use Rattle.netlist_model.specs.declared.parts.EventName.{EventName};
ghost use Rattle.netlist_model.specs.declared.parts.PinNet.{PinNet};

/// Nothing is a netlist; an edit makes a netlist of a netlist that fits the library, and one that fits it; no edit is
/// refused for want of memory.
pub fn edits_keep_netlists()
    ensures nothing { IsNetlist nothing }
    ensures netlist { (library : List Cell) (c changed : Circuit) (edit : Edit) →
        IsNetlist c → Fits library c.insts → made library c edit ≡ Ok changed → IsNetlist changed }
    ensures fits { (library : List Cell) (c changed : Circuit) (edit : Edit) →
        Fits library c.insts → made library c edit ≡ Ok changed → Fits library changed.insts }
    ensures refused { (library : List Cell) (c : Circuit) (edit : Edit) → made library c edit ≢ Err Memory }
{}

/// A net, a constant, an instance or a fork that was just added is taken away again, and the netlist is the one before.
pub fn additions_are_undone()
    ensures net { (c d : Circuit) (name : List ℕ) →
        IsNetlist c → add_net c name ≡ Ok d → del_net d name ≡ Ok c }
    ensures constant { (c d : Circuit) (name : List ℕ) →
        IsNetlist c → add_const c name ≡ Ok d → del_net d name ≡ Ok c }
    ensures inst { (library : List Cell) (c d : Circuit) (name cell : List ℕ) (words : List PinNet) →
        add_inst library c name cell words ≡ Ok d → del_inst d name ≡ Ok c }
    ensures fork { (c d : Circuit) (name : List ℕ) (root fast slow : EventName) (margin offset : ℕ) →
        add_fork c name root fast slow margin offset ≡ Ok d → del_fork d name ≡ Ok c }
{}

/// A deletion leaves out the instance or the fork of the name, and nothing else.
pub fn deletions_leave_out_one()
    ensures inst { (c d : Circuit) (name : List ℕ) → del_inst c name ≡ Ok d →
        IsWithout (λ i. i.name) name c.insts d.insts × (d ≡ record c { insts = d.insts }) }
    ensures fork { (c d : Circuit) (name : List ℕ) → del_fork c name ≡ Ok d →
        IsWithout (λ f. f.name) name c.forks d.forks × (d ≡ record c { forks = d.forks }) }
{}

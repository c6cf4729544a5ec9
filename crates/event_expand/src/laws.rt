//! A law of the expansion, which is the contract of a function that does nothing.
ghost use Rattle.std.specs.Prelude.{◌*◌, All, List, length};
ghost use Rattle.cell_arcs.specs.IsLibrary.{IsLibrary};
ghost use Rattle.cell_arcs.specs.declared.cells.Cell.{Cell};
ghost use Rattle.netlist_model.specs.Circuit.{Circuit};
ghost use Rattle.netlist_model.specs.Sound.{IsNetlist};
ghost use Rattle.rule_system.specs.Bounds.{IsRule};
ghost use Rattle.event_expand.specs.Systems.{system_rules};

/// The rules of a netlist's system are between its events, with delays and offsets within the limits.
pub fn rules_are_within()
    ensures { (library : List Cell) (c : Circuit) → IsLibrary library → IsNetlist c →
        All (IsRule (2 * length c.nets)) (system_rules library c) }
{}

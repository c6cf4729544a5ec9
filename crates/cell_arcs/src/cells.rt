// Cells, their pins and their arcs.
ghost use Rattle.std.specs.Prelude.{◌≡◌};

use cyc_text::Text;
use std::marker::Model;

/// Which edge of an input causes which edge of the output.
#[derive(Clone, Copy, Debug, PartialEq, Eq)]
pub enum Sense {
    /// Each edge causes the same edge of the output.
    Pos,
    /// Each edge causes the other edge of the output.
    Neg,
    /// Each edge causes both edges of the output.
    Non,
}

/// A timing arc from an input to the output.
#[derive(Clone, Copy, Debug, PartialEq, Eq)]
pub struct CellArc {
    /// The place of its source in the inputs, counted from 0.
    pub from: usize,
    pub sense: Sense,
    /// The delay to a rising output in picoseconds, 0 to 1,000,000.
    pub rise: u32,
    /// The delay to a falling output in picoseconds, 0 to 1,000,000.
    pub fall: u32,
}

/// The names of pins in order.
#[derive(Drop)]
pub struct Pins {
    items: Vec<Text>,
}

impl Model for Pins {
    ghost use Rattle.std.specs.Prelude.{List, ℕ};

    ghost Value = { List (List ℕ) };

    ghost view = { λ p. p.items.items };
}

impl Pins {
    /// The pins of a vector.
    pub fn of(items: Vec<Text>) -> Pins
        ensures { result ≡ items.items }
    {
        Pins { items }
    }

    /// The pins as a slice.
    pub fn list(&self) -> &[Text]
        ensures { result.now ≡ self.now }
    {
        self.items.as_slice()
    }
}

/// Arcs in order.
#[derive(Drop)]
pub struct Arcs {
    items: Vec<CellArc>,
}

impl Model for Arcs {
    ghost use Rattle.std.specs.Prelude.{List};
    ghost use Rattle.cell_arcs.specs.declared.cells.CellArc.{CellArc};

    ghost Value = { List CellArc };

    ghost view = { λ a. a.items.items };
}

impl Arcs {
    /// The arcs of a vector.
    pub fn of(items: Vec<CellArc>) -> Arcs
        ensures { result ≡ items.items }
    {
        Arcs { items }
    }

    /// The arcs as a slice.
    pub fn list(&self) -> &[CellArc]
        ensures { result.now ≡ self.now }
    {
        self.items.as_slice()
    }
}

/// A cell: its name, its pins and its arcs.
#[derive(Drop)]
pub struct Cell {
    pub name: Text,
    pub inputs: Pins,
    pub output: Text,
    pub arcs: Arcs,
}

// The cells of a table.
ghost use Rattle.std.specs.Prelude.{◌≡◌, IfOk};
ghost use Rattle.toml.specs.View.{view, table_view};
ghost use Rattle.cell_arcs.specs.Library as spec;
ghost use Rattle.cell_arcs.specs.Steps.{Answers, AnswersBy};
ghost use Rattle.cell_arcs.specs.IsLibrary.{AreCells};

use crate::cells::Cell;
use crate::checks::{arcs_of, pin_fault};
use crate::faults::LibraryFault;
use crate::shapes::{CellShape, cell_shape};
use cyc_text::{Limit, Text, is_name};
use std::alloc::Global;
use toml::{Table, Value};

/// The most inputs of a cell.
const MOST_INPUTS: usize = 16;

/// The cell of this number, name and keys.
#[tactic(auto, unfolding(crate::specs::Library::cell_from))]
fn cell_from(alloc: Global, at: usize, name: &str, shape: CellShape) -> Result<Cell, LibraryFault>
    ensures { Answers result (spec.cell_from at name.now shape) }
{
    if shape.inputs.list().len() > MOST_INPUTS {
        return Err(LibraryFault::TooMany(Limit::Inputs, at));
    }
    if let Some(fault) = pin_fault(at, shape.inputs.list(), &shape.output) {
        return Err(fault);
    }
    let arcs = arcs_of(alloc, at, shape.inputs.list(), &shape.arcs)?;
    Ok(Cell {
        name: Text::of(alloc, name.as_bytes())?,
        inputs: shape.inputs,
        output: shape.output,
        arcs,
    })
}

/// The cell of this number and name.
#[tactic(auto, unfolding(crate::specs::Library::cell_of))]
fn cell_of(alloc: Global, at: usize, name: &str, value: &Value) -> Result<Cell, LibraryFault>
    ensures { Answers result (spec.cell_of at name.now (view value.now)) }
{
    if !is_name(name.as_bytes()) {
        return Err(LibraryFault::BadName(at, 0));
    }
    match cell_shape(alloc, value)? {
        Some(shape) => cell_from(alloc, at, name, shape),
        None => Err(LibraryFault::BadShape(at)),
    }
}

/// The cells of a table, in the order of their names.
#[tactic(auto, unfolding(crate::specs::Library::cells_from))]
pub(crate) fn cells_of(alloc: Global, table: &Table) -> Result<Vec<Cell>, LibraryFault>
    ensures library { IfOk result (λ v. AreCells (table_view table.now) v.items) }
    ensures answer { AnswersBy (λ v. v.items) result (spec.cells_from 1 (table_view table.now)) }
{
    let mut cells = Vec::with_capacity(alloc, table.len())?;
    for (name, value) in table {
        let cell = cell_of(alloc, cells.len() + 1, name.as_str(), value)?;
        cells.push(cell)?;
    }
    Ok(cells)
}

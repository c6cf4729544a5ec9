// Libraries: reading one and looking its cells up.
ghost use Rattle.std.specs.Prelude.{◌≡◌, ◌≢◌, ◌<◌, ◌≤◌, Ok, Err, IfOk, IfErr, length, slice_get, option_map, Some, IfSome, IfNone, IsSomeAnd, All, position};
ghost use Rattle.toml.specs.Data.{get_member};
ghost use Rattle.toml.specs.View.{view, table_view};
ghost use Rattle.cell_arcs.specs.IsLibrary.{IsLibrary, IsCell, HasAscendingKeys, CountsCellsByName};
ghost use Rattle.std.specs.Str.{bytes_eq};
ghost use Rattle.cell_arcs.specs.Library as spec;
ghost use Rattle.cell_arcs.specs.Steps.{AnswersBy, or_fault};
ghost use Rattle.cell_arcs.specs.declared.faults.LibraryFault.TheVariants.{BadToml};

use crate::cells::Cell;
use crate::faults::LibraryFault;
use crate::names_index::{index_of, names_of};
use crate::reading::cells_of;
use cyc_text::Limit;
use indexmap::IndexSet;
use std::alloc::Global;
use std::marker::Model;
use toml::{Table, Value};

/// The most cells of a library.
const MOST_CELLS: usize = 1024;

/// The cells of a library, in byte order of their names.
#[derive(Drop)]
pub struct Library {
    cells: Vec<Cell>,
    names: IndexSet<Vec<u8>>,
}

impl Model for Library {
    ghost use Rattle.std.specs.Prelude.{List};
    ghost use Rattle.cell_arcs.specs.declared.cells.Cell.{Cell};

    ghost Value = { List Cell };

    ghost use Rattle.cell_arcs.specs.IsLibrary.{IsLibrary};

    ghost view = { λ l. l.cells.items };

    ghost use Rattle.std.specs.Prelude.{◌≡◌, map};

    ghost invariant = { λ l. IsLibrary l.cells.items
        × (map (λ v. v.items) l.names.keys ≡ map (λ c. c.name) l.cells.items) };
}

impl Library {
    /// Reads a library from the text of a TOML document, in time linear in the text.
    ///
    /// # Errors
    ///
    /// The first fault of the text, or `Memory`.
    #[tactic(auto, unfolding(crate::specs::Library::library_of))]
    pub fn read(alloc: Global, bytes: &[u8]) -> Result<Library, LibraryFault>
        ensures ok { IfOk result (λ l. spec.library_of bytes.now ≡ Ok l) }
        ensures refused { IfErr result (λ e. e ≢ LibraryFault.Memory → spec.library_of bytes.now ≡ Err e) }
        ensures by_name { result ≢ Err LibraryFault.Memory → CountsCellsByName bytes.now }
    {
        let top = document_of(alloc, bytes)?;
        let cells = cells_at(alloc, member(&top, "cell"))?;
        let names = names_of(alloc, &cells)?;
        Ok(Library { cells, names })
    }

    /// How many cells there are: at most 1,024.
    pub fn count(&self) -> usize
        ensures count { result ≡ length self.now }
        ensures few { result ≤ 1024 }
        ensures sound { IsLibrary self.now }
    {
        self.cells.len()
    }

    /// Makes known what holds of every library. It does nothing.
    pub fn sound(&self)
        ensures { IsLibrary self.now }
    {
        let _ = &self.cells;
    }

    /// The place of the cell of a name, counted from 0; none exactly where no cell has the name.
    pub fn find(&self, name: &[u8]) -> Option<usize>
        ensures place { result ≡ position (λ c. bytes_eq name.now c.name) self.now }
        ensures found { IfSome result (λ at. IsSomeAnd (slice_get self.now at) (λ c. c.name ≡ name.now)) }
        ensures none { IfNone result (All (λ c. c.name ≢ name.now) self.now) }
    {
        index_of(&self.names, name)
    }

    /// The cell at a place, counted from 0.
    pub fn cell(&self, at: usize) -> &Cell
        requires { at < length self.now }
        ensures item { slice_get self.now at ≡ Some result.now }
        ensures sound { IsCell result.now }
    {
        &self.cells[at]
    }
}

/// The value at a key of a table.
#[tactic(auto, using(toml::proofs::Views::table_get))]
fn member<'a>(table: &'a Table, key: &str) -> Option<&'a Value>
    ensures { option_map (λ v. view v.now) result ≡ get_member key.now (table_view table.now) }
{
    table.get(key)
}

/// The cells in what the key `cell` holds.
#[tactic(auto, unfolding(crate::specs::Library::cells_at))]
fn cells_at(alloc: Global, found: Option<&Value>) -> Result<Vec<Cell>, LibraryFault>
    ensures library { IfOk result (λ v. IsLibrary v.items) }
    ensures by_name { HasAscendingKeys (option_map (λ v. view v.now) found.entry) }
    ensures answer { AnswersBy (λ v. v.items) result (spec.cells_at (option_map (λ v. view v.now) found.entry)) }
{
    let Some(found) = found else {
        return Ok(Vec::new(alloc));
    };
    let Some(table) = found.as_table() else {
        return Err(LibraryFault::BadShape(0));
    };
    if table.len() > MOST_CELLS {
        return Err(LibraryFault::TooMany(Limit::Cells, 0));
    }
    cells_of(alloc, table)
}

/// The table that the bytes write.
fn document_of(alloc: Global, bytes: &[u8]) -> Result<Table, LibraryFault>
    ensures { AnswersBy table_view result (or_fault BadToml (spec.document_of bytes.now)) }
{
    match toml::table_from_slice(alloc, bytes) {
        Ok(top) => Ok(top),
        Err(e) => {
            if e.is_memory() {
                Err(LibraryFault::Memory)
            } else {
                Err(LibraryFault::BadToml)
            }
        }
    }
}

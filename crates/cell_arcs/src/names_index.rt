// The names of the cells as an index.
ghost use Rattle.std.specs.Prelude.{◌≡◌, IfOk, map, position};
ghost use Rattle.std.specs.Str.{bytes_eq};
ghost use Rattle.cell_arcs.specs.IsLibrary.{AscendByName};

use crate::cells::Cell;
use indexmap::IndexSet;
use std::alloc::{AllocError, Global};

/// The names of the cells, in order.
pub(crate) fn names_of(alloc: Global, cells: &[Cell]) -> Result<IndexSet<Vec<u8>>, AllocError>
    requires { AscendByName cells.now }
    ensures { IfOk result (λ s. map (λ v. v.items) s.keys ≡ map (λ c. c.name) cells.now) }
{
    let mut names = IndexSet::with_capacity(alloc, cells.len())?;
    for cell in cells {
        let _ = names.insert(Vec::from_slice(alloc, cell.name.bytes())?)?;
    }
    Ok(names)
}

/// The place of a name.
pub(crate) fn index_of(names: &IndexSet<Vec<u8>>, name: &[u8]) -> Option<usize>
    ensures { result ≡ position (bytes_eq name.now) (map (λ v. v.items) names.now.keys) }
{
    names.get_index_of(name)
}

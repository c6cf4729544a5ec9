//! What is read where the analyses of all netlists are known, and where that of one row is.
//! A law is the contract of a function that does nothing: a call makes it known where it stands.
ghost use Rattle.std.specs.Prelude.{◌≡◌, Ok};
ghost use Rattle.query_replies.specs.Readings.{Analyses};

use netlist_analysis::laws::{finding_is_unique, tellings_exist};
use pinned_reader::Row;

/// What is told of a row's netlist is the row's analysis, and there are analyses of all netlists over its library.
pub fn rows_are_told(row: &Row)
    ensures told { (all : Analyses) → all.library ≡ row.now.library → all.tell row.now.netlist ≡ Ok row.now.analysis }
    ensures some { (all : Analyses) × (row.now.library ≡ all.library) }
{
    finding_is_unique();
    tellings_exist();
    row.right();
    row.netlist.sound();
    row.library.sound();
}

//! What the definitions of reading and writing mean, in words of their own.
//! A law is the contract of a function that does nothing: a call makes it known where it stands.
ghost use Rattle.std.specs.Prelude.{◌≡◌, ◌≢◌, ℕ, List, map, Some, Ok, Err};
ghost use Rattle.std.specs.Str.Lines.{lines};
ghost use Rattle.cell_arcs.specs.IsLibrary.{IsLibrary};
ghost use Rattle.cell_arcs.specs.declared.cells.Cell.{Cell};
ghost use Rattle.netlist_model.specs.Circuit.{Circuit};
ghost use Rattle.netlist_model.specs.Sound.{Fits, IsNetlist};
ghost use Rattle.netlist_model.specs.declared.faults.StatementFault.TheVariants as statement;
ghost use Rattle.netlist_model.specs.declared.edits.Edit.{Edit};
ghost use Rattle.netlist_model.specs.Deletions.{del_net};
ghost use Rattle.netlist_reader.specs.Canonical.{canonical_lines, canonical_text};
ghost use Rattle.netlist_reader.specs.DeletedLines.{IsWithoutLine};
ghost use Rattle.netlist_reader.specs.EditFiles.{Edited, IsFirstOther, edits_of, worded};
ghost use Rattle.netlist_reader.specs.EditLines.{edit_of};
ghost use Rattle.netlist_reader.specs.NetlistFiles.{netlist_of};
ghost use Rattle.netlist_reader.specs.ReadBack.{NetlistsReadBack};
ghost use Rattle.netlist_reader.specs.RefusedLines.{FirstLineRefuses};
ghost use Rattle.netlist_reader.specs.declared.faults.EditsFault.TheVariants as edits;
ghost use Rattle.netlist_reader.specs.declared.faults.NetFault.TheVariants.{Memory, Statement};

use cyc_text::{lines_are_read_back, words_are_read_back};
use netlist_model::laws::edits_keep_netlists;

/// A refused file has a line that is refused after the netlist of the lines before it, and the number told is that line's.
pub fn first_line_refuses()
    ensures { FirstLineRefuses }
{}

/// The canonical text of a netlist that fits a library is read back as that netlist.
pub fn written_netlists_are_read_back()
    ensures { NetlistsReadBack }
{
    words_are_read_back();
    lines_are_read_back();
}

/// Whatever file is accepted gives a netlist, which fits the library, and no refusal is, or tells, a want of memory.
pub fn netlists_are_sound()
    ensures accepted { (library : List Cell) (bytes : List ℕ) (c : Circuit) → netlist_of library bytes ≡ Ok c → IsNetlist c }
    ensures fits { (library : List Cell) (bytes : List ℕ) (c : Circuit) → netlist_of library bytes ≡ Ok c → Fits library c.insts }
    ensures refused { (library : List Cell) (bytes : List ℕ) → netlist_of library bytes ≢ Err Memory }
    ensures statements { (library : List Cell) (bytes : List ℕ) (line : ℕ) →
        netlist_of library bytes ≢ Err (Statement line statement.Memory) }
{
    edits_keep_netlists();
}

/// The edits of a file are what its lines with words say, in order. A refused file has a line with a word that is no edit line,
/// those before it are edit lines or have no word, and the number told is that line's. No file is refused for want of memory.
pub fn edit_files_are_told()
    ensures said { (bytes : List ℕ) (said : List Edit) →
        edits_of bytes ≡ Ok said → map edit_of (worded (lines bytes)) ≡ map (λ e. Some e) said }
    ensures first { (bytes : List ℕ) (n : ℕ) → edits_of bytes ≡ Err (edits.Syntax n) → IsFirstOther (lines bytes) n }
    ensures refused { (bytes : List ℕ) → edits_of bytes ≢ Err edits.Memory }
{}

/// A netlist file that is accepted, read as edits over the netlist with nothing in it, gives the same netlist; and so does the
/// canonical text of a netlist that fits a library. Its root line then replaces no root.
pub fn accepted_files_are_edits()
    ensures file { (library : List Cell) (bytes : List ℕ) (c : Circuit) →
        netlist_of library bytes ≡ Ok c → Edited library bytes c }
    ensures written { (library : List Cell) (c : Circuit) →
        IsLibrary library → IsNetlist c → Fits library c.insts → Edited library (canonical_text library c) c }
{
    written_netlists_are_read_back();
}

/// The canonical text of a netlist after a net or a constant was deleted has all lines of the one before but that net's or
/// constant's own: whatever named one of those behind it names it still.
pub fn deleted_nets_lose_their_line()
    ensures { (library : List Cell) (c d : Circuit) (name : List ℕ) → del_net c name ≡ Ok d →
        IsWithoutLine name (canonical_lines library c) (canonical_lines library d) }
{}

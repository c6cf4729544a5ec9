//! Why there is no text, as it is told.
ghost use Rattle.std.specs.Prelude.{◌≡◌};
ghost use Rattle.report_writer.specs.Sources.{source_of};

use cell_arcs::LibraryFault;
use cyc_text::{Limit, Text};
use netlist_model::StatementFault;
use std::marker::Model;

/// Why there is no text, as its line tells it. Lines, cells, pins, arcs, ticks, edits and scripts are counted from 1.
#[derive(Debug, Drop)]
pub enum FaultLine {
    /// The words are none that the program takes.
    Usage,
    /// The library is refused.
    Library(LibraryFault),
    /// This line of the netlist's file has no form of a line.
    NetSyntax(u64),
    /// The statement of this line of the netlist's file is refused.
    NetStatement(u64, StatementFault),
    /// H1: no instance drives the net of this name, the first such.
    Undriven(Text),
    /// H2: the netlist has no root.
    NoRoot,
    /// H3: there is no rule between the events of this tick, the first such.
    IdleTick(u64),
    /// H4: the netlist has this many rules, more than there may be.
    TooManyRules(u64),
    /// V1: no walk leads from the root to the event of this name, the least such.
    Unreached(Text),
    /// V2: no walk leads to the root from the event of this name, the least such.
    NoReturn(Text),
    /// V3: a cycle has the offset 0; the source events of its rules in order.
    Dead(Names),
    /// This line of the edits' file has no form of an edit line.
    EditsSyntax(u64),
    /// The edit at this position is refused.
    EditsStatement(u64, StatementFault),
    /// Of this script this line has no form of a call.
    ScriptSyntax(u64, u64),
    /// This script has more calls, or more reports, than the scripts before it left.
    ScriptTooMany(u64, Limit),
    /// The file of this word could not be read.
    ReadFault(Text),
    /// The file of this word is too long.
    TooLong(Text),
}

/// What a line tells of.
#[derive(Clone, Copy, Debug, PartialEq, Eq)]
pub enum Source {
    /// The words of the command line.
    Words,
    /// A library.
    Library,
    /// A netlist.
    Netlist,
    /// Edits.
    Edits,
    /// A script.
    Script,
    /// The reading of a file.
    Reading,
}

impl FaultLine {
    /// What the line tells of.
    pub fn source(&self) -> Source
        ensures { result ≡ source_of self.now }
    {
        match self {
            FaultLine::Usage => Source::Words,
            FaultLine::Library(_) => Source::Library,
            FaultLine::EditsSyntax(_) | FaultLine::EditsStatement(..) => Source::Edits,
            FaultLine::ScriptSyntax(..) | FaultLine::ScriptTooMany(..) => Source::Script,
            FaultLine::ReadFault(_) | FaultLine::TooLong(_) => Source::Reading,
            _ => Source::Netlist,
        }
    }
}

/// A list of names.
#[derive(Debug, Drop)]
pub struct Names {
    items: Vec<Text>,
}

impl Model for Names {
    ghost use Rattle.std.specs.Prelude.{List, ℕ};

    ghost Value = { List (List ℕ) };

    ghost view = { λ n. n.items.items };
}

impl Names {
    ghost use Rattle.std.specs.Prelude.{◌≡◌};

    /// The list of these names. It takes no memory.
    pub fn of(items: Vec<Text>) -> Names
        ensures { result ≡ items.items }
    {
        Names { items }
    }

    /// The names.
    pub fn list(&self) -> &[Text]
        ensures { result.now ≡ self.now }
    {
        self.items.as_slice()
    }
}

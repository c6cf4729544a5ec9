// What a file can have too many of.

/// What a file can have too many of.
#[derive(Clone, Copy, Debug, PartialEq, Eq)]
pub enum Limit {
    /// Cells of a library.
    Cells,
    /// Inputs of one cell.
    Inputs,
    /// Nets with events.
    Nets,
    /// Constant nets.
    Consts,
    /// Forks of a netlist.
    Forks,
    /// Different roots of a netlist's forks.
    Roots,
    /// Calls of all scripts together, one a line.
    Lines,
    /// `report` calls of all scripts together.
    Reports,
}

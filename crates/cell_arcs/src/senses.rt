// Which edges an arc of a sense joins.
ghost use Rattle.std.specs.Prelude.{◌≡◌, ◌≤◌, length};
ghost use Rattle.cell_arcs.specs.Senses as spec;

use crate::cells::Sense;

/// An edge of an input and an edge of the output that it causes: true where the net rises.
#[derive(Clone, Copy)]
pub struct EdgePair {
    pub input: bool,
    pub output: bool,
}

/// To the rising output, and then to the falling one.
const SAME_EDGES: [EdgePair; 2] = [
    EdgePair {
        input: true,
        output: true,
    },
    EdgePair {
        input: false,
        output: false,
    },
];

const OTHER_EDGES: [EdgePair; 2] = [
    EdgePair {
        input: false,
        output: true,
    },
    EdgePair {
        input: true,
        output: false,
    },
];

const ALL_EDGES: [EdgePair; 4] = [
    EdgePair {
        input: true,
        output: true,
    },
    EdgePair {
        input: false,
        output: true,
    },
    EdgePair {
        input: true,
        output: false,
    },
    EdgePair {
        input: false,
        output: false,
    },
];

impl Sense {
    /// The pairs of edges that an arc of the sense joins, one for each of its rules, in the order of the rules.
    pub fn edges(self) -> &'static [EdgePair]
        ensures pairs { result.now ≡ spec.edges_of self }
        ensures few { length result.now ≤ 4 }
    {
        match self {
            Sense::Pos => &SAME_EDGES,
            Sense::Neg => &OTHER_EDGES,
            Sense::Non => &ALL_EDGES,
        }
    }
}

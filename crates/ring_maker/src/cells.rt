//! The library of the Muller ring.
ghost use Rattle.std.specs.Prelude.{◌≡◌};
ghost use Rattle.ring_maker.specs.Ring.{ring_library};

/// A C-element of two inputs and an inverter, with their delays in picoseconds.
const RING_LIBRARY: &[u8] = b"\
[cell.C2]
inputs = [\"A\", \"B\"]
output = \"Z\"
arcs = [{ from = \"A\", sense = \"pos\", rise = 20, fall = 18 }, { from = \"B\", sense = \"pos\", rise = 20, fall = 18 }]

[cell.INV]
inputs = [\"A\"]
output = \"Z\"
arcs = [{ from = \"A\", sense = \"neg\", rise = 12, fall = 10 }]
";

/// The cells of the Muller ring.
#[derive(Clone, Copy, Debug, PartialEq, Eq)]
pub struct RingCells;

impl RingCells {
    /// The text of their library, in TOML. Takes no memory.
    #[tactic(auto, unfolding(crate::specs::Ring::ring_library))]
    pub fn ring_cells(&self) -> &[u8]
        ensures { result.now ≡ ring_library }
    {
        RING_LIBRARY
    }
}

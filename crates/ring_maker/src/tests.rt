//! The ring of three stages, the sizes of larger ones, and the library.
use crate::{RingCells, muller_ring};
use std::test::Fail;

const THREE_STAGES: &str = "\
net z0
net n0
net z1
net n1
net z2
net n2
inst c0 C2 A=z2 B=n1 Z=z0
inst v0 INV A=z0 Z=n0
inst c1 C2 A=z0 B=n2 Z=z1
inst v1 INV A=z1 Z=n1
inst c2 C2 A=z1 B=n0 Z=z2
inst v2 INV A=z2 Z=n2
tick z0+ z1+ 1
tick z2- z0- 1
tick n2+ z1+ 1
root z0+
";

/// Stages, and how many bytes and lines the text of the ring has.
const SIZES: [(u32, usize, usize); 5] = [
    (3, 240, 16),
    (4, 317, 21),
    (11, 867, 56),
    (1000, 97_799, 5_001),
    (4096, 438_359, 20_481),
];

const LIBRARY: &str = "\
[cell.C2]
inputs = [\"A\", \"B\"]
output = \"Z\"
arcs = [{ from = \"A\", sense = \"pos\", rise = 20, fall = 18 }, { from = \"B\", sense = \"pos\", rise = 20, fall = 18 }]

[cell.INV]
inputs = [\"A\"]
output = \"Z\"
arcs = [{ from = \"A\", sense = \"neg\", rise = 12, fall = 10 }]
";

#[test]
fn writes_the_ring_of_three_stages(rt: HostRuntime) -> Result<(), Fail> {
    let ring = muller_ring(rt.alloc(), 3)?;
    assert_eq!(rt; ring.bytes(), THREE_STAGES.as_bytes());
    Ok(())
}

#[test]
fn writes_rings_up_to_the_largest(rt: HostRuntime) -> Result<(), Fail> {
    for (stages, bytes, lines) in SIZES {
        let ring = muller_ring(rt.alloc(), stages)?;
        let ends = ring.bytes().iter().filter(|byte| **byte == b'\n').count();
        assert_eq!(rt;
            (ring.bytes().len(), ends),
            (bytes, lines),
            "{stages} stages"
        );
    }
    let ring = muller_ring(rt.alloc(), 4096)?;
    assert!(rt;
        ring.bytes()
            .ends_with(b"\ntick n4095+ z4094+ 1\nroot z0+\n".as_slice())
    );
    Ok(())
}

#[test]
fn lends_the_library(rt: HostRuntime) {
    assert_eq!(rt; RingCells.ring_cells(), LIBRARY.as_bytes());
}

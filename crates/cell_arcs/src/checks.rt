// The checks of a cell's pins and arcs.
ghost use Rattle.std.specs.Prelude.{◌≡◌, ◌++◌, ◌∷◌, [], position};
ghost use Rattle.std.specs.List.{list_any};
ghost use Rattle.std.specs.Str.{bytes_eq};
ghost use Rattle.cell_arcs.specs.Library as spec;
ghost use Rattle.cell_arcs.specs.Steps.{Answers};

use crate::cells::{Arcs, CellArc, Sense};
use crate::faults::LibraryFault;
use crate::shapes::ArcShape;
use cyc_text::{Text, is_name};
use std::alloc::Global;

/// The greatest delay, in picoseconds.
const MOST_DELAY: u32 = 1_000_000;

/// The first fault of a cell's pins.
#[tactic(auto, unfolding(crate::specs::Library::pin_fault))]
pub(crate) fn pin_fault(cell: usize, inputs: &[Text], output: &Text) -> Option<LibraryFault>
    ensures { result ≡ spec.pin_fault cell (inputs.now ++ output.now ∷ []) }
{
    if let Some(pin) = bad_name(inputs, output) {
        return Some(LibraryFault::BadName(cell, pin));
    }
    match repeated_pin(inputs, output) {
        Some(pin) => Some(LibraryFault::RepeatedPin(cell, pin)),
        None => None,
    }
}

fn bad_name(inputs: &[Text], output: &Text) -> Option<usize>
    ensures { result ≡ spec.bad_name (inputs.now ++ output.now ∷ []) }
{
    for (i, pin) in inputs.iter().enumerate() {
        if !is_name(pin.bytes()) {
            return Some(i + 1);
        }
    }
    if is_name(output.bytes()) {
        None
    } else {
        Some(inputs.len() + 1)
    }
}

#[tactic(auto, unfolding(crate::specs::Library::repeat_after))]
fn repeated_pin(inputs: &[Text], output: &Text) -> Option<usize>
    ensures { result ≡ spec.repeated_pin (inputs.now ++ output.now ∷ []) }
{
    for (i, pin) in inputs.iter().enumerate() {
        if is_among(pin.bytes(), &inputs[..i]) {
            return Some(i + 1);
        }
    }
    if is_among(output.bytes(), inputs) {
        Some(inputs.len() + 1)
    } else {
        None
    }
}

fn is_among(name: &[u8], texts: &[Text]) -> bool
    ensures { result ≡ list_any (bytes_eq name.now) texts.now }
{
    texts.iter().any(|t| t.bytes() == name)
}

fn place_of(name: &[u8], texts: &[Text]) -> Option<usize>
    ensures { result ≡ position (bytes_eq name.now) texts.now }
{
    texts.iter().position(|t| t.bytes() == name)
}

fn has_source(arcs: &[ArcShape], name: &[u8]) -> bool
    ensures { result ≡ list_any (λ b. bytes_eq name.now b.from) arcs.now }
{
    arcs.iter().any(|arc| arc.from.bytes() == name)
}

#[tactic(auto, unfolding(crate::specs::Library::sense_of))]
fn sense_of(word: &[u8]) -> Option<Sense>
    ensures { result ≡ spec.sense_of word.now }
{
    if word == b"pos".as_slice() {
        Some(Sense::Pos)
    } else if word == b"neg".as_slice() {
        Some(Sense::Neg)
    } else if word == b"non".as_slice() {
        Some(Sense::Non)
    } else {
        None
    }
}

#[tactic(auto, unfolding(crate::specs::Library::delay_of))]
fn delay_of(picoseconds: i64) -> Option<u32>
    ensures { result ≡ spec.delay_of picoseconds }
{
    match u32::try_from(picoseconds) {
        Ok(delay) if delay <= MOST_DELAY => Some(delay),
        _ => None,
    }
}

/// An arc, behind the earlier ones of its cell.
#[tactic(auto, unfolding(crate::specs::Library::arc_of))]
fn arc_of(
    cell: usize,
    inputs: &[Text],
    earlier: &[ArcShape],
    shape: &ArcShape,
) -> Result<CellArc, LibraryFault>
    ensures { result ≡ spec.arc_of cell inputs.now earlier.now shape.now }
{
    let arc = earlier.len() + 1;
    let Some(from) = place_of(shape.from.bytes(), inputs) else {
        return Err(LibraryFault::UnknownPin(cell, arc));
    };
    if has_source(earlier, shape.from.bytes()) {
        return Err(LibraryFault::RepeatedArc(cell, arc));
    }
    let Some(sense) = sense_of(shape.sense.bytes()) else {
        return Err(LibraryFault::BadSense(cell, arc));
    };
    let Some(rise) = delay_of(shape.rise) else {
        return Err(LibraryFault::BadDelay(cell, arc));
    };
    let Some(fall) = delay_of(shape.fall) else {
        return Err(LibraryFault::BadDelay(cell, arc));
    };
    Ok(CellArc {
        from,
        sense,
        rise,
        fall,
    })
}

/// The arcs of a cell, or the first fault of one.
///
/// Each look-up goes over at most as many pins and arcs as the cell has inputs.
#[tactic(auto, unfolding(crate::specs::Library::arcs_after))]
pub(crate) fn arcs_of(
    alloc: Global,
    cell: usize,
    inputs: &[Text],
    shapes: &[ArcShape],
) -> Result<Arcs, LibraryFault>
    ensures { Answers result (spec.arcs_of cell inputs.now shapes.now) }
{
    let mut arcs = Vec::new(alloc);
    for (i, shape) in shapes.iter().enumerate() {
        arcs.push(arc_of(cell, inputs, &shapes[..i], shape)?)?;
    }
    Ok(Arcs::of(arcs))
}

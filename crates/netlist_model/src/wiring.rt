// What a name stands for, and the pins of a new instance.
ghost use Rattle.std.specs.Prelude.{◌≡◌, ◌≢◌, ◌++◌, ◌∷◌, ◌<◌, [], All, Err, IfErr, IfOk, IfSome, None, Ok, Some, length, map, option_map, position, ◌==◌};
ghost use Rattle.std.specs.List.{list_any};
ghost use Rattle.std.specs.Str.{bytes_eq};
ghost use Rattle.netlist_model.specs.Circuit as circuit;
ghost use Rattle.netlist_model.specs.Sound.{IsPin};
ghost use Rattle.netlist_model.specs.Statements as spec;
ghost use Rattle.netlist_model.specs.Wired as wired_pins;
ghost use Rattle.netlist_model.specs.Wired.{all_wired, wired};

use crate::faults::StatementFault;
use crate::names::Names;
use crate::parts::{Delay, NetRef};
use crate::words::PinWord;
use cell_arcs::{Cell, CellArc};
use cyc_text::Text;
use std::alloc::{AllocError, Global};

/// The net with events or the constant of a name.
pub(crate) fn ref_of(nets: &Names, consts: &Names, name: &[u8]) -> Option<NetRef>
    ensures found { result ≡ circuit.ref_of nets.now consts.now name.now }
    ensures within { IfSome result (IsPin (length nets.now) (length consts.now)) }
{
    if let Some(at) = nets.find(name) {
        return Some(NetRef::Net(at));
    }
    match consts.find(name) {
        Some(at) => Some(NetRef::Const(at)),
        None => None,
    }
}

/// The place of the first word that gives a pin.
fn word_at(words: &[PinWord<'_>], pin: &[u8]) -> Option<usize>
    ensures { result ≡ position (λ w. bytes_eq pin.now w.pin) words.now }
{
    words.iter().position(|word| word.pin() == pin)
}

/// What a pin is on, by the word that gives it and what the words' nets are.
#[tactic(auto, unfolding(crate::specs::Wired::wired))]
fn wire_of(words: &[PinWord<'_>], refs: &[NetRef], pin: &[u8]) -> Option<NetRef>
    ensures { result ≡ wired words.now refs.now pin.now }
{
    match word_at(words, pin) {
        Some(at) => refs.get(at).copied(),
        None => None,
    }
}

/// What the pins are on, if each is given, with room for one pin more.
#[tactic(auto, unfolding(crate::specs::Wired::all_wired))]
fn wires_of(
    alloc: Global,
    words: &[PinWord<'_>],
    refs: &[NetRef],
    pins: &[Text],
) -> Result<Option<Vec<NetRef>>, AllocError>
    ensures { IfOk result (λ o. option_map (λ v. v.items) o ≡ all_wired words.now refs.now [] pins.now) }
{
    let mut wires = Vec::with_capacity(alloc, pins.len().saturating_add(1))?;
    for pin in pins {
        match wire_of(words, refs, pin.bytes()) {
            Some(found) => wires.push(found)?,
            None => return Ok(None),
        }
    }
    Ok(Some(wires))
}

/// Whether a name is among the pins of a cell.
#[tactic(auto, using(crate::proofs::Places::any_push))]
fn is_pin(cell: &Cell, name: &[u8]) -> bool
    ensures { result ≡ list_any (bytes_eq name.now) (cell.now.inputs ++ cell.now.output ∷ []) }
{
    is_among(name, cell.inputs.list()) || name == cell.output.bytes()
}

fn is_among(name: &[u8], texts: &[Text]) -> bool
    ensures { result ≡ list_any (bytes_eq name.now) texts.now }
{
    texts.iter().any(|text| text.bytes() == name)
}

/// Whether a word gives the pin.
fn is_given(pin: &[u8], words: &[PinWord<'_>]) -> bool
    ensures { result ≡ list_any (λ w. bytes_eq pin.now w.pin) words.now }
{
    words.iter().any(|word| word.pin() == pin)
}

/// What the net of a pin word after those before is, or the word's fault.
#[tactic(auto, unfolding(crate::specs::Statements::word_fault))]
fn word_ref(
    nets: &Names,
    consts: &Names,
    cell: &Cell,
    before: &[PinWord<'_>],
    word: &PinWord<'_>,
) -> Result<NetRef, StatementFault>
    ensures ok { IfOk result (λ _. spec.word_fault nets.now consts.now (cell.now.inputs ++ cell.now.output ∷ []) before.now word.now ≡ None) }
    ensures refused { IfErr result (λ e. spec.word_fault nets.now consts.now (cell.now.inputs ++ cell.now.output ∷ []) before.now word.now ≡ Some e) }
    ensures found { IfOk result (λ r. circuit.ref_of nets.now consts.now word.now.net ≡ Some r) }
    ensures within { IfOk result (IsPin (length nets.now) (length consts.now)) }
{
    if !is_pin(cell, word.pin()) {
        return Err(StatementFault::UnknownPin);
    }
    if is_given(word.pin(), before) {
        return Err(StatementFault::BadPins);
    }
    match ref_of(nets, consts, word.net()) {
        Some(found) => Ok(found),
        None => Err(StatementFault::UnknownNet),
    }
}

/// What the nets of the pin words are, or the first fault of the words. The words before a fault give different pins of the
/// cell, so they are few.
#[tactic(auto, unfolding(crate::specs::Statements::pin_fault))]
fn refs_of(
    alloc: Global,
    nets: &Names,
    consts: &Names,
    cell: &Cell,
    words: &[PinWord<'_>],
) -> Result<Vec<NetRef>, StatementFault>
    ensures ok { IfOk result (λ _. spec.pin_fault nets.now consts.now (cell.now.inputs ++ cell.now.output ∷ []) [] words.now ≡ None) }
    ensures refused { IfErr result (λ e. e ≢ StatementFault.Memory → spec.pin_fault nets.now consts.now (cell.now.inputs ++ cell.now.output ∷ []) [] words.now ≡ Some e) }
    ensures found { IfOk result (λ v. map (λ w. circuit.ref_of nets.now consts.now w.net) words.now ≡ map Some v.items) }
    ensures within { IfOk result (λ v. All (IsPin (length nets.now) (length consts.now)) v.items) }
{
    let mut refs = Vec::with_capacity(alloc, words.len())?;
    for (i, word) in words.iter().enumerate() {
        let found = word_ref(nets, consts, cell, &words[..i], word)?;
        refs.push(found)?;
    }
    Ok(refs)
}

/// What the inputs of a cell are on by the pin words, in order, and what its output is on; or why not.
#[tactic(auto, unfolding(crate::specs::Wired::pins_of))]
pub(crate) fn pins_of(
    alloc: Global,
    nets: &Names,
    consts: &Names,
    cell: &Cell,
    words: &[PinWord<'_>],
) -> Result<(Vec<NetRef>, NetRef), StatementFault>
    ensures ok { IfOk result (λ p. wired_pins.pins_of nets.now consts.now cell.now words.now ≡ Ok (p.0.items, p.1)) }
    ensures refused { IfErr result (λ e. e ≢ StatementFault.Memory → wired_pins.pins_of nets.now consts.now cell.now words.now ≡ Err e) }
    ensures within { IfOk result (λ p. All (IsPin (length nets.now) (length consts.now)) p.0.items) }
    ensures output { IfOk result (λ p. IsPin (length nets.now) (length consts.now) p.1) }
    ensures each { IfOk result (λ p. length p.0.items ≡ length cell.now.inputs) }
{
    let wires = refs_of(alloc, nets, consts, cell, words)?;
    let Some(inputs) = wires_of(alloc, words, &wires, cell.inputs.list())? else {
        return Err(StatementFault::BadPins);
    };
    let Some(output) = wire_of(words, &wires, cell.output.bytes()) else {
        return Err(StatementFault::BadPins);
    };
    Ok((inputs, output))
}

/// No delays of its own for each of the arcs.
pub(crate) fn no_delays(alloc: Global, arcs: &[CellArc]) -> Result<Vec<Option<Delay>>, AllocError>
    ensures { IfOk result (λ v. v.items ≡ map (λ _. None) arcs.now) }
{
    arcs.iter().map(|_| None).collect(alloc)
}

/// The place of a pin among the inputs and then the output of a cell.
#[tactic(auto, using(crate::proofs::Places::position_push))]
pub(crate) fn pin_at(cell: &Cell, pin: &[u8]) -> Option<usize>
    ensures { result ≡ circuit.place_of pin.now (cell.now.inputs ++ cell.now.output ∷ []) }
{
    let inputs = cell.inputs.list();
    match input_at(inputs, pin) {
        Some(at) => Some(at),
        None => {
            if pin == cell.output.bytes() {
                Some(inputs.len())
            } else {
                None
            }
        }
    }
}

fn input_at(inputs: &[Text], pin: &[u8]) -> Option<usize>
    ensures { result ≡ circuit.place_of pin.now inputs.now }
{
    inputs.iter().position(|input| input.bytes() == pin)
}

fn arc_from(arcs: &[CellArc], from: usize) -> Option<usize>
    ensures { result ≡ position (λ a. a.from == from) arcs.now }
{
    arcs.iter().position(|arc| arc.from == from)
}

/// The place of the arc from a pin of the cell.
#[tactic(auto, unfolding(crate::specs::Statements::arc_of), using(crate::proofs::Places::position_within))]
pub(crate) fn arc_of(cell: &Cell, pin: &[u8]) -> Result<usize, StatementFault>
    ensures arc { result ≡ spec.arc_of cell.now pin.now }
    ensures within { IfOk result (λ at. at < length cell.now.arcs) }
{
    let Some(from) = pin_at(cell, pin) else {
        return Err(StatementFault::UnknownPin);
    };
    match arc_from(cell.arcs.list(), from) {
        Some(at) => Ok(at),
        None => Err(StatementFault::NoArc),
    }
}

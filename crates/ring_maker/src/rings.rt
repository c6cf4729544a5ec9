//! The netlist of the Muller ring.
ghost use Rattle.std.specs.Prelude.{◌≡◌, ◌≤◌, ◌<◌, ◌+◌, ◌-◌, ◌∷◌, ◌++◌, [], IfOk, OnOk, codes, decimal, map};
ghost use Rattle.std.specs.List.{flat_map, range_with_len};
ghost use Rattle.cyc_text.specs.Written.{ended, line_text, lines_text};
ghost use Rattle.ring_maker.specs.Ring as spec;

use cyc_text::{Text, push_decimal, push_word};
use std::alloc::{AllocError, Global};

/// The Muller ring of so many stages (Muller and Bartky 1959) as a netlist in canonical text: its nets, its instances, its ticks, its root.
///
/// `AllocError` only for want of memory. Linear in the text.
#[tactic(auto, unfolding(crate::specs::Ring::muller_ring))]
pub fn muller_ring(alloc: Global, stages: u32) -> Result<Text, AllocError>
    requires least { 3 ≤ stages }
    requires most { stages ≤ 4096 }
    ensures { IfOk result (λ t. t ≡ spec.muller_ring stages) }
{
    let written = ring_bytes(alloc, stages)?;
    Text::of(alloc, &written)
}

/// The bytes of the ring's text.
fn ring_bytes(alloc: Global, stages: u32) -> Result<Vec<u8>, AllocError>
    requires least { 3 ≤ stages }
    requires most { stages ≤ 4096 }
    ensures { IfOk result (λ v. v.items ≡ lines_text (spec.ring_lines stages)) }
{
    let mut text = Vec::new(alloc);
    push_nets(&mut text, stages)?;
    push_insts(&mut text, stages)?;
    push_output_ticks(&mut text, stages)?;
    push_complement_ticks(&mut text, stages)?;
    push_root(&mut text)?;
    Ok(text)
}

/// Adds a space, what an index stands behind, and the index.
fn push_indexed(text: &mut Vec<u8>, front: &[u8], index: u32) -> Result<(), AllocError>
    ensures { OnOk result (text.new.items ≡ text.old.items ++ 32 ∷ front.now ++ decimal index) }
{
    push_word(text, front)?;
    push_decimal(text, u64::from(index))
}

/// Adds the line of a net.
fn push_net(text: &mut Vec<u8>, letter: &[u8], stage: u32) -> Result<(), AllocError>
    ensures { OnOk result (text.new.items ≡ text.old.items ++ line_text (codes "net" ∷ (letter.now ++ decimal stage) ∷ [])) }
{
    text.extend_from_slice(b"net")?;
    push_indexed(text, letter, stage)?;
    text.extend_from_slice(b"\n")
}

/// Adds the lines of a stage's nets.
#[tactic(auto, using(crate::proofs::Stages::two_lines_written))]
fn push_stage_nets(text: &mut Vec<u8>, stage: u32) -> Result<(), AllocError>
    ensures { OnOk result (text.new.items ≡ text.old.items ++ lines_text (spec.net_lines stage)) }
{
    push_net(text, b"z", stage)?;
    push_net(text, b"n", stage)
}

/// Adds the lines of the nets.
fn push_nets(text: &mut Vec<u8>, stages: u32) -> Result<(), AllocError>
    ensures { OnOk result (text.new.items ≡ text.old.items ++ lines_text (flat_map spec.net_lines (range_with_len 0 stages))) }
{
    for stage in 0..stages {
        push_stage_nets(text, stage)?;
    }
    Ok(())
}

/// Adds the pins of a stage's C-element, and ends the line.
fn push_element_pins(text: &mut Vec<u8>, stages: u32, stage: u32) -> Result<(), AllocError>
    requires within { stage < stages }
    requires most { stages ≤ 4096 }
    ensures { OnOk result (text.new.items ≡ text.old.items ++ ended (spec.element_pins stages stage)) }
{
    push_indexed(text, b"A=z", (stage + stages - 1) % stages)?;
    push_indexed(text, b"B=n", (stage + 1) % stages)?;
    push_indexed(text, b"Z=z", stage)?;
    text.extend_from_slice(b"\n")
}

/// Adds the line of a stage's C-element.
fn push_element(text: &mut Vec<u8>, stages: u32, stage: u32) -> Result<(), AllocError>
    requires within { stage < stages }
    requires most { stages ≤ 4096 }
    ensures { OnOk result (text.new.items ≡ text.old.items ++ line_text (spec.element_line stages stage)) }
{
    text.extend_from_slice(b"inst")?;
    push_indexed(text, b"c", stage)?;
    push_word(text, b"C2")?;
    push_element_pins(text, stages, stage)
}

/// Adds the pins of a stage's inverter, and ends the line.
fn push_inverter_pins(text: &mut Vec<u8>, stage: u32) -> Result<(), AllocError>
    ensures { OnOk result (text.new.items ≡ text.old.items ++ ended (spec.inverter_pins stage)) }
{
    push_indexed(text, b"A=z", stage)?;
    push_indexed(text, b"Z=n", stage)?;
    text.extend_from_slice(b"\n")
}

/// Adds the line of a stage's inverter.
fn push_inverter(text: &mut Vec<u8>, stage: u32) -> Result<(), AllocError>
    ensures { OnOk result (text.new.items ≡ text.old.items ++ line_text (spec.inverter_line stage)) }
{
    text.extend_from_slice(b"inst")?;
    push_indexed(text, b"v", stage)?;
    push_word(text, b"INV")?;
    push_inverter_pins(text, stage)
}

/// Adds the lines of a stage's instances.
#[tactic(auto, using(crate::proofs::Stages::two_lines_written))]
fn push_stage_insts(text: &mut Vec<u8>, stages: u32, stage: u32) -> Result<(), AllocError>
    requires within { stage < stages }
    requires most { stages ≤ 4096 }
    ensures { OnOk result (text.new.items ≡ text.old.items ++ lines_text (spec.inst_lines stages stage)) }
{
    push_element(text, stages, stage)?;
    push_inverter(text, stage)
}

/// Adds the lines of the instances.
fn push_insts(text: &mut Vec<u8>, stages: u32) -> Result<(), AllocError>
    requires { stages ≤ 4096 }
    ensures { OnOk result (text.new.items ≡ text.old.items ++ lines_text (flat_map (spec.inst_lines stages) (range_with_len 0 stages))) }
{
    for stage in 0..stages {
        push_stage_insts(text, stages, stage)?;
    }
    Ok(())
}

/// Adds the line of a tick from a net of a stage to the output of another, between equal edges.
fn push_tick(
    text: &mut Vec<u8>,
    letter: &[u8],
    source: u32,
    target: u32,
    edge: u8,
) -> Result<(), AllocError>
    ensures { OnOk result (text.new.items ≡ text.old.items ++ line_text (spec.tick_line (letter.now ++ decimal source ++ edge ∷ []) (codes "z" ++ decimal target ++ edge ∷ []))) }
{
    text.extend_from_slice(b"tick")?;
    push_indexed(text, letter, source)?;
    text.push(edge)?;
    push_indexed(text, b"z", target)?;
    text.push(edge)?;
    text.extend_from_slice(b" 1\n")
}

/// Adds the lines of the ticks between outputs.
#[tactic(auto, using(crate::proofs::Stages::two_lines_written))]
fn push_output_ticks(text: &mut Vec<u8>, stages: u32) -> Result<(), AllocError>
    requires { 3 ≤ stages }
    ensures { OnOk result (text.new.items ≡ text.old.items ++ lines_text (spec.output_ticks stages)) }
{
    push_tick(text, b"z", 0, 1, b'+')?;
    push_tick(text, b"z", stages - 1, 0, b'-')
}

/// Adds the lines of the ticks from complements.
fn push_complement_ticks(text: &mut Vec<u8>, stages: u32) -> Result<(), AllocError>
    requires { 3 ≤ stages }
    ensures { OnOk result (text.new.items ≡ text.old.items ++ lines_text (map spec.complement_tick (range_with_len 2 (stages - 2)))) }
{
    for stage in 2..stages {
        push_tick(text, b"n", stage, stage - 1, b'+')?;
    }
    Ok(())
}

/// Adds the line of the root.
fn push_root(text: &mut Vec<u8>) -> Result<(), AllocError>
    ensures { OnOk result (text.new.items ≡ text.old.items ++ line_text spec.root_line) }
{
    text.extend_from_slice(b"root")?;
    push_indexed(text, b"z", 0)?;
    text.extend_from_slice(b"+\n")
}

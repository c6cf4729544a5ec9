// The keys of cells and arcs.
ghost use Rattle.std.specs.Prelude.{◌≡◌, IfOk, option_map, option_copied, string_bytes};
ghost use Rattle.toml.specs.Data.{as_str};
ghost use Rattle.toml.specs.View.{view, items_view};
ghost use Rattle.cell_arcs.specs.Library as spec;

use crate::cells::Pins;
use cyc_text::Text;
use std::alloc::{AllocError, Global};
use std::marker::Model;
use toml::Value;

/// The keys of an arc, each of its kind.
#[derive(Drop)]
pub(crate) struct ArcShape {
    pub(crate) from: Text,
    pub(crate) sense: Text,
    pub(crate) rise: i64,
    pub(crate) fall: i64,
}

impl Model for ArcShape {
    ghost use Rattle.cell_arcs.specs.Shape.{ArcShape as Shape};

    ghost Value = { Shape };

    ghost view = { λ s. record { from = s.from; sense = s.sense; rise = s.rise; fall = s.fall } };
}

/// The keys of a cell, each of its kind.
#[derive(Drop)]
pub(crate) struct CellShape {
    pub(crate) inputs: Pins,
    pub(crate) output: Text,
    pub(crate) arcs: Vec<ArcShape>,
}

impl Model for CellShape {
    ghost use Rattle.cell_arcs.specs.Shape.{CellShape as Shape};

    ghost Value = { Shape };

    ghost view = { λ s. record { inputs = s.inputs; output = s.output; arcs = s.arcs.items } };
}

/// The keys of a cell, where each is there and of its kind.
#[tactic(auto, unfolding(crate::specs::Library::cell_shape))]
pub(crate) fn cell_shape(alloc: Global, value: &Value) -> Result<Option<CellShape>, AllocError>
    ensures { IfOk result (λ s. s ≡ spec.cell_shape (view value.now)) }
{
    let Some(inputs) = array_at(value, "inputs") else {
        return Ok(None);
    };
    let Some(inputs) = texts(alloc, inputs)? else {
        return Ok(None);
    };
    let Some(output) = string_at(value, "output") else {
        return Ok(None);
    };
    let Some(arcs) = array_at(value, "arcs") else {
        return Ok(None);
    };
    let Some(arcs) = arc_shapes(alloc, arcs)? else {
        return Ok(None);
    };
    Ok(Some(CellShape {
        inputs,
        output: Text::of(alloc, output.as_bytes())?,
        arcs,
    }))
}

/// The texts of an array of strings.
#[tactic(auto)]
fn texts(alloc: Global, values: &[Value]) -> Result<Option<Pins>, AllocError>
    ensures { IfOk result (λ s. s ≡ spec.each as_str (items_view values.now)) }
{
    let mut texts = Vec::new(alloc);
    for value in values {
        let Some(text) = value.as_str() else {
            return Ok(None);
        };
        texts.push(Text::of(alloc, text.as_bytes())?)?;
    }
    Ok(Some(Pins::of(texts)))
}

/// The arcs of an array of tables with the keys of an arc.
#[tactic(auto)]
fn arc_shapes(alloc: Global, values: &[Value]) -> Result<Option<Vec<ArcShape>>, AllocError>
    ensures { IfOk result (λ s. option_map (λ v. v.items) s ≡ spec.each spec.arc_shape (items_view values.now)) }
{
    let mut shapes = Vec::new(alloc);
    for value in values {
        let Some(shape) = arc_shape(alloc, value)? else {
            return Ok(None);
        };
        shapes.push(shape)?;
    }
    Ok(Some(shapes))
}

/// The keys of an arc, where each is there and of its kind.
#[tactic(auto, unfolding(crate::specs::Library::arc_shape))]
fn arc_shape(alloc: Global, value: &Value) -> Result<Option<ArcShape>, AllocError>
    ensures { IfOk result (λ s. s ≡ spec.arc_shape (view value.now)) }
{
    let Some(from) = string_at(value, "from") else {
        return Ok(None);
    };
    let Some(sense) = string_at(value, "sense") else {
        return Ok(None);
    };
    let Some(rise) = integer_at(value, "rise") else {
        return Ok(None);
    };
    let Some(fall) = integer_at(value, "fall") else {
        return Ok(None);
    };
    Ok(Some(ArcShape {
        from: Text::of(alloc, from.as_bytes())?,
        sense: Text::of(alloc, sense.as_bytes())?,
        rise,
        fall,
    }))
}

fn array_at<'a>(value: &'a Value, key: &str) -> Option<&'a [Value]>
    ensures { option_map (λ v. items_view v.now) result ≡ spec.array_at key.now (view value.now) }
{
    match value.get(key) {
        Some(found) => match found.as_array() {
            Some(array) => Some(array.as_slice()),
            None => None,
        },
        None => None,
    }
}

fn integer_at(value: &Value, key: &str) -> Option<i64>
    ensures { result ≡ spec.integer_at key.now (view value.now) }
{
    match value.get(key) {
        Some(found) => found.as_integer(),
        None => None,
    }
}

fn string_at<'a>(value: &'a Value, key: &str) -> Option<&'a str>
    ensures { option_copied result ≡ spec.string_at key.now (view value.now) }
{
    match value.get(key) {
        Some(found) => found.as_str(),
        None => None,
    }
}

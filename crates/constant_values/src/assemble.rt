// Composites made of parts that stand elsewhere.
ghost use Rattle.std.specs.Prelude.{◌≡◌, IfOk, option_map, option_and_then};
ghost use Rattle.spv_types.specs.View.{tree_of, trees_of, value_of};
ghost use Rattle.op_semantics.specs.Component.{composite};
ghost use Rattle.profile_rules.specs.Constants.{if_fits};
ghost use Rattle.constant_values.specs.Parts.{part_fits as part_fits_tree, array_part_fits as array_part_fits_tree, member_fits as member_fits_tree};
ghost use Rattle.value_ops.specs.References.{referred, plain_references};

use crate::fitting::{fits, fitting, is_elem};
use spv_module::{Length, Shape, Value};
use spv_words::Memory;
use std::alloc::Global;
use value_ops::copied;

/// Whether a value fits element i of an array.
fn array_part_fits(part: &Shape, length: Length, i: usize, value: &Value) -> bool
    ensures { result ≡ array_part_fits_tree (tree_of part.now) length i (value_of value.now) }
{
    match length {
        Length::Fixed(length) => i < length as usize && fits(part, value),
        Length::Spec(_) => false,
    }
}

/// Whether a value fits member i of a struct.
#[tactic(auto, using(crate::proofs::Parts::member_at, crate::proofs::Parts::member_past))]
fn member_fits(members: &[Shape], i: usize, value: &Value) -> bool
    ensures { result ≡ member_fits_tree (trees_of members.now) i (value_of value.now) }
{
    if i < members.len() {
        fits(&members[i], value)
    } else {
        false
    }
}

/// Whether a value fits part i of a shape.
#[tactic(auto, using(spv_types::proofs::Views::shape_rows))]
fn part_fits(shape: &Shape, i: usize, value: &Value) -> bool
    ensures { result ≡ part_fits_tree (tree_of shape.now) i (value_of value.now) }
{
    match shape {
        Shape::Vector(elem, size) => i < *size as usize && is_elem(*elem, value),
        Shape::Array(part, length) => array_part_fits(part, *length, i, value),
        Shape::Struct(_, members) => member_fits(members, i, value),
        Shape::Bool | Shape::Int | Shape::Uint | Shape::Runtime(_) => false,
    }
}

/// The composite of copies of these parts, where it has this shape. No part is copied that does not
/// fit.
fn assembled(alloc: Global, shape: &Shape, parts: &[&Value]) -> Result<Option<Value>, Memory>
    ensures { IfOk result (λ v. option_map value_of v ≡ if_fits (tree_of shape.now) (composite (referred parts.now))) }
{
    let mut copies = Vec::new(alloc);
    for (i, part) in parts.iter().enumerate() {
        if !part_fits(shape, i, part) {
            return Ok(None);
        }
        copies.push(copied(alloc, part)?)?;
    }
    Ok(fitting(shape, Some(Value::Many(copies))))
}

/// The composite of these parts, where there are parts and it has this shape.
pub fn assembled_of(
    alloc: Global,
    shape: &Shape,
    parts: Option<Vec<&Value>>,
) -> Result<Option<Value>, Memory>
    ensures { IfOk result (λ v. option_map value_of v ≡ option_and_then (if_fits (tree_of shape.now)) (option_map composite (option_map plain_references parts.entry))) }
{
    match parts {
        None => Ok(None),
        Some(parts) => assembled(alloc, shape, &parts),
    }
}

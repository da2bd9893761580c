// Whether a value has a shape.
ghost use Rattle.std.specs.Prelude.{◌≡◌, map, true, option_map, option_and_then};
ghost use Rattle.profile_rules.specs.Constants.{if_fits};
ghost use Rattle.spv_types.specs.Tree.{vector, array, many, values_in, truth, word};
ghost use Rattle.spv_types.specs.View.{tree_of, trees_of, value_of};
ghost use Rattle.op_semantics.specs.Fits.{fits as fits_tree, each_fits, fits_parts as fits_trees, elem_tree};

use spv_module::{Elem, Length, Shape, Value};

/// Whether the value has this shape.
#[cycle(fitting)]
#[tactic(auto, using(spv_types::proofs::Views::shape_rows, spv_types::proofs::Views::value_rows))]
pub fn fits(shape: &Shape, value: &Value) -> bool
    ensures { result ≡ fits_tree (tree_of shape.now) (value_of value.now) }
{
    match value {
        Value::Bool(_) => is_bool(shape),
        Value::Word(_) => is_word(shape),
        Value::Many(values) => have_shape(shape, values),
    }
}

#[tactic(auto, using(spv_types::proofs::Views::shape_rows))]
fn is_bool(shape: &Shape) -> bool
    ensures { result ≡ fits_tree (tree_of shape.now) (truth true) }
{
    matches!(shape, Shape::Bool)
}

#[tactic(auto, using(spv_types::proofs::Views::shape_rows))]
fn is_word(shape: &Shape) -> bool
    ensures { result ≡ fits_tree (tree_of shape.now) (word 0) }
{
    matches!(shape, Shape::Int | Shape::Uint)
}

#[tactic(auto, using(spv_types::proofs::Views::value_rows))]
pub fn is_elem(elem: Elem, value: &Value) -> bool
    ensures { result ≡ fits_tree (elem_tree elem) (value_of value.now) }
{
    match elem {
        Elem::Bool => matches!(value, Value::Bool(_)),
        Elem::Int | Elem::Uint => matches!(value, Value::Word(_)),
    }
}

#[tactic(auto, using(crate::proofs::Values::each_rules))]
fn are_elems(elem: Elem, size: u8, values: &[Value]) -> bool
    ensures { result ≡ fits_tree (vector elem size) (many (values_in (map value_of values.now))) }
{
    if values.len() != size as usize {
        return false;
    }
    for value in values {
        if !is_elem(elem, value) {
            return false;
        }
    }
    true
}

#[cycle(fitting)]
#[tactic(auto, using(spv_types::proofs::Views::shape_rows))]
fn have_shape(shape: &Shape, values: &[Value]) -> bool
    ensures { result ≡ fits_tree (tree_of shape.now) (many (values_in (map value_of values.now))) }
{
    match shape {
        Shape::Vector(elem, size) => are_elems(*elem, *size, values),
        Shape::Array(part, length) => are_parts(part, *length, values),
        Shape::Struct(_, members) => are_members(members, values),
        Shape::Bool | Shape::Int | Shape::Uint | Shape::Runtime(_) => false,
    }
}

#[cycle(fitting)]
#[tactic(auto, using(crate::proofs::Values::each_rules, value_ops::proofs::Values::value_smaller))]
fn are_parts(part: &Shape, length: Length, values: &[Value]) -> bool
    ensures { result ≡ fits_tree (array (tree_of part.now) length) (many (values_in (map value_of values.now))) }
{
    match length {
        Length::Fixed(length) => values.len() == length as usize && all_fit(part, values),
        Length::Spec(_) => false,
    }
}

#[cycle(fitting)]
#[tactic(auto, using(crate::proofs::Values::each_rules, value_ops::proofs::Values::value_smaller))]
fn all_fit(part: &Shape, values: &[Value]) -> bool
    ensures { result ≡ each_fits (tree_of part.now) (values_in (map value_of values.now)) }
{
    for value in values {
        if !fits(part, value) {
            return false;
        }
    }
    true
}

#[cycle(fitting)]
#[tactic(auto, using(crate::proofs::Values::member_rules, value_ops::proofs::Values::value_smaller))]
fn are_members(members: &[Shape], values: &[Value]) -> bool
    ensures { result ≡ fits_trees (trees_of members.now) (values_in (map value_of values.now)) }
{
    if members.len() != values.len() {
        return false;
    }
    for (i, member) in members.iter().enumerate() {
        if !fits(member, &values[i]) {
            return false;
        }
    }
    true
}

/// The value, where it has this shape.
pub fn fitting(shape: &Shape, value: Option<Value>) -> Option<Value>
    ensures { option_map value_of result ≡ option_and_then (if_fits (tree_of shape.now)) (option_map value_of value) }
{
    let value = value?;
    if fits(shape, &value) {
        Some(value)
    } else {
        None
    }
}

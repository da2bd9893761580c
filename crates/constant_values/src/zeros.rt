// The zeros of shapes that have one.
ghost use Rattle.std.specs.Prelude.{◌≡◌, IfOk, option_map, map, Vec};
ghost use Rattle.spv_module.specs.declared.tree.Value.{Value};
ghost use Rattle.spv_types.specs.Tree.{array, values_in};
ghost use Rattle.spv_types.specs.View.{tree_of, trees_of, value_of};
ghost use Rattle.spv_types.specs.Leaves.{zero_of};
ghost use Rattle.profile_rules.specs.Constants.{if_fits};
ghost use Rattle.value_ops.specs.References.{plain_values};
ghost use Rattle.constant_values.specs.Zeros.{zero_parts as zero_parts_of, zero_members as zero_members_of};

use spv_module::{Length, Shape, Value};
use spv_types::zero;
use spv_words::Memory;
use std::alloc::Global;

/// The value that is false and 0 everywhere, where it has this shape: a runtime array and an array
/// whose length is a specialization constant have no values.
#[cycle(zeros)]
#[tactic(auto, using(spv_types::proofs::Views::shape_rows, spv_types::proofs::Views::value_rows, crate::proofs::ZeroParts::zero_rules))]
pub fn zero_value(alloc: Global, shape: &Shape) -> Result<Option<Value>, Memory>
    ensures { IfOk result (λ v. option_map value_of v ≡ if_fits (tree_of shape.now) (zero_of (tree_of shape.now))) }
{
    match shape {
        Shape::Bool | Shape::Int | Shape::Uint | Shape::Vector(_, _) => {
            Ok(Some(zero(alloc, shape)?))
        }
        Shape::Array(part, length) => zero_array(alloc, part, *length),
        Shape::Runtime(_) => Ok(None),
        Shape::Struct(_, members) => match zero_members(alloc, members)? {
            None => Ok(None),
            Some(values) => Ok(Some(Value::Many(values))),
        },
    }
}

#[cycle(zeros)]
#[tactic(auto, using(spv_types::proofs::Views::value_rows, crate::proofs::ZeroParts::zero_rules))]
fn zero_array(alloc: Global, part: &Shape, length: Length) -> Result<Option<Value>, Memory>
    ensures { IfOk result (λ v. option_map value_of v ≡ if_fits (array (tree_of part.now) length) (zero_of (array (tree_of part.now) length))) }
{
    match length {
        Length::Fixed(length) => match zero_parts(alloc, part, length)? {
            None => Ok(None),
            Some(values) => Ok(Some(Value::Many(values))),
        },
        Length::Spec(_) => Ok(None),
    }
}

#[cycle(zeros)]
#[tactic(auto, using(crate::proofs::ZeroParts::part_rules))]
fn zero_parts(alloc: Global, part: &Shape, length: u32) -> Result<Option<Vec<Value>>, Memory>
    ensures { IfOk result (λ all. option_map plain_values all ≡ zero_parts_of (tree_of part.now) length) }
{
    let mut values = Vec::new(alloc);
    for _ in 0..length {
        match zero_value(alloc, part)? {
            None => return Ok(None),
            Some(value) => values.push(value)?,
        }
    }
    Ok(Some(values))
}

#[cycle(zeros)]
#[tactic(auto, using(crate::proofs::ZeroParts::member_rules, spv_types::proofs::Leaf::zero_rules, spv_types::proofs::Heads::member_smaller))]
fn zero_members(alloc: Global, members: &[Shape]) -> Result<Option<Vec<Value>>, Memory>
    ensures { IfOk result (λ all. option_map (λ (v : Vec Value Global). values_in (map value_of v.items)) all ≡ zero_members_of (trees_of members.now)) }
{
    let mut values = Vec::new(alloc);
    for member in members {
        match zero_value(alloc, member)? {
            None => return Ok(None),
            Some(value) => values.push(value)?,
        }
    }
    Ok(Some(values))
}

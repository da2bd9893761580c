// OpVectorShuffle.
ghost use Rattle.std.specs.Prelude.{◌≡◌, ◌++◌, IfOk, option_map, map};
ghost use Rattle.spv_types.specs.View.{tree_of, value_of};
ghost use Rattle.op_semantics.specs.Component.{each_one};
ghost use Rattle.op_semantics.specs.Composite.{picked, shuffled as shuffled_value};
ghost use Rattle.value_ops.specs.References.{plain_references};
ghost use Rattle.value_ops.specs.Shuffled.{shuffled_by};

use crate::copies::composite_of;
use crate::outcome::Computed;
use spv_module::{Elem, Shape, Value};
use spv_types::zero_scalar;
use spv_words::Memory;
use std::alloc::Global;

#[tactic(auto, using(crate::proofs::Picks::picked_rules))]
fn picked_part<'a>(
    zero: &'a Value,
    firsts: &'a [Value],
    seconds: &'a [Value],
    pick: u32,
) -> Option<&'a Value>
    ensures { option_map (λ v. value_of v.now) result ≡ picked (value_of zero.now) (map value_of firsts.now ++ map value_of seconds.now) pick }
{
    if pick == 0xffff_ffff {
        Some(zero)
    } else if (pick as usize) < firsts.len() {
        firsts.get(pick as usize)
    } else {
        seconds.get(pick as usize - firsts.len())
    }
}

/// The components that literals pick from two lists one behind the other, where all are there.
fn picked_parts<'a>(
    alloc: Global,
    zero: &'a Value,
    firsts: &'a [Value],
    seconds: &'a [Value],
    picks: &[u32],
) -> Result<Option<Vec<&'a Value>>, Memory>
    ensures { IfOk result (λ all. option_map plain_references all ≡ each_one (picked (value_of zero.now) (map value_of firsts.now ++ map value_of seconds.now)) picks.now) }
{
    let mut parts = Vec::new(alloc);
    for pick in picks {
        match picked_part(zero, firsts, seconds, *pick) {
            None => return Ok(None),
            Some(part) => parts.push(part)?,
        }
    }
    Ok(Some(parts))
}

#[tactic(auto, using(spv_types::proofs::Views::value_rows, crate::proofs::Picks::shuffle_rules))]
fn shuffled_components(
    alloc: Global,
    elem: Elem,
    picks: &[u32],
    first: &Value,
    second: &Value,
) -> Computed
    ensures { IfOk result (λ v. option_map value_of v ≡ shuffled_by elem picks.now (value_of first.now) (value_of second.now)) }
{
    match (first, second) {
        (Value::Many(firsts), Value::Many(seconds)) => {
            let zero = zero_scalar(elem);
            let parts = picked_parts(alloc, &zero, firsts, seconds, picks)?;
            composite_of(alloc, parts)
        }
        (Value::Many(_), Value::Bool(_) | Value::Word(_)) => Ok(None),
        (Value::Bool(_) | Value::Word(_), _) => Ok(None),
    }
}

/// OpVectorShuffle.
#[tactic(auto, using(spv_types::proofs::Views::shape_rows, crate::proofs::Picks::shuffle_is))]
pub fn shuffled(
    alloc: Global,
    shape: &Shape,
    picks: &[u32],
    first: &Value,
    second: &Value,
) -> Computed
    ensures { IfOk result (λ v. option_map value_of v ≡ shuffled_value (tree_of shape.now) picks.now (value_of first.now) (value_of second.now)) }
{
    match shape {
        Shape::Vector(elem, _) => shuffled_components(alloc, *elem, picks, first, second),
        Shape::Bool
        | Shape::Int
        | Shape::Uint
        | Shape::Array(_, _)
        | Shape::Runtime(_)
        | Shape::Struct(_, _) => Ok(None),
    }
}

// OpCompositeConstruct.
ghost use Rattle.std.specs.Prelude.{◌≡◌, ◌++◌, IfOk, OnOk, map};
ghost use Rattle.std.specs.List.{flat_map};
ghost use Rattle.spv_types.specs.View.{tree_of, value_of};
ghost use Rattle.op_semantics.specs.Composite.{components, constructed as constructed_of};
ghost use Rattle.value_ops.specs.References.{referred};

use crate::copies::{copied, copied_from};
use spv_module::{Shape, Value};
use spv_words::Memory;
use std::alloc::Global;

fn add_copies(alloc: Global, values: &[Value], all: &mut Vec<Value>) -> Result<(), Memory>
    ensures { OnOk result (map value_of all.new.items ≡ map value_of all.old.items ++ map value_of values.now) }
{
    for value in values {
        all.push(copied(alloc, value)?)?;
    }
    Ok(())
}

/// Adds the components of a vector, or a scalar.
#[tactic(auto, using(spv_types::proofs::Views::value_rows, crate::proofs::Lists::listed_values))]
fn add_components(alloc: Global, value: &Value, all: &mut Vec<Value>) -> Result<(), Memory>
    ensures { OnOk result (map value_of all.new.items ≡ map value_of all.old.items ++ components (value_of value.now)) }
{
    match value {
        Value::Many(values) => add_copies(alloc, values, all),
        Value::Bool(_) | Value::Word(_) => {
            all.push(copied(alloc, value)?)?;
            Ok(())
        }
    }
}

fn all_components(alloc: Global, operands: &[&Value]) -> Result<Vec<Value>, Memory>
    ensures { IfOk result (λ all. map value_of all.items ≡ flat_map components (referred operands.now)) }
{
    let mut all = Vec::new(alloc);
    for operand in operands {
        add_components(alloc, operand, &mut all)?;
    }
    Ok(all)
}

/// The composite of this shape: a vector takes scalars, and vectors component by component, an array
/// or a struct its parts.
#[tactic(auto, using(spv_types::proofs::Views::shape_rows, spv_types::proofs::Views::value_rows))]
pub fn constructed(alloc: Global, shape: &Shape, operands: &[&Value]) -> Result<Value, Memory>
    ensures { IfOk result (λ v. value_of v ≡ constructed_of (tree_of shape.now) (referred operands.now)) }
{
    match shape {
        Shape::Vector(_, _) => Ok(Value::Many(all_components(alloc, operands)?)),
        Shape::Bool
        | Shape::Int
        | Shape::Uint
        | Shape::Array(_, _)
        | Shape::Runtime(_)
        | Shape::Struct(_, _) => Ok(Value::Many(copied_from(alloc, operands)?)),
    }
}

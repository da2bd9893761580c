// The value of an OpSpecConstantOp.
ghost use Rattle.std.specs.Prelude.{◌≡◌, IfOk, option_map, option_and_then};
ghost use Rattle.spv_ops.specs.Opcode.{op_of};
ghost use Rattle.spv_types.specs.View.{tree_of, value_of};
ghost use Rattle.op_semantics.specs.Component.{each_one, composite};
ghost use Rattle.profile_rules.specs.Constants.{if_fits, operation_value as operation_value_of};
ghost use Rattle.value_ops.specs.References.{plain_references};
ghost use Rattle.op_semantics.specs.Value.{op_value as op_value_of};
ghost use Rattle.constant_values.specs.Calculated.{calculated_by as value_by_op};
ghost use Rattle.constant_values.specs.Held.{value_in};

use crate::assemble::assembled_of;
use crate::fitting::fitting;
use crate::inner_ops::{gives_parts, inner_literals, inner_operands, is_flat};
use spv_module::{Shape, Value};
use spv_ops::{Op, inner_op};
use spv_words::Memory;
use std::alloc::Global;
use std::collections::BTreeMap;
use value_ops::op_value;

/// The values of constants, by their ids.
pub type Values = BTreeMap<u32, Value>;

/// The value of the constant with this id.
#[tactic(auto, using(crate::proofs::Evaluation::copied_value))]
pub fn value_at(values: &Values, id: u32) -> Option<&Value>
    ensures { option_map (λ v. value_of v.now) result ≡ value_in values.now id }
{
    values.get(&id)
}

/// The values of the constants with these ids; none where one has none.
fn found<'a>(
    alloc: Global,
    values: &'a Values,
    ids: &[u32],
) -> Result<Option<Vec<&'a Value>>, Memory>
    ensures { IfOk result (λ all. option_map plain_references all ≡ each_one (value_in values.now) ids.now) }
{
    let mut all = Vec::new(alloc);
    for id in ids {
        match value_at(values, *id) {
            None => return Ok(None),
            Some(value) => all.push(value)?,
        }
    }
    Ok(Some(all))
}

/// The composite of the constants with these ids, where it has this shape.
pub fn composed(
    alloc: Global,
    values: &Values,
    ids: &[u32],
    shape: &Shape,
) -> Result<Option<Value>, Memory>
    ensures { IfOk result (λ v. option_map value_of v ≡ option_and_then (if_fits (tree_of shape.now)) (option_map composite (each_one (value_in values.now) ids.now))) }
{
    let parts = found(alloc, values, ids)?;
    assembled_of(alloc, shape, parts)
}

/// The value of an operation on these operands, where there are operands and it has this shape.
fn operated(
    alloc: Global,
    op: Op,
    literals: &[u32],
    operands: Option<Vec<&Value>>,
    shape: &Shape,
) -> Result<Option<Value>, Memory>
    ensures { IfOk result (λ v. option_map value_of v ≡ option_and_then (if_fits (tree_of shape.now)) (option_and_then (op_value_of op (tree_of shape.now) literals.now) (option_map plain_references operands.entry))) }
{
    match operands {
        None => Ok(None),
        Some(operands) => {
            let value = op_value(alloc, op, shape, literals, &operands)?;
            Ok(fitting(shape, value))
        }
    }
}

/// The value of an OpSpecConstantOp with this opcode and these words behind it, where it has this
/// shape.
fn calculated_by(
    alloc: Global,
    values: &Values,
    op: Op,
    words: &[u32],
    shape: &Shape,
) -> Result<Option<Value>, Memory>
    ensures { IfOk result (λ v. option_map value_of v ≡ option_and_then (if_fits (tree_of shape.now)) (value_by_op (tree_of shape.now) (value_in values.now) words.now op)) }
{
    if !(is_flat(shape) || gives_parts(op)) {
        return Ok(None);
    }
    let operands = found(alloc, values, inner_operands(op, words))?;
    operated(alloc, op, inner_literals(op, words), operands, shape)
}

/// The value of an OpSpecConstantOp with the opcode of this number and these words behind it, where it
/// has this shape.
pub fn calculated(
    alloc: Global,
    values: &Values,
    op: u32,
    words: &[u32],
    shape: &Shape,
) -> Result<Option<Value>, Memory>
    ensures { IfOk result (λ v. option_map value_of v ≡ option_and_then (if_fits (tree_of shape.now)) (option_and_then (λ o. operation_value_of (tree_of shape.now) (value_in values.now) o words.now) (op_of op))) }
{
    match inner_op(op) {
        None => Ok(None),
        Some(op) => calculated_by(alloc, values, op, words, shape),
    }
}

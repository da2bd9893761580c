// Operations.
ghost use Rattle.std.specs.Prelude.{◌≡◌, [], Some, IfOk, option_map, option_and_then};
ghost use Rattle.op_semantics.specs.Component.{before};
ghost use Rattle.value_ops.specs.References.{plain_references};
ghost use Rattle.spv_types.specs.View.{tree_of, value_of};
ghost use Rattle.op_semantics.specs.Value.{op_value as op_value_of};
ghost use Rattle.module_semantics.specs.Operands.{value_operands as value_operands_of, literal_operands as literal_operands_of};
ghost use Rattle.run_state.specs.Ids.{ids_of};
ghost use Rattle.run_operands.specs.Looks.{found, values_by, computed_by};

use crate::look::{value, values};
use memory_places::MemoryMap;
use run_state::Ids;
use spv_module::{Inst, Shape, Value};
use spv_ops::Op;
use spv_words::Memory;
use std::alloc::Global;
use value_ops::op_value;

/// Of the operand words of an operation, those that are ids of values.
fn value_operands(inst: &Inst) -> &[u32]
    ensures { result.now ≡ value_operands_of inst.now.op inst.now.args }
{
    let args = inst.args.as_slice();
    match inst.op {
        Op::ExtInst => args.get(2..).unwrap_or(&[]),
        op => op.operands().ids(args),
    }
}

/// Of the operand words of an operation, those that are literals.
fn literal_operands(inst: &Inst) -> &[u32]
    ensures { result.now ≡ literal_operands_of inst.now.op inst.now.args }
{
    let args = inst.args.as_slice();
    match inst.op {
        Op::ExtInst => {
            let rest = args.get(1..).unwrap_or(&[]);
            &rest[..rest.len().min(1)]
        }
        op => op.operands().literals(args),
    }
}

/// The value of an operation on one operand, if this has a value.
#[tactic(auto, using(crate::proofs::Operands::two_rules))]
fn of_one(
    alloc: Global,
    inst: &Inst,
    shape: &Shape,
    a: Option<&Value>,
) -> Result<Option<Value>, Memory>
    ensures { IfOk result (λ v. option_map value_of v ≡ option_and_then (op_value_of inst.now.op (tree_of shape.now) (literal_operands_of inst.now.op inst.now.args)) (before (found a.entry) (Some []))) }
{
    match a {
        None => Ok(None),
        Some(a) => op_value(alloc, inst.op, shape, literal_operands(inst), &[a]),
    }
}

/// The value of an operation on two operands, if both have values.
#[tactic(auto, using(crate::proofs::Operands::two_rules))]
fn of_two(
    alloc: Global,
    inst: &Inst,
    shape: &Shape,
    a: Option<&Value>,
    b: Option<&Value>,
) -> Result<Option<Value>, Memory>
    ensures { IfOk result (λ v. option_map value_of v ≡ option_and_then (op_value_of inst.now.op (tree_of shape.now) (literal_operands_of inst.now.op inst.now.args)) (before (found a.entry) (before (found b.entry) (Some [])))) }
{
    match a {
        None => Ok(None),
        Some(a) => match b {
            None => Ok(None),
            Some(b) => op_value(alloc, inst.op, shape, literal_operands(inst), &[a, b]),
        },
    }
}

/// The value of an operation on more operands, if all have values.
fn of_many(
    alloc: Global,
    inst: &Inst,
    shape: &Shape,
    operands: Option<Vec<&Value>>,
) -> Result<Option<Value>, Memory>
    ensures { IfOk result (λ v. option_map value_of v ≡ option_and_then (op_value_of inst.now.op (tree_of shape.now) (literal_operands_of inst.now.op inst.now.args)) (option_map plain_references operands.entry)) }
{
    match operands {
        None => Ok(None),
        Some(operands) => op_value(alloc, inst.op, shape, literal_operands(inst), &operands),
    }
}

/// The value of an operation on the operands of a list.
fn of_list(
    alloc: Global,
    map: &MemoryMap<'_>,
    ids: &Ids,
    inst: &Inst,
    shape: &Shape,
    list: &[u32],
) -> Result<Option<Value>, Memory>
    ensures { IfOk result (λ v. option_map value_of v ≡ option_and_then (op_value_of inst.now.op (tree_of shape.now) (literal_operands_of inst.now.op inst.now.args)) (values_by map.now (ids_of ids.now) list.now)) }
{
    match list {
        [a] => of_one(alloc, inst, shape, value(map, ids, *a)),
        [a, b] => of_two(alloc, inst, shape, value(map, ids, *a), value(map, ids, *b)),
        list => of_many(alloc, inst, shape, values(alloc, map, ids, list)?),
    }
}

/// The value of an operation; none where it has no meaning. Nothing is allocated for one or two scalars.
pub fn computed(
    alloc: Global,
    map: &MemoryMap<'_>,
    ids: &Ids,
    inst: &Inst,
) -> Result<Option<Value>, Memory>
    ensures { IfOk result (λ v. option_map value_of v ≡ computed_by map.now (ids_of ids.now) inst.now) }
{
    match map.shape(alloc, inst.ty)? {
        None => Ok(None),
        Some(shape) => of_list(alloc, map, ids, inst, &shape, value_operands(inst)),
    }
}

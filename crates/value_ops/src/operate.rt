// The value of an operation.
ghost use Rattle.std.specs.Prelude.{◌≡◌, IfOk, option_map};
ghost use Rattle.spv_types.specs.View.{tree_of, value_of};
ghost use Rattle.op_semantics.specs.Component.{bit_field as bit_field_value, inserted_field as inserted_field_value};
ghost use Rattle.op_semantics.specs.Value.{value_of_operation as value_by_operation, operation_of as operation_by, op_value as op_value_of};
ghost use Rattle.value_ops.specs.Fields.{bit_field as bit_field_by};
ghost use Rattle.value_ops.specs.References.{referred};

use crate::bits::Sign;
use crate::compose::constructed;
use crate::copies::copied;
use crate::outcome::Computed;
use crate::parts::{extracted_at, extracted_by, inserted_at, inserted_by};
use crate::scalars::{
    OneScalar, ThreeValues, TwoScalars, of_one_operand, of_three_operands, of_two_operands,
};
use crate::shuffle::shuffled;
use crate::truths::{Quantity, quantified};
use crate::words::zero_value;
use op_semantics::{Operation, extended_operation_of, operation_of};
use spv_module::{Shape, Value};
use spv_ops::Op;
use spv_words::Memory;
use std::alloc::Global;

/// The field of so many bits from the offset on, of each component.
#[tactic(auto, using(spv_types::proofs::Views::value_rows))]
fn field(alloc: Global, sign: Sign, base: &Value, offset: &Value, count: &Value) -> Computed
    ensures { IfOk result (λ v. option_map value_of v ≡ bit_field_value (bit_field_by sign) (value_of base.now) (value_of offset.now) (value_of count.now)) }
{
    match (offset, count) {
        (Value::Word(offset), Value::Word(count)) => {
            of_one_operand(alloc, OneScalar::Field(sign, *offset, *count), base)
        }
        _ => Ok(None),
    }
}

/// The base with another field, component by component.
#[tactic(auto, using(spv_types::proofs::Views::value_rows))]
fn inserted_field(
    alloc: Global,
    base: &Value,
    insert: &Value,
    offset: &Value,
    count: &Value,
) -> Computed
    ensures { IfOk result (λ v. option_map value_of v ≡ inserted_field_value (value_of base.now) (value_of insert.now) (value_of offset.now) (value_of count.now)) }
{
    match (offset, count) {
        (Value::Word(offset), Value::Word(count)) => {
            of_two_operands(
                alloc,
                TwoScalars::InsertField(*offset, *count),
                base,
                insert,
            )
        }
        _ => Ok(None),
    }
}

/// The value of an operation, from the shape of its result, its literals and its operands in order.
fn value_of_operation(
    alloc: Global,
    operation: Operation,
    shape: &Shape,
    literals: &[u32],
    operands: &[&Value],
) -> Computed
    ensures { IfOk result (λ v. option_map value_of v ≡ value_by_operation operation (tree_of shape.now) literals.now (referred operands.now)) }
{
    match (operation, operands) {
        (Operation::Unary(op), [a]) => of_one_operand(alloc, OneScalar::Unary(op), a),
        (Operation::LogicalNot, [a]) => of_one_operand(alloc, OneScalar::Not, a),
        (Operation::Binary(op), [a, b]) => of_two_operands(alloc, TwoScalars::Binary(op), a, b),
        (Operation::Comparison(op), [a, b]) => {
            of_two_operands(alloc, TwoScalars::Comparison(op), a, b)
        }
        (Operation::Logical(op), [a, b]) => of_two_operands(alloc, TwoScalars::Logical(op), a, b),
        (Operation::Clamp(op), [a, low, high]) => {
            of_three_operands(alloc, ThreeValues::Clamp(op), a, low, high)
        }
        (Operation::Select, [choice, first, second]) => {
            of_three_operands(alloc, ThreeValues::Choose, choice, first, second)
        }
        (Operation::BitFieldInsert, [base, insert, offset, count]) => {
            inserted_field(alloc, base, insert, offset, count)
        }
        (Operation::BitFieldSExtract, [base, offset, count]) => {
            field(alloc, Sign::Signed, base, offset, count)
        }
        (Operation::BitFieldUExtract, [base, offset, count]) => {
            field(alloc, Sign::Unsigned, base, offset, count)
        }
        (Operation::Any, [vector]) => Ok(quantified(Quantity::Any, vector)),
        (Operation::All, [vector]) => Ok(quantified(Quantity::All, vector)),
        (Operation::Undef, _) => Ok(Some(zero_value(alloc, shape)?)),
        (Operation::Copy, [a]) => Ok(Some(copied(alloc, a)?)),
        (Operation::VectorExtractDynamic, [whole, index]) => extracted_at(alloc, whole, index),
        (Operation::VectorInsertDynamic, [whole, part, index]) => {
            inserted_at(alloc, whole, part, index)
        }
        (Operation::VectorShuffle, [first, second]) => {
            shuffled(alloc, shape, literals, first, second)
        }
        (Operation::CompositeConstruct, _) => Ok(Some(constructed(alloc, shape, operands)?)),
        (Operation::CompositeExtract, [whole]) => extracted_by(alloc, literals, whole),
        (Operation::CompositeInsert, [part, whole]) => inserted_by(alloc, whole, literals, part),
        _ => Ok(None),
    }
}

/// The operation of an opcode; that of OpExtInst is named by its first literal.
#[tactic(auto, unfolding(op_semantics::specs::Value::operation_of))]
fn operation_in(op: Op, literals: &[u32]) -> Option<Operation>
    ensures { result ≡ operation_by op literals.now }
{
    match op {
        Op::ExtInst => extended_operation_of(literals.first().copied().unwrap_or(0)),
        _ => operation_of(op),
    }
}

/// The value of the instruction with this opcode (SPIR-V 1.6, section "Instructions"; GLSL.std.450),
/// from the shape of its result, its literals and its operands' values in order. There is none of
/// opcodes without an operation, of another number of operands, of operands of the wrong kinds or
/// sizes, by zero, of the smallest number by -1, past the parts of a composite or past a word. There
/// is an error only for want of memory; nothing is allocated where operands and result are scalars.
pub fn op_value(
    alloc: Global,
    op: Op,
    shape: &Shape,
    literals: &[u32],
    operands: &[&Value],
) -> Result<Option<Value>, Memory>
    ensures { IfOk result (λ v. option_map value_of v ≡ op_value_of op (tree_of shape.now) literals.now (referred operands.now)) }
{
    match operation_in(op, literals) {
        None => Ok(None),
        Some(operation) => value_of_operation(alloc, operation, shape, literals, operands),
    }
}

// The expression of an instruction, by its opcode.
ghost use Rattle.std.specs.Prelude.{◌≡◌, ◌+◌, ◌≤◌, ◌∷◌, [], IfOk, map};
ghost use Rattle.glsl_ast.specs.View.{expr_of};
ghost use Rattle.glsl_ast.specs.Height.{height};
ghost use Rattle.op_semantics.specs.Value.{operation_of as operation_by};
ghost use Rattle.int_lowering.specs.Operand.{operand_of, highest_operand};
ghost use Rattle.int_lowering.specs.Lowered as lowered;

use crate::basic::BasicType;
use crate::built_ins::BuiltIn;
use crate::operands::Arg;
use crate::operations::{
    binary_operation, clamp, comparison, copy, extract, function_of_next, insert, logical,
    logical_not, select, unary,
};
use crate::terms::literal;
use glsl_ast::Expr;
use op_semantics::{Operation, extended_operation_of, operation_of};
use spv_module::Elem;
use spv_ops::Op;
use spv_words::Memory;
use std::alloc::Global;

/// The operation of an opcode and, of OpExtInst, of its number in GLSL.std.450. There is none exactly where neither stands for one.
#[inline(always)]
#[tactic(auto, unfolding(op_semantics::specs::Value::operation_of))]
pub fn operation(op: Op, ext: u32) -> Option<Operation>
    ensures { result ≡ operation_by op (ext ∷ []) }
{
    match op {
        Op::ExtInst => extended_operation_of(ext),
        _ => operation_of(op),
    }
}

/// The expression of an operation, from the type of its result and its operands.
#[inline(always)]
fn written(alloc: Global, op: Operation, ty: BasicType, operands: Vec<Arg>) -> Result<Expr, Memory>
    ensures { IfOk result (λ e. expr_of e ≡ lowered.applied op ty (map operand_of operands.items)) }
{
    let args = &mut operands.into_iter();
    match op {
        Operation::Unary(op) => unary(alloc, op, ty, args),
        Operation::Binary(op) => binary_operation(alloc, op, ty, args),
        Operation::Comparison(op) => comparison(alloc, op, args),
        Operation::Logical(op) => logical(alloc, op, args),
        Operation::LogicalNot => logical_not(alloc, args),
        Operation::Clamp(op) => clamp(alloc, op, ty, args),
        Operation::BitFieldInsert => insert(alloc, ty.elem, args),
        Operation::BitFieldSExtract => extract(alloc, Elem::Int, ty, args),
        Operation::BitFieldUExtract => extract(alloc, Elem::Uint, ty, args),
        Operation::Any => function_of_next(alloc, BuiltIn::Any, args),
        Operation::All => function_of_next(alloc, BuiltIn::All, args),
        Operation::Select => select(alloc, args),
        Operation::Copy => copy(alloc, ty, args),
        Operation::Undef
        | Operation::VectorExtractDynamic
        | Operation::VectorInsertDynamic
        | Operation::VectorShuffle
        | Operation::CompositeConstruct
        | Operation::CompositeExtract
        | Operation::CompositeInsert => Ok(literal(ty.elem, 0)),
    }
}

/// The expression of an operation whose result is of this type, where GLSL writes it on vectors as on scalars: all operations
/// with a scalar result, and of those on vectors OpIAdd to OpIMul, OpUDiv, OpUMod, OpSNegate, the shifts, the bitwise
/// operations, OpNot, OpBitcast, OpCopyObject and OpSelect by one bool (GLSL 4.60, sections 5.9 and 8.8).
///
/// An operand that is not there counts as `0u`, and of an operation that is none on scalars the expression is a zero. There is
/// an error only for want of memory.
pub fn lower_operation(
    alloc: Global,
    operation: Operation,
    ty: BasicType,
    operands: Vec<Arg>,
) -> Result<Expr, Memory>
    ensures lowered { IfOk result (λ e. expr_of e ≡ lowered.applied operation ty (map operand_of operands.items)) }
    ensures height { IfOk result (λ e. height (expr_of e) ≤ 40 + highest_operand (map operand_of operands.items)) }
{
    written(alloc, operation, ty, operands)
}

/// The expression of an opcode's operation with a result of this type, or a zero where it has none.
fn written_opcode(
    alloc: Global,
    op: Op,
    ext: u32,
    ty: BasicType,
    operands: Vec<Arg>,
) -> Result<Expr, Memory>
    ensures { IfOk result (λ e. expr_of e ≡ lowered.lowered_basic op ext ty (map operand_of operands.items)) }
{
    match operation(op, ext) {
        None => Ok(literal(ty.elem, 0)),
        Some(operation) => written(alloc, operation, ty, operands),
    }
}

/// The expression of an operation with a scalar result of this type: arithmetic, divisions, shifts, bitwise and bit field
/// operations, comparisons and logical operations, OpSelect, OpBitcast and OpCopyObject on scalars, OpAny and OpAll of a vector,
/// and the integer operations of GLSL.std.450 (SPIR-V 1.6, section "Instructions").
///
/// `op` is the opcode and `ext`, of OpExtInst, the number in GLSL.std.450. An operand that is not there counts as `0u`, and of
/// an opcode that is none of these operations the expression is a zero. There is an error only for want of memory.
pub fn lower(
    alloc: Global,
    op: Op,
    ext: u32,
    elem: Elem,
    operands: Vec<Arg>,
) -> Result<Expr, Memory>
    ensures lowered { IfOk result (λ e. expr_of e ≡ lowered.lowered op ext elem (map operand_of operands.items)) }
    ensures height { IfOk result (λ e. height (expr_of e) ≤ 40 + highest_operand (map operand_of operands.items)) }
{
    written_opcode(alloc, op, ext, BasicType { elem, size: None }, operands)
}

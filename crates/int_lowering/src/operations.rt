// The expression of each operation on scalars.
ghost use Rattle.std.specs.Prelude.{◌≡◌, ◌∷◌, [], IfOk, map};
ghost use Rattle.std.specs.Vec.Iter.{into_iter_items};
ghost use Rattle.glsl_ast.specs.View.{expr_of};
ghost use Rattle.glsl_ast.specs.Tree as tree;
ghost use Rattle.op_semantics.specs.declared.operation.Unary.TheVariants.{BitCount};
ghost use Rattle.spv_module.specs.declared.tree.Elem.TheVariants.{Int};
ghost use Rattle.int_lowering.specs.Operator.{second_operand, operated as operated_on};
ghost use Rattle.int_lowering.specs.Operand.{operand_of, plain, converted, first, second, third, fourth};
ghost use Rattle.int_lowering.specs.declared.built_ins.BuiltIn.TheVariants.{Min, Max};
ghost use Rattle.int_lowering.specs.Term.{call_built_in as built_in_called};
ghost use Rattle.int_lowering.specs.Lowered as lowered;

use crate::basic::{BasicType, same_elem};
use crate::built_ins::{BuiltIn, call_built_in};
use crate::division::{magnitude, signed_modulo, signed_quotient, signed_remainder};
use crate::operands::{Args, Operand, next_amount, next_elem, next_operand};
use crate::operators::{Operator, arithmetic_operator, comparison_operator};
use crate::terms::{binary, call_one, call_two, choose, convert, flip, literal, not};
use glsl_ast::{BinOp, Expr};
use op_semantics::{Binary, Clamp, Comparison, Logical, Unary};
use spv_module::Elem;
use spv_words::Memory;
use std::alloc::Global;

/// The next operand, as an operator reads its second one.
#[inline(always)]
fn next_second(alloc: Global, operator: Operator, args: &mut Args) -> Result<Expr, Memory>
    ensures { IfOk result (λ e. expr_of e ≡ second_operand operator (first (map operand_of (into_iter_items args.old)))) }
{
    if operator.shifts {
        next_amount(alloc, args)
    } else {
        next_elem(alloc, args, operator.elem)
    }
}

/// An operator on two operands, as a value of this type.
fn operated(alloc: Global, by: Operator, ty: BasicType, args: &mut Args) -> Result<Expr, Memory>
    ensures { IfOk result (λ e. expr_of e ≡ operated_on by ty (first (map operand_of (into_iter_items args.old))) (second (map operand_of (into_iter_items args.old)))) }
{
    let left = next_elem(alloc, args, by.elem)?;
    let right = next_second(alloc, by, args)?;
    by.over(alloc, ty, left, right)
}

/// A function of two operands as components of a type.
fn of_both(alloc: Global, elem: Elem, f: BuiltIn, a: Operand, b: Operand) -> Result<Expr, Memory>
    ensures { IfOk result (λ e. expr_of e ≡ lowered.function_of_both elem f (plain a) (plain b)) }
{
    let left = a.into_elem(alloc, elem)?;
    call_two(alloc, f, left, b.into_elem(alloc, elem)?)
}

/// A function of an operand as components of a type.
fn function_of(alloc: Global, elem: Elem, function: BuiltIn, a: Operand) -> Result<Expr, Memory>
    ensures { IfOk result (λ e. expr_of e ≡ lowered.function_of elem function (plain a)) }
{
    call_one(alloc, function, a.into_elem(alloc, elem)?)
}

/// A function that answers an int, converted to a type.
fn int_of(alloc: Global, ty: BasicType, elem: Elem, f: BuiltIn, a: Operand) -> Result<Expr, Memory>
    ensures { IfOk result (λ e. expr_of e ≡ converted ty Int (lowered.function_of elem f (plain a))) }
{
    let of = function_of(alloc, elem, f, a)?;
    convert(alloc, ty, Elem::Int, of)
}

/// The number of ones, which is written of the operand as it is.
fn bit_count(alloc: Global, ty: BasicType, a: Operand) -> Result<Expr, Memory>
    ensures { IfOk result (λ e. expr_of e ≡ lowered.unary BitCount ty (plain a)) }
{
    let count = call_one(alloc, BuiltIn::BitCount, a.expr)?;
    convert(alloc, ty, Elem::Int, count)
}

/// The operation on one operand, from the type of its result.
pub fn unary(alloc: Global, op: Unary, ty: BasicType, args: &mut Args) -> Result<Expr, Memory>
    ensures { IfOk result (λ e. expr_of e ≡ lowered.unary op ty (first (map operand_of (into_iter_items args.old)))) }
{
    let a = next_operand(args);
    match op {
        Unary::SNegate => {
            let of = a.into_elem(alloc, ty.elem)?;
            binary(alloc, BinOp::Sub, literal(ty.elem, 0), of)
        }
        Unary::Not => flip(alloc, a.into_elem(alloc, ty.elem)?),
        Unary::BitReverse => function_of(alloc, ty.elem, BuiltIn::BitfieldReverse, a),
        Unary::BitCount => bit_count(alloc, ty, a),
        Unary::SAbs => convert(alloc, ty, Elem::Uint, magnitude(alloc, &a)?),
        Unary::SSign => int_of(alloc, ty, Elem::Int, BuiltIn::Sign, a),
        Unary::FindILsb => int_of(alloc, ty, Elem::Uint, BuiltIn::FindLsb, a),
        Unary::FindSMsb => int_of(alloc, ty, Elem::Int, BuiltIn::FindMsb, a),
        Unary::FindUMsb => int_of(alloc, ty, Elem::Uint, BuiltIn::FindMsb, a),
    }
}

/// The lesser of two operands as components of a type, converted to the type of the result.
fn lesser(alloc: Global, ty: BasicType, elem: Elem, a: Operand, b: Operand) -> Result<Expr, Memory>
    ensures { IfOk result (λ e. expr_of e ≡ converted ty elem (lowered.function_of_both elem Min (plain a) (plain b))) }
{
    let least = of_both(alloc, elem, BuiltIn::Min, a, b)?;
    convert(alloc, ty, elem, least)
}

/// The greater of them.
fn greater(alloc: Global, ty: BasicType, elem: Elem, a: Operand, b: Operand) -> Result<Expr, Memory>
    ensures { IfOk result (λ e. expr_of e ≡ converted ty elem (lowered.function_of_both elem Max (plain a) (plain b))) }
{
    let most = of_both(alloc, elem, BuiltIn::Max, a, b)?;
    convert(alloc, ty, elem, most)
}

/// The operation on two operands that is no operator, from the type of its result.
fn called(alloc: Global, op: Binary, ty: BasicType, a: Operand, b: Operand) -> Result<Expr, Memory>
    ensures { IfOk result (λ e. expr_of e ≡ lowered.called op ty (plain a) (plain b)) }
{
    match op {
        Binary::SDiv => signed_quotient(alloc, ty, &a, &b),
        Binary::SRem => signed_remainder(alloc, ty, &a, &b),
        Binary::SMod => signed_modulo(alloc, ty, &a, &b),
        Binary::UMin => lesser(alloc, ty, Elem::Uint, a, b),
        Binary::SMin => lesser(alloc, ty, Elem::Int, a, b),
        Binary::UMax => greater(alloc, ty, Elem::Uint, a, b),
        Binary::SMax => greater(alloc, ty, Elem::Int, a, b),
        Binary::IAdd
        | Binary::ISub
        | Binary::IMul
        | Binary::UDiv
        | Binary::UMod
        | Binary::ShiftRightLogical
        | Binary::ShiftRightArithmetic
        | Binary::ShiftLeftLogical
        | Binary::BitwiseOr
        | Binary::BitwiseXor
        | Binary::BitwiseAnd => Ok(literal(ty.elem, 0)),
    }
}

/// The operation on two operands, from the type of its result.
pub fn binary_operation(
    alloc: Global,
    op: Binary,
    ty: BasicType,
    args: &mut Args,
) -> Result<Expr, Memory>
    ensures { IfOk result (λ e. expr_of e ≡ lowered.binary op ty (first (map operand_of (into_iter_items args.old))) (second (map operand_of (into_iter_items args.old)))) }
{
    match arithmetic_operator(op, ty.elem) {
        Some(operator) => operated(alloc, operator, ty, args),
        None => {
            let a = next_operand(args);
            called(alloc, op, ty, a, next_operand(args))
        }
    }
}

/// Whether two words are equal, or differ: as they are where they are of one type.
fn compared_as_they_are(alloc: Global, op: BinOp, args: &mut Args) -> Result<Expr, Memory>
    ensures { IfOk result (λ e. expr_of e ≡ lowered.compared_as_they_are op (first (map operand_of (into_iter_items args.old))) (second (map operand_of (into_iter_items args.old)))) }
{
    let a = next_operand(args);
    let b = next_operand(args);
    if same_elem(a.ty.elem, b.ty.elem) {
        binary(alloc, op, a.expr, b.expr)
    } else {
        let left = a.into_elem(alloc, Elem::Uint)?;
        binary(alloc, op, left, b.into_elem(alloc, Elem::Uint)?)
    }
}

/// The comparison of equality, or of difference.
fn compared(alloc: Global, op: Comparison, args: &mut Args) -> Result<Expr, Memory>
    ensures { IfOk result (λ e. expr_of e ≡ lowered.compared op (first (map operand_of (into_iter_items args.old))) (second (map operand_of (into_iter_items args.old)))) }
{
    let op = match op {
        Comparison::IEqual => BinOp::Equal,
        Comparison::INotEqual => BinOp::NotEqual,
        // each has an operator
        Comparison::UGreaterThan
        | Comparison::SGreaterThan
        | Comparison::UGreaterThanEqual
        | Comparison::SGreaterThanEqual
        | Comparison::ULessThan
        | Comparison::SLessThan
        | Comparison::ULessThanEqual
        | Comparison::SLessThanEqual => BinOp::Equal,
    };
    compared_as_they_are(alloc, op, args)
}

pub fn comparison(alloc: Global, op: Comparison, args: &mut Args) -> Result<Expr, Memory>
    ensures { IfOk result (λ e. expr_of e ≡ lowered.comparison op (first (map operand_of (into_iter_items args.old))) (second (map operand_of (into_iter_items args.old)))) }
{
    let ty = BasicType {
        elem: Elem::Bool,
        size: None,
    };
    match comparison_operator(op) {
        Some(operator) => operated(alloc, operator, ty, args),
        None => compared(alloc, op, args),
    }
}

pub fn logical(alloc: Global, op: Logical, args: &mut Args) -> Result<Expr, Memory>
    ensures { IfOk result (λ e. expr_of e ≡ lowered.logical op (first (map operand_of (into_iter_items args.old))) (second (map operand_of (into_iter_items args.old)))) }
{
    let op = match op {
        Logical::LogicalEqual => BinOp::Equal,
        Logical::LogicalNotEqual => BinOp::NotEqual,
        Logical::LogicalOr => BinOp::Either,
        Logical::LogicalAnd => BinOp::Both,
    };
    let a = next_operand(args);
    binary(alloc, op, a.expr, next_operand(args).expr)
}

/// The least of the upper bound and the greatest of the operand and the lower bound.
fn clamped(
    alloc: Global,
    ty: BasicType,
    elem: Elem,
    x: Operand,
    low: Operand,
    high: Operand,
) -> Result<Expr, Memory>
    ensures { IfOk result (λ e. expr_of e ≡ converted ty elem (lowered.clamped elem (plain x) (plain low) (plain high))) }
{
    let raised = of_both(alloc, elem, BuiltIn::Max, x, low)?;
    let high = high.into_elem(alloc, elem)?;
    let of = call_two(alloc, BuiltIn::Min, raised, high)?;
    convert(alloc, ty, elem, of)
}

pub fn clamp(alloc: Global, op: Clamp, ty: BasicType, args: &mut Args) -> Result<Expr, Memory>
    ensures { IfOk result (λ e. expr_of e ≡ lowered.clamp op ty (first (map operand_of (into_iter_items args.old))) (second (map operand_of (into_iter_items args.old))) (third (map operand_of (into_iter_items args.old)))) }
{
    let x = next_operand(args);
    let low = next_operand(args);
    let high = next_operand(args);
    match op {
        Clamp::UClamp => clamped(alloc, ty, Elem::Uint, x, low, high),
        Clamp::SClamp => clamped(alloc, ty, Elem::Int, x, low, high),
    }
}

/// A bit field of an operand as components of a type, read with or without a sign.
pub fn extract(alloc: Global, elem: Elem, ty: BasicType, args: &mut Args) -> Result<Expr, Memory>
    ensures { IfOk result (λ e. expr_of e ≡ lowered.extracted elem ty (first (map operand_of (into_iter_items args.old))) (second (map operand_of (into_iter_items args.old))) (third (map operand_of (into_iter_items args.old)))) }
{
    let x = next_elem(alloc, args, elem)?;
    let offset = next_elem(alloc, args, Elem::Int)?;
    let parts = vec![in alloc; x, offset, next_elem(alloc, args, Elem::Int)?]?;
    let of = call_built_in(alloc, BuiltIn::BitfieldExtract, parts)?;
    convert(alloc, ty, elem, of)
}

pub fn insert(alloc: Global, elem: Elem, args: &mut Args) -> Result<Expr, Memory>
    ensures { IfOk result (λ e. expr_of e ≡ lowered.inserted elem (first (map operand_of (into_iter_items args.old))) (second (map operand_of (into_iter_items args.old))) (third (map operand_of (into_iter_items args.old))) (fourth (map operand_of (into_iter_items args.old)))) }
{
    let base = next_elem(alloc, args, elem)?;
    let insert = next_elem(alloc, args, elem)?;
    let offset = next_elem(alloc, args, Elem::Int)?;
    let parts = vec![in alloc; base, insert, offset, next_elem(alloc, args, Elem::Int)?]?;
    call_built_in(alloc, BuiltIn::BitfieldInsert, parts)
}

pub fn logical_not(alloc: Global, args: &mut Args) -> Result<Expr, Memory>
    ensures { IfOk result (λ e. expr_of e ≡ tree.not (first (map operand_of (into_iter_items args.old))).expr) }
{
    not(alloc, next_operand(args).expr)
}

/// A function of an operand as it is.
pub fn function_of_next(alloc: Global, function: BuiltIn, args: &mut Args) -> Result<Expr, Memory>
    ensures { IfOk result (λ e. expr_of e ≡ built_in_called function ((first (map operand_of (into_iter_items args.old))).expr ∷ [])) }
{
    call_one(alloc, function, next_operand(args).expr)
}

pub fn select(alloc: Global, args: &mut Args) -> Result<Expr, Memory>
    ensures { IfOk result (λ e. expr_of e ≡ tree.choose (first (map operand_of (into_iter_items args.old))).expr (second (map operand_of (into_iter_items args.old))).expr (third (map operand_of (into_iter_items args.old))).expr) }
{
    let test = next_operand(args);
    let yes = next_operand(args);
    choose(alloc, test.expr, yes.expr, next_operand(args).expr)
}

/// A value as it is, converted to the type of the result.
pub fn copy(alloc: Global, ty: BasicType, args: &mut Args) -> Result<Expr, Memory>
    ensures { IfOk result (λ e. expr_of e ≡ converted ty (first (map operand_of (into_iter_items args.old))).ty.elem (first (map operand_of (into_iter_items args.old))).expr) }
{
    let a = next_operand(args);
    convert(alloc, ty, a.ty.elem, a.expr)
}

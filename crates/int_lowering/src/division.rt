// Division of numbers with a sign, by the magnitudes of its operands.
ghost use Rattle.std.specs.Prelude.{◌≡◌, IfOk};
ghost use Rattle.glsl_ast.specs.View.{expr_of};
ghost use Rattle.glsl_ast.specs.Tree as tree;
ghost use Rattle.glsl_ast.specs.declared.expressions.BinOp.TheVariants.{Sub, Equal};
ghost use Rattle.spv_module.specs.declared.tree.Elem.TheVariants.{Uint};
ghost use Rattle.int_lowering.specs.Operand.{converted, plain};
ghost use Rattle.int_lowering.specs.Term.{unsigned_literal};
ghost use Rattle.int_lowering.specs.Division as division;

use crate::basic::BasicType;
use crate::operands::Operand;
use crate::terms::{binary, choose, convert, literal};
use glsl_ast::{BinOp, Expr};
use spv_module::Elem;
use spv_words::Memory;
use std::alloc::Global;

/// `(x < 0)`
fn is_negative(alloc: Global, x: &Operand) -> Result<Expr, Memory>
    ensures { IfOk result (λ e. expr_of e ≡ division.is_negative (plain x.now)) }
{
    let left = x.to_elem(alloc, Elem::Int)?;
    binary(alloc, BinOp::Less, left, literal(Elem::Int, 0))
}

/// `(0u - e)`
fn negated(alloc: Global, e: Expr) -> Result<Expr, Memory>
    ensures { IfOk result (λ n. expr_of n ≡ division.negated (expr_of e)) }
{
    binary(alloc, BinOp::Sub, literal(Elem::Uint, 0), e)
}

/// An expression, or it negated where a condition holds.
fn negated_where(alloc: Global, condition: Expr, e: Expr) -> Result<Expr, Memory>
    ensures { IfOk result (λ n. expr_of n ≡ division.negated_where (expr_of condition) (expr_of e)) }
{
    let copy = e.clone_in(alloc)?;
    choose(alloc, condition, negated(alloc, copy)?, e)
}

/// The magnitude of a number with a sign.
pub fn magnitude(alloc: Global, x: &Operand) -> Result<Expr, Memory>
    ensures { IfOk result (λ e. expr_of e ≡ division.magnitude (plain x.now)) }
{
    let condition = is_negative(alloc, x)?;
    negated_where(alloc, condition, x.to_elem(alloc, Elem::Uint)?)
}

fn quotient(alloc: Global, a: &Operand, b: &Operand) -> Result<Expr, Memory>
    ensures { IfOk result (λ e. expr_of e ≡ division.quotient (plain a.now) (plain b.now)) }
{
    let left = magnitude(alloc, a)?;
    binary(alloc, BinOp::Div, left, magnitude(alloc, b)?)
}

fn remainder(alloc: Global, a: &Operand, b: &Operand) -> Result<Expr, Memory>
    ensures { IfOk result (λ e. expr_of e ≡ division.remainder (plain a.now) (plain b.now)) }
{
    let left = magnitude(alloc, a)?;
    binary(alloc, BinOp::Rem, left, magnitude(alloc, b)?)
}

/// How the signs of two numbers compare.
fn compare_signs(alloc: Global, op: BinOp, a: &Operand, b: &Operand) -> Result<Expr, Memory>
    ensures { IfOk result (λ e. expr_of e ≡ division.signs op (plain a.now) (plain b.now)) }
{
    let left = is_negative(alloc, a)?;
    binary(alloc, op, left, is_negative(alloc, b)?)
}

/// The quotient, negative where the signs differ, from the type of the result.
pub fn signed_quotient(
    alloc: Global,
    ty: BasicType,
    a: &Operand,
    b: &Operand,
) -> Result<Expr, Memory>
    ensures { IfOk result (λ e. expr_of e ≡ converted ty Uint (division.signed_quotient (plain a.now) (plain b.now))) }
{
    let differ = compare_signs(alloc, BinOp::NotEqual, a, b)?;
    let of = negated_where(alloc, differ, quotient(alloc, a, b)?)?;
    convert(alloc, ty, Elem::Uint, of)
}

/// The remainder that has the sign of the dividend, from the type of the result.
pub fn signed_remainder(
    alloc: Global,
    ty: BasicType,
    a: &Operand,
    b: &Operand,
) -> Result<Expr, Memory>
    ensures { IfOk result (λ e. expr_of e ≡ converted ty Uint (division.signed_remainder (plain a.now) (plain b.now))) }
{
    let condition = is_negative(alloc, a)?;
    let of = negated_where(alloc, condition, remainder(alloc, a, b)?)?;
    convert(alloc, ty, Elem::Uint, of)
}

/// Whether the remainder is zero.
fn divides(alloc: Global, a: &Operand, b: &Operand) -> Result<Expr, Memory>
    ensures { IfOk result (λ e. expr_of e ≡ tree.binary Equal (division.remainder (plain a.now) (plain b.now)) (unsigned_literal 0)) }
{
    let rest = remainder(alloc, a, b)?;
    binary(alloc, BinOp::Equal, rest, literal(Elem::Uint, 0))
}

fn of_like_signs(alloc: Global, a: &Operand, b: &Operand) -> Result<Expr, Memory>
    ensures { IfOk result (λ e. expr_of e ≡ division.of_like_signs (plain a.now) (plain b.now)) }
{
    let condition = is_negative(alloc, b)?;
    negated_where(alloc, condition, remainder(alloc, a, b)?)
}

/// The remainder less the magnitude of the divisor.
fn below_zero(alloc: Global, a: &Operand, b: &Operand) -> Result<Expr, Memory>
    ensures { IfOk result (λ e. expr_of e ≡ tree.binary Sub (division.remainder (plain a.now) (plain b.now)) (division.magnitude (plain b.now))) }
{
    let rest = remainder(alloc, a, b)?;
    binary(alloc, BinOp::Sub, rest, magnitude(alloc, b)?)
}

/// The magnitude of the divisor less the remainder.
fn above_zero(alloc: Global, a: &Operand, b: &Operand) -> Result<Expr, Memory>
    ensures { IfOk result (λ e. expr_of e ≡ tree.binary Sub (division.magnitude (plain b.now)) (division.remainder (plain a.now) (plain b.now))) }
{
    let divisor = magnitude(alloc, b)?;
    binary(alloc, BinOp::Sub, divisor, remainder(alloc, a, b)?)
}

fn of_unlike_signs(alloc: Global, a: &Operand, b: &Operand) -> Result<Expr, Memory>
    ensures { IfOk result (λ e. expr_of e ≡ division.of_unlike_signs (plain a.now) (plain b.now)) }
{
    let condition = is_negative(alloc, b)?;
    let below = below_zero(alloc, a, b)?;
    choose(alloc, condition, below, above_zero(alloc, a, b)?)
}

/// The remainder that has the sign of the divisor, where it is not zero.
fn of_signs(alloc: Global, a: &Operand, b: &Operand) -> Result<Expr, Memory>
    ensures { IfOk result (λ e. expr_of e ≡ tree.choose (division.signs Equal (plain a.now) (plain b.now)) (division.of_like_signs (plain a.now) (plain b.now)) (division.of_unlike_signs (plain a.now) (plain b.now))) }
{
    let alike = compare_signs(alloc, BinOp::Equal, a, b)?;
    let yes = of_like_signs(alloc, a, b)?;
    choose(alloc, alike, yes, of_unlike_signs(alloc, a, b)?)
}

/// The remainder that has the sign of the divisor, from the type of the result.
pub fn signed_modulo(alloc: Global, ty: BasicType, a: &Operand, b: &Operand) -> Result<Expr, Memory>
    ensures { IfOk result (λ e. expr_of e ≡ converted ty Uint (division.signed_modulo (plain a.now) (plain b.now))) }
{
    let is_zero = divides(alloc, a, b)?;
    let other = of_signs(alloc, a, b)?;
    let of = choose(alloc, is_zero, literal(Elem::Uint, 0), other)?;
    convert(alloc, ty, Elem::Uint, of)
}

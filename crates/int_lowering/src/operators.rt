// The operations that are one operator on two operands.
ghost use Rattle.std.specs.Prelude.{◌≡◌, IfOk};
ghost use Rattle.glsl_ast.specs.View.{expr_of};
ghost use Rattle.int_lowering.specs.Operator as operator;

use crate::basic::BasicType;
use crate::terms::{convert, literal};
use glsl_ast::{BinOp, Expr};
use op_semantics::{Binary, Comparison};
use spv_module::Elem;
use spv_words::Memory;
use std::alloc::Global;

/// An operator on two operands, which are read as components of a type.
#[derive(Clone, Copy)]
pub struct Operator {
    pub op: BinOp,
    pub elem: Elem,
    /// The second operand is an amount to shift by.
    pub shifts: bool,
    /// The result is of that type too, and is converted to the type of the operation's result.
    pub converts: bool,
}

fn plain(op: BinOp, elem: Elem) -> Operator
    ensures { result ≡ operator.plain op elem }
{
    Operator {
        op,
        elem,
        shifts: false,
        converts: false,
    }
}

fn converting(op: BinOp, elem: Elem) -> Operator
    ensures { result ≡ operator.converting op elem }
{
    Operator {
        converts: true,
        ..plain(op, elem)
    }
}

/// A shift, whose result is converted where it is not of the type that the operation has.
fn shifting(op: BinOp, elem: Elem, converts: bool) -> Operator
    ensures { result ≡ operator.shifting op elem converts }
{
    Operator {
        shifts: true,
        converts,
        ..plain(op, elem)
    }
}

/// The operator of an operation on two operands with a result of such components. There is none exactly where the operation is
/// a division with a sign, a minimum or a maximum.
#[inline(always)]
pub fn arithmetic_operator(op: Binary, elem: Elem) -> Option<Operator>
    ensures { result ≡ operator.arithmetic_operator op elem }
{
    match op {
        Binary::IAdd => Some(plain(BinOp::Add, elem)),
        Binary::ISub => Some(plain(BinOp::Sub, elem)),
        Binary::IMul => Some(plain(BinOp::Mul, elem)),
        Binary::UDiv => Some(converting(BinOp::Div, Elem::Uint)),
        Binary::UMod => Some(converting(BinOp::Rem, Elem::Uint)),
        Binary::ShiftRightLogical => Some(shifting(BinOp::Shr, Elem::Uint, true)),
        Binary::ShiftRightArithmetic => Some(shifting(BinOp::Shr, Elem::Int, true)),
        Binary::ShiftLeftLogical => Some(shifting(BinOp::Shl, elem, false)),
        Binary::BitwiseOr => Some(plain(BinOp::Or, elem)),
        Binary::BitwiseXor => Some(plain(BinOp::Xor, elem)),
        Binary::BitwiseAnd => Some(plain(BinOp::And, elem)),
        Binary::SDiv
        | Binary::SRem
        | Binary::SMod
        | Binary::UMin
        | Binary::SMin
        | Binary::UMax
        | Binary::SMax => None,
    }
}

/// The operator of a comparison. There is none exactly where it asks whether two words are equal, or differ.
pub fn comparison_operator(op: Comparison) -> Option<Operator>
    ensures { result ≡ operator.comparison_operator op }
{
    match op {
        Comparison::IEqual | Comparison::INotEqual => None,
        Comparison::UGreaterThan => Some(plain(BinOp::Greater, Elem::Uint)),
        Comparison::SGreaterThan => Some(plain(BinOp::Greater, Elem::Int)),
        Comparison::UGreaterThanEqual => Some(plain(BinOp::GreaterEqual, Elem::Uint)),
        Comparison::SGreaterThanEqual => Some(plain(BinOp::GreaterEqual, Elem::Int)),
        Comparison::ULessThan => Some(plain(BinOp::Less, Elem::Uint)),
        Comparison::SLessThan => Some(plain(BinOp::Less, Elem::Int)),
        Comparison::ULessThanEqual => Some(plain(BinOp::LessEqual, Elem::Uint)),
        Comparison::SLessThanEqual => Some(plain(BinOp::LessEqual, Elem::Int)),
    }
}

/// An expression modulo 32.
#[tactic(auto, using(glsl_ast::proofs::Views::expr_rows))]
pub fn modulo_32(alloc: Global, of: Expr) -> Result<Expr, Memory>
    ensures { IfOk result (λ e. expr_of e ≡ operator.masked (expr_of of)) }
{
    Expr::binary(alloc, BinOp::And, of, literal(Elem::Uint, 31))
}

impl Operator {
    /// The operator over expressions that are read as it reads its operands, as a value of this type.
    #[inline(always)]
    #[tactic(auto, using(glsl_ast::proofs::Views::expr_rows))]
    pub fn over(self, alloc: Global, ty: BasicType, left: Expr, right: Expr) -> Result<Expr, Memory>
        ensures { IfOk result (λ e. expr_of e ≡ operator.over self ty (expr_of left) (expr_of right)) }
    {
        let of = Expr::binary(alloc, self.op, left, right)?;
        if self.converts {
            convert(alloc, ty, self.elem, of)
        } else {
            Ok(of)
        }
    }
}

// Operands, and how they are written where they are wanted as components of another type.
ghost use Rattle.std.specs.Prelude.{◌≡◌, IfOk, map};
ghost use Rattle.std.specs.Vec.Iter.{into_iter_items};
ghost use Rattle.glsl_ast.specs.View.{expr_of};
ghost use Rattle.int_lowering.specs.Operand.{operand_of, plain, as_elem, missing as absent, first, rest};
ghost use Rattle.int_lowering.specs.Operator.{shift_amount as amount_of};

use crate::basic::{BasicType, basic_type, same_elem};
use crate::operators::modulo_32;
use crate::terms::{convert, literal};
use glsl_ast::{Expr, Literal};
use spv_module::{Elem, Shape};
use spv_words::Memory;
use std::alloc::Global;
use std::vec::IntoIter;

/// An operand of an operation: its expression, the shape of its value, and its word where it is a scalar integer constant
/// that prints as a literal.
#[derive(Drop)]
pub struct Arg {
    pub expr: Expr,
    pub shape: Shape,
    pub word: Option<u32>,
}

/// The operands of an operation that are left, in order.
pub type Args = IntoIter<Arg>;

/// The same of an operand that is a scalar or a vector.
#[derive(Drop)]
pub struct Operand {
    pub expr: Expr,
    pub ty: BasicType,
    pub word: Option<u32>,
}

impl Operand {
    #[inline(always)]
    fn new(arg: Arg) -> Operand
        ensures { plain result ≡ operand_of arg }
    {
        Operand {
            ty: basic_type(&arg.shape),
            expr: arg.expr,
            word: arg.word,
        }
    }

    /// `0u`, which an operand that is not there counts as.
    fn missing() -> Operand
        ensures { plain result ≡ absent }
    {
        Operand {
            expr: Expr::Literal(Literal::Uint(0)),
            ty: BasicType {
                elem: Elem::Uint,
                size: None,
            },
            word: None,
        }
    }

    fn copy(&self, alloc: Global) -> Result<Operand, Memory>
        ensures { IfOk result (λ x. plain x ≡ plain self.now) }
    {
        Ok(Operand {
            expr: self.expr.clone_in(alloc)?,
            ty: self.ty,
            word: self.word,
        })
    }

    /// The operand as components of a type: the literal of a constant, else itself or a constructor.
    #[inline(always)]
    pub fn into_elem(self, alloc: Global, elem: Elem) -> Result<Expr, Memory>
        ensures { IfOk result (λ e. expr_of e ≡ as_elem elem (plain self)) }
    {
        match self.word {
            Some(word) => Ok(literal(elem, word)),
            None => {
                let size = self.ty.size;
                convert(alloc, BasicType { elem, size }, self.ty.elem, self.expr)
            }
        }
    }

    /// The same of an operand that is mentioned again.
    pub fn to_elem(&self, alloc: Global, elem: Elem) -> Result<Expr, Memory>
        ensures { IfOk result (λ e. expr_of e ≡ as_elem elem (plain self.now)) }
    {
        self.copy(alloc)?.into_elem(alloc, elem)
    }
}

/// The next operand, or `0u` where none is left.
#[inline(always)]
pub fn next_operand(args: &mut Args) -> Operand
    ensures operand { plain result ≡ first (map operand_of (into_iter_items args.old)) }
    ensures rest { map operand_of (into_iter_items args.new) ≡ rest (map operand_of (into_iter_items args.old)) }
{
    match args.next() {
        Some(arg) => Operand::new(arg),
        None => Operand::missing(),
    }
}

/// The next operand as components of a type.
pub fn next_elem(alloc: Global, args: &mut Args, elem: Elem) -> Result<Expr, Memory>
    ensures operand { IfOk result (λ e. expr_of e ≡ as_elem elem (first (map operand_of (into_iter_items args.old)))) }
    ensures rest { map operand_of (into_iter_items args.new) ≡ rest (map operand_of (into_iter_items args.old)) }
{
    next_operand(args).into_elem(alloc, elem)
}

/// A shift amount: the literal of a constant below 32, else taken modulo 32.
#[inline(always)]
fn shift_amount(alloc: Global, amount: Operand) -> Result<Expr, Memory>
    ensures { IfOk result (λ e. expr_of e ≡ amount_of (plain amount)) }
{
    match amount.word {
        Some(word) if word < 32 => Ok(literal(Elem::Uint, word)),
        _ => modulo_32(alloc, amount.into_elem(alloc, Elem::Uint)?),
    }
}

/// The next operand as a shift amount.
pub fn next_amount(alloc: Global, args: &mut Args) -> Result<Expr, Memory>
    ensures operand { IfOk result (λ e. expr_of e ≡ amount_of (first (map operand_of (into_iter_items args.old)))) }
    ensures rest { map operand_of (into_iter_items args.new) ≡ rest (map operand_of (into_iter_items args.old)) }
{
    shift_amount(alloc, next_operand(args))
}

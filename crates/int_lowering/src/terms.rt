// Expressions, over expressions that are at hand.
ghost use Rattle.std.specs.Prelude.{◌≡◌, ◌∷◌, [], IfOk};
ghost use Rattle.glsl_ast.specs.View.{expr_of};
ghost use Rattle.glsl_ast.specs.Tree as tree;
ghost use Rattle.int_lowering.specs.Operand.{literal_of, constructed, converted};
ghost use Rattle.int_lowering.specs.Term.{call_built_in as built_in_called};

use crate::basic::{BasicType, same_elem, type_name};
use crate::built_ins::{BuiltIn, call_built_in};
use glsl_ast::{BinOp, Expr, Literal};
use spv_module::Elem;
use spv_words::Memory;
use std::alloc::Global;

/// The literal of a word (GLSL 4.60, section 4.1.3): decimal, of an int with its top bit set hexadecimal, and of a bool `true`
/// where the word is not 0.
#[tactic(auto, using(glsl_ast::proofs::Views::expr_rows))]
pub fn literal(elem: Elem, word: u32) -> Expr
    ensures { expr_of result ≡ tree.literal (literal_of elem word) }
{
    Expr::Literal(match elem {
        Elem::Bool => Literal::Truth(word != 0),
        Elem::Int if word < 1 << 31 => Literal::Int(word),
        Elem::Int => Literal::Hex(word),
        Elem::Uint => Literal::Uint(word),
    })
}

#[tactic(auto, using(glsl_ast::proofs::Views::expr_rows))]
pub fn binary(alloc: Global, op: BinOp, left: Expr, right: Expr) -> Result<Expr, Memory>
    ensures { IfOk result (λ e. expr_of e ≡ tree.binary op (expr_of left) (expr_of right)) }
{
    Expr::binary(alloc, op, left, right)
}

#[tactic(auto, using(glsl_ast::proofs::Views::expr_rows))]
pub fn not(alloc: Global, of: Expr) -> Result<Expr, Memory>
    ensures { IfOk result (λ e. expr_of e ≡ tree.not (expr_of of)) }
{
    Ok(Expr::Not(Box::new(alloc, of)?))
}

#[tactic(auto, using(glsl_ast::proofs::Views::expr_rows))]
pub fn flip(alloc: Global, of: Expr) -> Result<Expr, Memory>
    ensures { IfOk result (λ e. expr_of e ≡ tree.flip (expr_of of)) }
{
    Ok(Expr::Flip(Box::new(alloc, of)?))
}

#[tactic(auto, using(glsl_ast::proofs::Views::expr_rows))]
pub fn choose(alloc: Global, test: Expr, yes: Expr, no: Expr) -> Result<Expr, Memory>
    ensures { IfOk result (λ e. expr_of e ≡ tree.choose (expr_of test) (expr_of yes) (expr_of no)) }
{
    Expr::choose(alloc, test, yes, no)
}

pub fn call_one(alloc: Global, function: BuiltIn, arg: Expr) -> Result<Expr, Memory>
    ensures { IfOk result (λ e. expr_of e ≡ built_in_called function (expr_of arg ∷ [])) }
{
    call_built_in(alloc, function, vec![in alloc; arg]?)
}

pub fn call_two(alloc: Global, function: BuiltIn, a: Expr, b: Expr) -> Result<Expr, Memory>
    ensures { IfOk result (λ e. expr_of e ≡ built_in_called function (expr_of a ∷ expr_of b ∷ [])) }
{
    call_built_in(alloc, function, vec![in alloc; a, b]?)
}

/// A constructor of one argument.
#[tactic(auto, using(glsl_ast::proofs::Views::expr_rows))]
fn construct(alloc: Global, ty: BasicType, of: Expr) -> Result<Expr, Memory>
    ensures { IfOk result (λ e. expr_of e ≡ constructed ty (expr_of of)) }
{
    Expr::build(alloc, type_name(alloc, ty), vec![in alloc; of]?)
}

/// An expression whose components are of one type, as a value of another type.
#[inline(always)]
pub fn convert(alloc: Global, ty: BasicType, from: Elem, of: Expr) -> Result<Expr, Memory>
    ensures { IfOk result (λ e. expr_of e ≡ converted ty from (expr_of of)) }
{
    if same_elem(ty.elem, from) {
        Ok(of)
    } else {
        construct(alloc, ty, of)
    }
}

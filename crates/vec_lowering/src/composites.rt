// Vectors, arrays and structs, made of parts and taken apart.
ghost use Rattle.std.specs.Prelude.{◌≡◌, IfOk, map};
ghost use Rattle.std.specs.Vec.Iter.{into_iter_items};
ghost use Rattle.spv_types.specs.View.{tree_of, trees_of};
ghost use Rattle.glsl_ast.specs.View.{expr_of};
ghost use Rattle.glsl_ast.specs.Tree.{Expr as Tree};
ghost use Rattle.vec_lowering.specs.Named.{naming_of};
ghost use Rattle.vec_lowering.specs.Named.{text_or_none};
ghost use Rattle.vec_lowering.specs.Composite as composite;

use crate::components::axis;
use crate::names::{name, shape_type};
use glsl_ast::{Expr, Literal};
use int_lowering::{Arg, basic_type, literal};
use name_alloc::{Key, Names};
use spv_module::{Elem, Shape};
use spv_words::Memory;
use std::alloc::Global;
use std::vec::IntoIter;

/// The next operand, or `0u` where none is left.
pub fn next_arg(args: &mut IntoIter<Arg>) -> Arg
    ensures argument { composite.argument_of result ≡ composite.first_of (map composite.argument_of (into_iter_items args.old)) }
    ensures rest { map composite.argument_of (into_iter_items args.new) ≡ composite.rest_of (map composite.argument_of (into_iter_items args.old)) }
{
    match args.next() {
        Some(arg) => arg,
        None => Arg {
            expr: Expr::Literal(Literal::Uint(0)),
            shape: Shape::Uint,
            word: None,
        },
    }
}

/// A constructor of the operands.
#[tactic(auto, using(glsl_ast::proofs::Views::expr_rows))]
pub fn construct(
    alloc: Global,
    names: &Names,
    shape: &Shape,
    args: Vec<Arg>,
) -> Result<Expr, Memory>
    ensures { IfOk result (λ e. expr_of e ≡ composite.constructed (naming_of names.now) (tree_of shape.now) (map composite.argument_of args.items)) }
{
    let mut parts = Vec::with_capacity(alloc, args.len())?;
    for arg in args {
        parts.push(arg.expr)?;
    }
    Expr::build(alloc, shape_type(alloc, names, shape)?, parts)
}

#[tactic(auto, using(glsl_ast::proofs::Views::expr_rows))]
pub fn member(alloc: Global, names: &Names, of: Expr, key: Key) -> Result<Expr, Memory>
    ensures { IfOk result (λ e. expr_of e ≡ Tree.member (expr_of of) (text_or_none (naming_of names.now key))) }
{
    Expr::member(alloc, of, name(alloc, names, key)?)
}

#[tactic(auto, using(glsl_ast::proofs::Views::expr_rows))]
pub fn index(alloc: Global, of: Expr, at: Expr) -> Result<Expr, Memory>
    ensures { IfOk result (λ e. expr_of e ≡ Tree.index (expr_of of) (expr_of at)) }
{
    let of = Box::new(alloc, of)?;
    Ok(Expr::Index(of, Box::new(alloc, at)?))
}

/// An element of an array.
#[tactic(auto, using(glsl_ast::proofs::Views::expr_rows))]
pub fn element(alloc: Global, of: Expr, at: u32) -> Result<Expr, Memory>
    ensures { IfOk result (λ e. expr_of e ≡ composite.element (expr_of of) at) }
{
    index(alloc, of, Expr::Literal(Literal::Int(at)))
}

/// The shape of a struct's member, and another past them.
#[tactic(auto, using(crate::proofs::Parts::nth_rules))]
pub fn nth_or<'a>(parts: &'a [Shape], k: usize, other: &'a Shape) -> &'a Shape
    ensures { tree_of result.now ≡ composite.nth_or (trees_of parts.now) k (tree_of other.now) }
{
    if k < parts.len() { &parts[k] } else { other }
}

/// The part of a value that indexes lead to, by the shape of the value.
#[tactic(auto, using(spv_types::proofs::Views::shape_rows))]
pub fn extract(
    alloc: Global,
    names: &Names,
    shape: &Shape,
    indexes: &[u32],
    of: Expr,
) -> Result<Expr, Memory>
    ensures { IfOk result (λ e. expr_of e ≡ composite.extracted (naming_of names.now) (tree_of shape.now) indexes.now (expr_of of)) }
{
    let [at, rest @ ..] = indexes else {
        return Ok(of);
    };
    match shape {
        Shape::Bool | Shape::Int | Shape::Uint => Ok(of),
        Shape::Vector(_, _) => axis(alloc, of, *at),
        Shape::Array(part, _) | Shape::Runtime(part) => {
            let of = element(alloc, of, *at)?;
            extract(alloc, names, part, rest, of)
        }
        Shape::Struct(id, members) => {
            let of = member(alloc, names, of, Key::Member(*id, *at))?;
            let none = Shape::Bool;
            extract(alloc, names, nth_or(members, *at as usize, &none), rest, of)
        }
    }
}

/// How many components a vector has.
fn vector_size(shape: &Shape) -> u8
    ensures { result ≡ composite.vector_size (tree_of shape.now) }
{
    match basic_type(shape).size {
        None => 0,
        Some(size) => size,
    }
}

/// The component that a number picks of two vectors.
fn pick(alloc: Global, elem: Elem, a: &Arg, b: &Arg, k: u32) -> Result<Expr, Memory>
    ensures { IfOk result (λ e. expr_of e ≡ composite.picked elem (composite.argument_of a.now) (composite.argument_of b.now) k) }
{
    let size = u32::from(vector_size(&a.shape));
    if k == u32::MAX {
        Ok(literal(elem, 0))
    } else if k < size {
        axis(alloc, a.expr.clone_in(alloc)?, k)
    } else {
        axis(alloc, b.expr.clone_in(alloc)?, k - size)
    }
}

/// A vector of the components that numbers pick of two vectors.
#[tactic(auto, using(glsl_ast::proofs::Views::expr_rows))]
pub fn shuffle(
    alloc: Global,
    names: &Names,
    shape: &Shape,
    picks: &[u32],
    a: &Arg,
    b: &Arg,
) -> Result<Expr, Memory>
    ensures { IfOk result (λ e. expr_of e ≡ composite.shuffled (naming_of names.now) (tree_of shape.now) picks.now (composite.argument_of a.now) (composite.argument_of b.now)) }
{
    let elem = basic_type(shape).elem;
    let mut parts = Vec::with_capacity(alloc, picks.len())?;
    for k in picks {
        parts.push(pick(alloc, elem, a, b, *k)?)?;
    }
    Expr::build(alloc, shape_type(alloc, names, shape)?, parts)
}

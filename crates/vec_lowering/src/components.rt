// Operations on vectors, written on vectors or component by component.
ghost use Rattle.std.specs.Prelude.{◌≡◌, IfOk, map};
ghost use Rattle.spv_types.specs.View.{tree_of};
ghost use Rattle.glsl_ast.specs.View.{expr_of};
ghost use Rattle.glsl_ast.specs.Tree.{Expr as Tree};
ghost use Rattle.int_lowering.specs.Operand.{operand_of, basic_type as basic_type_of, scalar, first};
ghost use Rattle.vec_lowering.specs.Component as component;

use glsl_ast::{Expr, Name};
use int_lowering::{Arg, BasicType, arithmetic_operator, basic_type, lower_operation, type_name};
use op_semantics::{Binary, Operation, Unary};
use spv_module::{Elem, Shape};
use spv_words::Memory;
use std::alloc::Global;

/// The name of a component of a vector, by its number (GLSL 4.60, section 5.5). From 3 on it is that of the last.
#[tactic(auto, unfolding(crate::specs::Component::axis_name))]
pub fn axis_text(k: u32) -> &'static str
    ensures { result.now ≡ component.axis_name k }
{
    match k {
        0 => "x",
        1 => "y",
        2 => "z",
        _ => "w",
    }
}

/// A component of a vector.
#[tactic(auto, using(glsl_ast::proofs::Views::expr_rows))]
pub fn axis(alloc: Global, of: Expr, k: u32) -> Result<Expr, Memory>
    ensures { IfOk result (λ e. expr_of e ≡ Tree.member (expr_of of) (component.axis_name k)) }
{
    let name = Name::from_str(alloc, axis_text(k))?;
    Expr::member(alloc, of, name)
}

#[tactic(auto, using(spv_types::proofs::Views::shape_rows))]
fn scalar_shape(elem: Elem) -> Shape
    ensures { basic_type_of (tree_of result) ≡ scalar elem }
{
    match elem {
        Elem::Bool => Shape::Bool,
        Elem::Int => Shape::Int,
        Elem::Uint => Shape::Uint,
    }
}

/// A component of an operand, and a scalar operand as it is.
fn component(alloc: Global, arg: &Arg, k: u32) -> Result<Arg, Memory>
    ensures { IfOk result (λ a. operand_of a ≡ component.component k (operand_of arg.now)) }
{
    let ty = basic_type(&arg.shape);
    let shape = scalar_shape(ty.elem);
    let expr = arg.expr.clone_in(alloc)?;
    match ty.size {
        None => Ok(Arg {
            expr,
            shape,
            word: arg.word,
        }),
        Some(_) => Ok(Arg {
            expr: axis(alloc, expr, k)?,
            shape,
            word: None,
        }),
    }
}

fn components(alloc: Global, args: &[Arg], k: u32) -> Result<Vec<Arg>, Memory>
    ensures { IfOk result (λ parts. map operand_of parts.items ≡ map (component.component k) (map operand_of args.now)) }
{
    let mut parts = Vec::with_capacity(alloc, args.len())?;
    for arg in args {
        parts.push(component(alloc, arg, k)?)?;
    }
    Ok(parts)
}

/// A constructor of the operation's components.
#[inline(never)]
#[tactic(auto, using(glsl_ast::proofs::Views::expr_rows))]
fn by_component(
    alloc: Global,
    operation: Operation,
    elem: Elem,
    size: u8,
    args: &[Arg],
) -> Result<Expr, Memory>
    ensures { IfOk result (λ e. expr_of e ≡ component.by_component operation elem size (map operand_of args.now)) }
{
    let mut parts = Vec::with_capacity(alloc, usize::from(size))?;
    for k in 0..size {
        let args = components(alloc, args, u32::from(k))?;
        let ty = BasicType { elem, size: None };
        parts.push(lower_operation(alloc, operation, ty, args)?)?;
    }
    let size = Some(size);
    Expr::build(alloc, type_name(alloc, BasicType { elem, size }), parts)
}

/// The operation is one operator, which GLSL has on vectors too (GLSL 4.60, section 5.9).
fn is_operator(op: Binary) -> bool
    ensures { result ≡ component.is_operator op }
{
    arithmetic_operator(op, Elem::Uint).is_some()
}

/// An operation is written on vectors as on scalars, where its first operand is of this type.
fn is_alike(operation: Operation, ty: BasicType) -> bool
    ensures { result ≡ component.is_alike operation ty }
{
    match operation {
        Operation::Unary(Unary::SNegate | Unary::Not) | Operation::Copy => true,
        Operation::Binary(op) => is_operator(op),
        Operation::Select => ty.size.is_none(),
        _ => false,
    }
}

/// The type of the first operand, and uint where there is none.
fn first_type(args: &[Arg]) -> BasicType
    ensures { result ≡ (first (map operand_of args.now)).ty }
{
    match args {
        [] => BasicType {
            elem: Elem::Uint,
            size: None,
        },
        [arg, ..] => basic_type(&arg.shape),
    }
}

/// An operation with a result of a basic type.
#[inline(always)]
pub fn on_basic(
    alloc: Global,
    operation: Operation,
    ty: BasicType,
    args: Vec<Arg>,
) -> Result<Expr, Memory>
    ensures { IfOk result (λ e. expr_of e ≡ component.on_basic operation ty (map operand_of args.items)) }
{
    match ty.size {
        Some(size) if !is_alike(operation, first_type(&args)) => {
            by_component(alloc, operation, ty.elem, size, &args)
        }
        _ => lower_operation(alloc, operation, ty, args),
    }
}

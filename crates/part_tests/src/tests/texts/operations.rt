// Operations as text.
use super::printed::const_text;
use glsl_ast::{Expr, Name};
use int_lowering::{
    Arg, BasicType, basic_type, literal, lower, lower_operation, operation, type_name,
};
use op_semantics::{Operation, Unary};
use spv_module::{Elem, Shape};
use spv_ops::Op;
use spv_words::Memory;
use std::alloc::Global;
use std::test::Fail;

fn variable(alloc: Global, name: &str, shape: Shape) -> Result<Arg, Memory> {
    let expr = Expr::Name(Name::from_str(alloc, name)?);
    let word = None;
    Ok(Arg { expr, shape, word })
}

fn constant(elem: Elem, shape: Shape, word: u32) -> Arg {
    let expr = literal(elem, word);
    let word = Some(word);
    Arg { expr, shape, word }
}

// The text of a constant of this type with the expression.
fn text_of(alloc: Global, ty: BasicType, expr: Expr) -> Result<Vec<u8>, Fail> {
    const_text(alloc, type_name(alloc, ty).base, expr)
}

// An operation of GLSL.std.450 on two operands, as text.
fn extended(alloc: Global, ext: u32, left: Arg, right: Arg) -> Result<Vec<u8>, Fail> {
    let args = vec![in alloc; left, right]?;
    let expr = lower(alloc, Op::ExtInst, ext, Elem::Uint, args)?;
    text_of(alloc, basic_type(&Shape::Uint), expr)
}

#[test]
fn an_operation_as_text(rt: HostRuntime) -> Result<(), Fail> {
    let v20 = variable(rt.alloc(), "v20", Shape::Uint)?;
    let minus_7 = constant(Elem::Int, Shape::Int, 0xffff_fff9);
    let text = extended(rt.alloc(), 42, v20, minus_7)?;
    assert!(rt; text.ends_with(b"const uint c = uint(max(int(v20), 0xFFFFFFF9));\n"));
    Ok(())
}

// An operation on one vector, as text.
fn on_vector(alloc: Global, op: Operation, shape: &Shape, arg: Arg) -> Result<Vec<u8>, Fail> {
    let args = vec![in alloc; arg]?;
    let expr = lower_operation(alloc, op, basic_type(shape), args)?;
    text_of(alloc, basic_type(shape), expr)
}

#[test]
fn an_operation_on_vectors(rt: HostRuntime) -> Result<(), Fail> {
    let shape = Shape::Vector(Elem::Int, 2);
    let v = variable(rt.alloc(), "v", Shape::Vector(Elem::Int, 2))?;
    let text = on_vector(rt.alloc(), Operation::Unary(Unary::Not), &shape, v)?;
    assert!(rt; text.ends_with(b"const ivec2 c = ~v;\n"));
    Ok(())
}

fn is_find_msb(op: Op, ext: u32) -> bool {
    operation(op, ext) == Some(Operation::Unary(Unary::FindSMsb))
}

#[test]
fn an_extended_operation(rt: HostRuntime) {
    assert!(rt; is_find_msb(Op::ExtInst, 74));
}

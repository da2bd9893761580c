// Copies of a value to a type with other structs.
ghost use Rattle.std.specs.Prelude.{◌≡◌, ◌<◌, ◌^◌, IfOk, length, map};
ghost use Rattle.spv_types.specs.Tree.{array};
ghost use Rattle.spv_module.specs.declared.tree.Length.TheVariants.{Fixed};
ghost use Rattle.spv_types.specs.View.{tree_of, trees_of};
ghost use Rattle.few_law.specs.Few.{HasFewMembers, HaveFewMembers};
ghost use Rattle.glsl_ast.specs.View.{expr_of, exprs_of};
ghost use Rattle.vec_lowering.specs.Named.{naming_of};
ghost use Rattle.vec_lowering.specs.Component.{each_below};
ghost use Rattle.vec_lowering.specs.Composite as composite;

use crate::composites::{element, member, nth_or};
use crate::names::{array_type, shape_type};
use glsl_ast::Expr;
use name_alloc::{Key, Names};
use spv_module::{Id, Length, Shape};
use spv_words::Memory;
use std::alloc::Global;

/// A struct stands in the shape.
#[tactic(auto, using(spv_types::proofs::Views::shape_rows))]
fn has_struct(shape: &Shape) -> bool
    ensures { result ≡ composite.has_struct (tree_of shape.now) }
{
    match shape {
        Shape::Bool | Shape::Int | Shape::Uint | Shape::Vector(_, _) => false,
        Shape::Array(part, _) | Shape::Runtime(part) => has_struct(part),
        Shape::Struct(_, _) => true,
    }
}

/// What an array is an array of, and another shape itself.
#[tactic(auto, using(spv_types::proofs::Views::shape_rows))]
fn array_part(shape: &Shape) -> &Shape
    ensures { tree_of result.now ≡ composite.array_part (tree_of shape.now) }
{
    match shape {
        Shape::Array(part, _) => part,
        _ => shape,
    }
}

/// The id of a struct.
#[tactic(auto, using(spv_types::proofs::Views::shape_rows))]
fn struct_id(shape: &Shape) -> u32
    ensures { result ≡ composite.struct_id (tree_of shape.now) }
{
    match shape {
        Shape::Struct(id, _) => id.0,
        _ => 0,
    }
}

/// The members of a struct.
#[tactic(auto, using(spv_types::proofs::Views::shape_rows))]
fn struct_parts(shape: &Shape) -> &[Shape]
    ensures { trees_of result.now ≡ composite.struct_parts (tree_of shape.now) }
{
    match shape {
        Shape::Struct(_, members) => members,
        _ => &[],
    }
}

/// How many elements an array has, and none where its length is a specialization constant.
fn fixed_length(length: Length) -> u32
    ensures { result ≡ composite.fixed_length length }
{
    match length {
        Length::Fixed(length) => length,
        Length::Spec(_) => 0,
    }
}

/// A member of a struct, by its place.
fn member_at(alloc: Global, names: &Names, of: &Expr, id: u32, at: u32) -> Result<Expr, Memory>
    ensures { IfOk result (λ e. expr_of e ≡ composite.member_of (naming_of names.now) (expr_of of.now) id at) }
{
    let of = of.clone_in(alloc)?;
    member(alloc, names, of, Key::Member(Id(id), at))
}

/// The value as one of a shape with other structs, from the shape that it has: constructors, and parts without a struct as
/// they are (SPIR-V 1.6, OpCopyLogical). Members are numbered by words. There is an error only for want of memory.
#[cycle(copying)]
#[tactic(auto, using(spv_types::proofs::Views::shape_rows, glsl_ast::proofs::Views::expr_rows))]
pub fn copy(
    alloc: Global,
    names: &Names,
    shape: &Shape,
    from: &Shape,
    of: Expr,
) -> Result<Expr, Memory>
    requires { HasFewMembers (tree_of shape.now) }
    ensures { IfOk result (λ e. expr_of e ≡ composite.copied (naming_of names.now) (tree_of shape.now) (tree_of from.now) (expr_of of)) }
{
    match shape {
        Shape::Array(part, length) => copy_array(alloc, names, part, *length, from, of),
        Shape::Struct(_, members) => {
            let parts = copy_members(alloc, names, members, from, &of)?;
            Expr::build(alloc, shape_type(alloc, names, shape)?, parts)
        }
        Shape::Bool | Shape::Int | Shape::Uint | Shape::Vector(_, _) | Shape::Runtime(_) => Ok(of),
    }
}

#[cycle(copying)]
#[tactic(auto, using(glsl_ast::proofs::Views::expr_rows))]
fn copy_array(
    alloc: Global,
    names: &Names,
    part: &Shape,
    length: Length,
    from: &Shape,
    of: Expr,
) -> Result<Expr, Memory>
    requires { HasFewMembers (tree_of part.now) }
    ensures { IfOk result (λ e. expr_of e ≡ composite.copied (naming_of names.now) (array (tree_of part.now) length) (tree_of from.now) (expr_of of)) }
{
    if !has_struct(part) {
        return Ok(of);
    }
    let count = fixed_length(length);
    let parts = copy_elements(alloc, names, part, count, array_part(from), &of)?;
    Expr::build(alloc, array_type(alloc, names, part, length)?, parts)
}

#[cycle(copying)]
fn copy_elements(
    alloc: Global,
    names: &Names,
    part: &Shape,
    count: u32,
    from: &Shape,
    of: &Expr,
) -> Result<Vec<Expr>, Memory>
    requires { HasFewMembers (tree_of part.now) }
    ensures { IfOk result (λ parts. map expr_of parts.items ≡ each_below count (λ k. composite.copied (naming_of names.now) (tree_of part.now) (tree_of from.now) (composite.element (expr_of of.now) k))) }
{
    let mut parts = Vec::new(alloc);
    for k in 0..count {
        let of = element(alloc, of.clone_in(alloc)?, k)?;
        parts.push(copy(alloc, names, part, from, of)?)?;
    }
    Ok(parts)
}

#[cycle(copying)]
#[tactic(auto, using(crate::proofs::Parts::copy_rules, spv_types::proofs::Heads::member_smaller, few_law::proofs::Shapes::member_few, spv_types::proofs::Views::shape_rows))]
fn copy_members(
    alloc: Global,
    names: &Names,
    members: &[Shape],
    from: &Shape,
    of: &Expr,
) -> Result<Vec<Expr>, Memory>
    requires few { length members.now < 2 ^ 32 }
    requires each { HaveFewMembers (trees_of members.now) }
    ensures { IfOk result (λ parts. exprs_of parts.items ≡ composite.copied_parts (naming_of names.now) (trees_of members.now) (composite.struct_id (tree_of from.now)) (composite.struct_parts (tree_of from.now)) 0 (expr_of of.now)) }
{
    let mut parts = Vec::new(alloc);
    for (k, part) in members.iter().enumerate() {
        let none = Shape::Bool;
        let of = member_at(alloc, names, of, struct_id(from), k as u32)?;
        let from = nth_or(struct_parts(from), k, &none);
        parts.push(copy(alloc, names, part, from, of)?)?;
    }
    Ok(parts)
}

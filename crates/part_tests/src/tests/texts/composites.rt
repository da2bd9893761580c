// Expressions on vectors and composites, with ample memory.
ghost use Rattle.std.specs.Prelude.{◌≡◌, IfOk};
ghost use Rattle.spv_types.specs.Tree.{uint, struct, no_trees, tree};
ghost use Rattle.spv_types.specs.View.{tree_of};

use super::names::{is_name, named};
use glsl_ast::{Base, Expr, Extent, Name, TypeName};
use int_lowering::Arg;
use name_alloc::{Key, Names};
use op_semantics::NOT_EXTENDED;
use spv_module::{Id, Length, Shape};
use spv_ops::Op;
use spv_words::Memory;
use std::alloc::{AllocError, Global};
use std::test::Fail;
use vec_lowering::{lower_vector, shape_type};

// Names of the structs 3 and 21 and their members.
static ITEMS: [(Key, &str); 4] = [
    (Key::Id(Id(3)), "Item"),
    (Key::Id(Id(21)), "Item"),
    (Key::Member(Id(3), 0), "key"),
    (Key::Member(Id(3), 1), "sum"),
];

#[tactic(auto, using(spv_types::proofs::Views::shape_rows))]
fn item(alloc: Global, id: u32) -> Result<Shape, AllocError>
    ensures { IfOk result (λ s. tree_of s ≡ struct id (tree uint (tree uint no_trees))) }
{
    let members = vec![in alloc; Shape::Uint, Shape::Uint]?;
    Ok(Shape::Struct(Id(id), members))
}

fn variable(alloc: Global, name: &str, shape: Shape) -> Result<Vec<Arg>, Memory> {
    let expr = Expr::Name(Name::from_str(alloc, name)?);
    let word = None;
    Ok(vec![in alloc; Arg { expr, shape, word }]?)
}

// The struct %3 in the variable `v53`, made into a struct with this id.
fn lowered(alloc: Global, names: &Names, op: Op, id: u32) -> Result<Expr, Memory> {
    let args = variable(alloc, "v53", item(alloc, 3)?)?;
    lower_vector(alloc, op, NOT_EXTENDED, item(alloc, id)?, args, &[], names)
}

fn is_struct(ty: &TypeName, wanted: &str) -> bool {
    match &ty.base {
        Base::Struct(name) => name.as_str() == wanted,
        _ => false,
    }
}

fn is_member(of: &Expr, base: &str, member: &str) -> bool {
    match of {
        Expr::Member(parts) => is_name(&parts.0, base) && parts.1.as_str() == member,
        _ => false,
    }
}

fn is_copy(expr: &Expr) -> bool {
    match expr {
        Expr::Build(parts) => match parts.1.as_slice() {
            [key, sum] => {
                is_struct(&parts.0, "Item_2")
                    && is_member(key, "v53", "key")
                    && is_member(sum, "v53", "sum")
            }
            _ => false,
        },
        _ => false,
    }
}

#[test]
fn a_struct_is_copied(rt: HostRuntime) -> Result<(), Fail> {
    let names = named(rt.alloc(), &ITEMS)?;
    let copy = lowered(rt.alloc(), &names, Op::CopyLogical, 21)?;
    assert!(rt; is_copy(&copy));
    Ok(())
}

fn array(alloc: Global, part: Shape, length: u32) -> Result<Shape, AllocError> {
    Ok(Shape::Array(Box::new(alloc, part)?, Length::Fixed(length)))
}

fn type_of(alloc: Global, names: &Names, shape: &Shape) -> Result<TypeName, Memory> {
    shape_type(alloc, names, shape)
}

#[test]
fn a_type_of_arrays(rt: HostRuntime) -> Result<(), Fail> {
    let names = named(rt.alloc(), &ITEMS)?;
    let shape = array(rt.alloc(), array(rt.alloc(), Shape::Uint, 2)?, 3)?;
    let ty = type_of(rt.alloc(), &names, &shape)?;
    assert!(rt;
        matches!(
            ty.extents.as_slice(),
            [Extent::Number(3), Extent::Number(2)]
        )
    );
    Ok(())
}

// The types of scalars and vectors.
ghost use Rattle.std.specs.Prelude.{◌≡◌};
ghost use Rattle.spv_types.specs.View.{tree_of};
ghost use Rattle.glsl_ast.specs.View.{base_of, type_of};
ghost use Rattle.int_lowering.specs.Operand.{basic_type as basic_type_of, base_named, type_named, same_elem as is_same_elem};

use glsl_ast::{Base, TypeName};
use spv_module::{Elem, Shape};
use std::alloc::Global;

/// A scalar type, or a vector type with its number of components (GLSL 4.60, section 4.1).
#[derive(Clone, Copy, Debug, PartialEq, Eq)]
pub struct BasicType {
    pub elem: Elem,
    pub size: Option<u8>,
}

/// The type of a shape, and bool where the shape is neither a scalar's nor a vector's.
#[tactic(auto, using(spv_types::proofs::Views::shape_rows))]
pub fn basic_type(shape: &Shape) -> BasicType
    ensures { result ≡ basic_type_of (tree_of shape.now) }
{
    let (elem, size) = match shape {
        Shape::Int => (Elem::Int, None),
        Shape::Uint => (Elem::Uint, None),
        Shape::Vector(elem, size) => (*elem, Some(*size)),
        Shape::Bool | Shape::Array(_, _) | Shape::Runtime(_) | Shape::Struct(_, _) => {
            (Elem::Bool, None)
        }
    };
    BasicType { elem, size }
}

/// How a type is spelled where it is no array.
fn base(ty: BasicType) -> Base
    ensures { base_of result ≡ base_named ty.elem ty.size }
{
    match (ty.elem, ty.size) {
        (Elem::Bool, None) => Base::Bool,
        (Elem::Int, None) => Base::Int,
        (Elem::Uint, None) => Base::Uint,
        (Elem::Bool, Some(size)) => Base::BoolVec(size),
        (Elem::Int, Some(size)) => Base::IntVec(size),
        (Elem::Uint, Some(size)) => Base::UintVec(size),
    }
}

/// The name of a type, as `uint` or `ivec3`.
pub fn type_name(alloc: Global, ty: BasicType) -> TypeName
    ensures { type_of result ≡ type_named ty }
{
    TypeName {
        base: base(ty),
        extents: Vec::new(alloc),
    }
}

pub(crate) fn same_elem(a: Elem, b: Elem) -> bool
    ensures { result ≡ is_same_elem a b }
{
    a == b
}

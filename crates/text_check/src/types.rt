// Types, and numbers.
ghost use Rattle.std.specs.Prelude.{◌≡◌};
ghost use Rattle.std.specs.List.{list_all};
ghost use Rattle.glsl_ast.specs.View.{base_of, extent_of, type_of};
ghost use Rattle.text_check.specs.Parts as test;
ghost use Rattle.text_check.specs.Words.{declares};

use crate::names::{Structs, is_declared, is_name};
use glsl_ast::{Base, Extent, Literal, TypeName};

/// Whether a text can spell the number, as it can each number of this type.
pub fn is_spelled(number: u32) -> bool
    ensures { result ≡ test.is_spelled number }
{
    number <= u32::MAX
}

/// Whether the number of the literal is spelled.
pub fn is_literal(literal: Literal) -> bool
    ensures { result ≡ test.is_literal literal }
{
    match literal {
        Literal::Int(number) | Literal::Uint(number) | Literal::Hex(number) => is_spelled(number),
        Literal::Truth(_) => true,
    }
}

fn is_extent(extent: &Extent) -> bool
    ensures { result ≡ test.is_extent (extent_of extent.now) }
{
    match extent {
        Extent::Open => true,
        Extent::Number(length) => is_spelled(*length),
        Extent::Name(name) => is_name(name),
        Extent::Size(axis) => is_name(axis),
    }
}

#[inline(always)]
fn are_extents(extents: &[Extent]) -> bool
    ensures { result ≡ list_all (λ e. test.is_extent (extent_of e)) extents.now }
{
    extents.iter().all(is_extent)
}

/// Whether a vector may have so many components (GLSL 4.60, section 4.1.5).
fn is_vector_size(size: u8) -> bool
    ensures { result ≡ test.is_vector_size size }
{
    2 <= size && size <= 4
}

/// Whether the type is one of the grammar, or a struct that is declared.
fn is_base(structs: &Structs, base: &Base) -> bool
    ensures { result ≡ test.is_base (declares structs.now) (base_of base.now) }
{
    match base {
        Base::Bool | Base::Int | Base::Uint => true,
        Base::BoolVec(size) | Base::IntVec(size) | Base::UintVec(size) => is_vector_size(*size),
        Base::Struct(name) => is_name(name) && is_declared(structs, name),
    }
}

/// Whether the type is in the grammar, where these structs are declared.
#[inline(always)]
#[tactic(auto, using(crate::proofs::Lists::list_rules))]
pub fn is_type(structs: &Structs, ty: &TypeName) -> bool
    ensures { result ≡ test.is_type (declares structs.now) (type_of ty.now) }
{
    is_base(structs, &ty.base) && are_extents(&ty.extents)
}

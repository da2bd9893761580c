// Scalar and vector types.
ghost use Rattle.std.specs.Prelude.{◌≡◌, option_and_then, slice_index};
ghost use Rattle.glsl_ast.specs.View.{base_of};
ghost use Rattle.spv_types.specs.View.{tree_of};
ghost use Rattle.spv_types.specs.Types.{elem_of, int_tree, sized_vector, tree_before, vector_tree};
ghost use Rattle.text_rules.specs.Outlines.{basic as basic_of_type, basic_at as basic_at_of, basic_of};
ghost use Rattle.text_rules.specs.Types.{vector_base as vector_base_of};
ghost use Rattle.constant_text.specs.Bases.{basic_base, basic_tree};

use crate::scalars::scalar;
use glsl_ast::Base;
use spv_module::{Elem, Id, Inst, Module, Shape};
use spv_ops::Op;

/// A scalar or a vector type.
#[derive(Clone, Copy, Debug, PartialEq, Eq)]
pub(crate) enum Basic {
    Bool,
    Int,
    Uint,
    Vector(Elem, u8),
}

pub(crate) fn vector_base(elem: Elem, size: u8) -> Base
    ensures { base_of result ≡ vector_base_of elem size }
{
    match elem {
        Elem::Bool => Base::BoolVec(size),
        Elem::Int => Base::IntVec(size),
        Elem::Uint => Base::UintVec(size),
    }
}

impl Basic {
    /// Its shape.
    #[tactic(auto, using(spv_types::proofs::Views::shape_rows))]
    pub(crate) fn shape(self) -> Shape
        ensures { tree_of result ≡ basic_tree self }
    {
        match self {
            Basic::Bool => Shape::Bool,
            Basic::Int => Shape::Int,
            Basic::Uint => Shape::Uint,
            Basic::Vector(elem, size) => Shape::Vector(elem, size),
        }
    }

    /// What names it.
    pub(crate) fn base(self) -> Base
        ensures { base_of result ≡ basic_base (basic_tree self) }
    {
        match self {
            Basic::Bool => Base::Bool,
            Basic::Int => Base::Int,
            Basic::Uint => Base::Uint,
            Basic::Vector(elem, size) => vector_base(elem, size),
        }
    }
}

/// The integer type of this width and signedness, and uint where there is none.
fn int_type(width: u32, sign: u32) -> Basic
    ensures { basic_tree result ≡ basic_of (int_tree width sign) }
{
    if width == 32 && sign == 1 {
        Basic::Int
    } else {
        Basic::Uint
    }
}

/// The component type of a vector type, which stands before it.
#[tactic(auto, using(crate::proofs::Basic::part_rules))]
fn component_type(module: &Module, inst: &Inst) -> Option<Elem>
    ensures { result ≡ option_and_then elem_of (tree_before «module».now.globals inst.now.at (slice_index inst.now.args 0)) }
{
    let part = module.global(Id(inst.operand(0)))?;
    if part.at < inst.at {
        scalar(part)
    } else {
        None
    }
}

/// A vector of two to four components, and uint of another number.
fn sized(elem: Elem, size: u32) -> Basic
    ensures { basic_tree result ≡ basic_of (sized_vector size elem) }
{
    if 2 <= size && size <= 4 {
        Basic::Vector(elem, size as u8)
    } else {
        Basic::Uint
    }
}

#[inline(always)]
#[tactic(auto, using(crate::proofs::Basic::vector_rules))]
fn vector_type(module: &Module, inst: &Inst) -> Basic
    ensures { basic_tree result ≡ basic_of (vector_tree (tree_before «module».now.globals inst.now.at (slice_index inst.now.args 0)) (slice_index inst.now.args 1)) }
{
    match component_type(module, inst) {
        None => Basic::Uint,
        Some(elem) => sized(elem, inst.operand(1)),
    }
}

/// The scalar or vector type that an instruction declares, and uint where it declares another.
#[inline(always)]
#[tactic(auto, unfolding(spv_types::specs::Types::kind), using(crate::proofs::Basic::other_rules))]
pub(crate) fn basic_at(module: &Module, inst: &Inst) -> Basic
    ensures { basic_tree result ≡ basic_at_of «module».now.globals inst.now }
{
    match inst.op {
        Op::TypeBool => Basic::Bool,
        Op::TypeInt => int_type(inst.operand(0), inst.operand(1)),
        Op::TypeVector => vector_type(module, inst),
        _ => Basic::Uint,
    }
}

/// The shape of a scalar or vector type, and uint of another type.
#[inline(always)]
#[tactic(auto, using(spv_types::proofs::Views::shape_rows))]
pub fn basic_shape(module: &Module, ty: u32) -> Shape
    ensures { tree_of result ≡ basic_of_type «module».now.globals ty }
{
    match module.global(Id(ty)) {
        None => Shape::Uint,
        Some(inst) => basic_at(module, inst).shape(),
    }
}

// The shapes by which types are named.
ghost use Rattle.std.specs.Prelude.{◌≡◌, IfOk};
ghost use Rattle.spv_types.specs.View.{tree_of};
ghost use Rattle.text_rules.specs.Outlines.{length_at as length_at_of, outline as outline_of_type, outline_at as outline_at_of, outline_before as outline_before_of};

use crate::basics::basic_at;
use spv_module::{Id, Inst, Length, Module, Shape};
use spv_ops::Op;
use spv_words::Memory;
use std::alloc::Global;

/// The length of an array: of an OpConstant its word, and else the specialization constant.
fn length_at(module: &Module, id: u32) -> Length
    ensures { result ≡ length_at_of «module».now.globals id }
{
    let Some(inst) = module.global(Id(id)) else {
        return Length::Spec(Id(id));
    };
    if inst.op == Op::Constant {
        Length::Fixed(inst.operand(0))
    } else {
        Length::Spec(Id(id))
    }
}

/// The shape of a type without the members of structs, where the type stands before a word.
#[cycle(outline)]
#[tactic(auto, using(crate::proofs::Outlined::outline_rules, spv_types::proofs::Views::shape_rows))]
fn outline_before(alloc: Global, module: &Module, before: u32, ty: u32) -> Result<Shape, Memory>
    ensures { IfOk result (λ s. tree_of s ≡ outline_before_of «module».now.globals before ty) }
{
    let Some(inst) = module.global(Id(ty)) else {
        return Ok(Shape::Uint);
    };
    if inst.at < before {
        outline_at(alloc, module, inst)
    } else {
        Ok(Shape::Uint)
    }
}

/// The shape of a type without the members of structs: what its name needs.
#[cycle(outline)]
#[tactic(auto, unfolding(spv_types::specs::Types::kind), using(spv_types::proofs::Views::shape_rows))]
pub(crate) fn outline_at(alloc: Global, module: &Module, inst: &Inst) -> Result<Shape, Memory>
    ensures { IfOk result (λ s. tree_of s ≡ outline_at_of «module».now.globals inst.now) }
{
    match inst.op {
        Op::TypeArray => {
            let part = outline_before(alloc, module, inst.at, inst.operand(0))?;
            let length = length_at(module, inst.operand(1));
            Ok(Shape::Array(Box::new(alloc, part)?, length))
        }
        Op::TypeRuntimeArray => {
            let part = outline_before(alloc, module, inst.at, inst.operand(0))?;
            Ok(Shape::Runtime(Box::new(alloc, part)?))
        }
        Op::TypeStruct => Ok(Shape::Struct(Id(inst.result), Vec::new(alloc))),
        _ => Ok(basic_at(module, inst).shape()),
    }
}

/// The shape of a type without the members of structs, by which it is named, and uint where there is none. There is an error
/// only for want of memory.
///
/// The cost does not grow with the members of structs.
#[tactic(auto, using(spv_types::proofs::Views::shape_rows))]
pub fn outline(alloc: Global, module: &Module, ty: u32) -> Result<Shape, Memory>
    ensures { IfOk result (λ s. tree_of s ≡ outline_of_type «module».now.globals ty) }
{
    match module.global(Id(ty)) {
        None => Ok(Shape::Uint),
        Some(inst) => outline_at(alloc, module, inst),
    }
}

// The shapes of types.
ghost use Rattle.std.specs.Prelude.{◌≡◌, IfOk, unwrap_or};
ghost use Rattle.spv_index.specs.Pointers.{pointee};
ghost use Rattle.spv_types.specs.Tree.{uint};
ghost use Rattle.spv_types.specs.Types.{type_tree};
ghost use Rattle.spv_types.specs.View.{tree_of};

use spv_index::pointer;
use spv_module::{Id, Module, Shape};
use spv_types::judged_shape;
use spv_words::Memory;
use std::alloc::Global;

/// The shape of a type, and uint of what has none. There is an error only for want of memory.
#[tactic(auto, using(spv_types::proofs::Views::shape_rows))]
pub fn shape_at(alloc: Global, module: &Module, ty: u32) -> Result<Shape, Memory>
    ensures { IfOk result (λ s. tree_of s ≡ unwrap_or (type_tree «module».now.globals ty) uint) }
{
    match judged_shape(alloc, module, Id(ty))? {
        Some(shape) => Ok(shape),
        None => Ok(Shape::Uint),
    }
}

/// What a pointer type points to; another type is its own.
pub fn pointee_at(module: &Module, ty: u32) -> u32
    ensures { result ≡ unwrap_or (pointee «module».now.globals ty) ty }
{
    match pointer(module, Id(ty)) {
        None => ty,
        Some(pointer) => pointer.pointee.0,
    }
}

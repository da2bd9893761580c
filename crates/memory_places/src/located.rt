// What a variable lies in, and how far its parts lie behind its first byte.
ghost use Rattle.std.specs.Prelude.{◌≡◌, ◌-◌, ◌/◌, min, unwrap_or};
ghost use Rattle.spv_ops.specs.Enumerants.{decoration_number};
ghost use Rattle.spv_ops.specs.declared.Decoration.TheVariants as decoration;
ghost use Rattle.spv_decor.specs.Rows.{value_of};
ghost use Rattle.group_items.specs.Sides.{bytes_in};
ghost use Rattle.module_semantics.specs.Memory as memory;
ghost use Rattle.module_semantics.specs.Setting.{Setting, shared_number};
ghost use Rattle.memory_places.specs.Bases as bases;
ghost use Rattle.memory_places.specs.Capped.{most_variables};
ghost use Rattle.memory_places.specs.Kernel.{bare, sized};
ghost use Rattle.memory_places.specs.Leaves.{IsPartOf};

use crate::bases::Base;
use crate::leaves::Part;
use crate::told::{bytes_of, quotient};
use crate::types::{
    array_stride, bytes_along, literal, member_offset, part_type, type_along, variable_type,
};
use spv_decor::Decor;
use spv_module::{Inst, Module};
use spv_ops::{Decoration, StorageClass};

/// The part of a variable to which indexes lead.
pub fn part_along(module: &Module, decor: &Decor, variable: &Inst, path: &[u32]) -> Part
    requires { decor.now ≡ «module».now.heads }
    ensures { IsPartOf (bare «module».now) variable.now path.now result }
{
    let ty = variable_type(module, variable);
    Part {
        ty: type_along(module, ty, path),
        bytes: bytes_along(module, decor, ty, path),
    }
}

fn buffer_of(decor: &Decor, variable: &Inst) -> Base
    ensures { (s : Setting) → s.of.heads ≡ decor.now → result ≡ bases.buffer_base s variable.now }
{
    Base::Buffer(
        literal(decor, Decoration::DescriptorSet, variable.result),
        literal(decor, Decoration::Binding, variable.result),
    )
}

/// What a variable of this class lies in, with this number if it is one of a workgroup.
pub fn base_by(decor: &Decor, number: u32, variable: &Inst, class: StorageClass) -> Base
    ensures { (s : Setting) → s.of.heads ≡ decor.now → number ≡ min most_variables (shared_number s variable.now.result) → result ≡ bases.base_by s variable.now class }
{
    match class {
        StorageClass::PushConstant => Base::Push,
        StorageClass::Workgroup => Base::Shared(number),
        StorageClass::Input
        | StorageClass::Uniform
        | StorageClass::Private
        | StorageClass::Function
        | StorageClass::StorageBuffer => buffer_of(decor, variable),
    }
}

fn bytes_in_buffer(decor: &Decor, sizes: &[(u32, u32, u32)], variable: &Inst) -> u32
    ensures { result ≡ bytes_in sizes.now (unwrap_or (value_of decor.now variable.now.result (decoration_number decoration.DescriptorSet)) 0) (unwrap_or (value_of decor.now variable.now.result (decoration_number decoration.Binding)) 0) }
{
    let set = literal(decor, Decoration::DescriptorSet, variable.result);
    let binding = literal(decor, Decoration::Binding, variable.result);
    bytes_of(sizes, set, binding)
}

/// How many whole strides there are behind an offset.
fn whole_strides(bytes: u32, offset: u32, stride: u32) -> u32
    ensures { result ≡ (bytes - offset) / stride }
{
    quotient(bytes.saturating_sub(offset), stride)
}

/// How many elements the runtime array has that is a member of a buffer's block, where buffers have these sizes.
pub fn elements(
    module: &Module,
    decor: &Decor,
    sizes: &[(u32, u32, u32)],
    variable: &Inst,
    member: u32,
) -> u32
    requires { decor.now ≡ «module».now.heads }
    ensures { result ≡ memory.elements (sized «module».now sizes.now) variable.now member }
{
    let ty = variable_type(module, variable);
    let bytes = bytes_in_buffer(decor, sizes, variable);
    let offset = member_offset(decor, ty, member);
    let part = part_type(module, ty, member);
    let stride = array_stride(decor, part);
    whole_strides(bytes, offset, stride)
}

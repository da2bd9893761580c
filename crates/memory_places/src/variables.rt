// The variables of a module.
ghost use Rattle.std.specs.Prelude.{◌≡◌, IfOk, option_map, option_and_then};
ghost use Rattle.std.specs.Option.{option_copied};
ghost use Rattle.spv_types.specs.Limits.{AreWithin};
ghost use Rattle.spv_types.specs.View.{tree_of, value_of};
ghost use Rattle.group_items.specs.Sides.{told_of, IsWhole};
ghost use Rattle.module_semantics.specs.Accesses as accesses;
ghost use Rattle.module_semantics.specs.Memory.{shape_along as shape_to};
ghost use Rattle.module_semantics.specs.Setting.{global_variable as variable_of};
ghost use Rattle.module_semantics.specs.State.{global};
ghost use Rattle.memory_places.specs.Kernel.{bare, bare_with};
ghost use Rattle.memory_places.specs.Starts.{start_of};

use crate::starts::{Start, as_variable, class_of, initial, shape_of};
use crate::told::built_in_value;
use crate::types::{type_along, variable_type};
use constant_values::Constants;
use group_items::Invocation;
use spv_index::Locals;
use spv_module::{Id, Inst, Module, Shape, Value};
use spv_ops::{BuiltIn, StorageClass};
use spv_words::Memory;
use std::alloc::Global;

/// Whether other invocations see the variables of a storage class.
fn is_seen(class: StorageClass) -> bool
    ensures { result ≡ accesses.is_seen class }
{
    match class {
        StorageClass::StorageBuffer
        | StorageClass::Uniform
        | StorageClass::PushConstant
        | StorageClass::Workgroup => true,
        _ => false,
    }
}

fn seen_if(variable: &Inst) -> Option<&Inst>
    ensures { option_copied result ≡ accesses.seen_if variable.now }
{
    match class_of(variable) {
        None => None,
        Some(class) => if is_seen(class) { Some(variable) } else { None },
    }
}

/// The variable of the module with this id.
pub fn global_variable(module: &Module, id: u32) -> Option<&Inst>
    ensures { option_copied result ≡ variable_of (bare «module».now) id }
{
    match module.global(Id(id)) {
        None => None,
        Some(inst) => as_variable(inst),
    }
}

/// The same, if other invocations see it.
pub fn seen(module: &Module, id: u32) -> Option<&Inst>
    ensures { option_copied result ≡ accesses.seen (bare «module».now) (global id) }
{
    match global_variable(module, id) {
        None => None,
        Some(variable) => seen_if(variable),
    }
}

/// The shape of the part of a variable to which indexes lead.
pub fn shape_along(
    alloc: Global,
    module: &Module,
    variable: &Inst,
    path: &[u32],
) -> Result<Option<Shape>, Memory>
    requires { AreWithin «module».now.globals }
    ensures { IfOk result (λ shape. option_map tree_of shape ≡ shape_to (bare «module».now) variable.now path.now) }
{
    let ty = type_along(module, variable_type(module, variable), path);
    Ok(shape_of(alloc, module, ty)?)
}

/// What a variable begins with, if there is one.
fn initial_if<'a>(
    alloc: Global,
    module: &Module,
    values: &'a Constants,
    variable: Option<&Inst>,
) -> Result<Start<'a>, Memory>
    requires { AreWithin «module».now.globals }
    ensures { IfOk result (λ start. start_of start ≡ option_and_then (accesses.initial (bare_with «module».now values.now)) (option_copied variable.entry)) }
{
    match variable {
        None => Ok(Start::Missing),
        Some(variable) => initial(alloc, module, values, variable),
    }
}

/// What a variable of a function begins with.
pub fn initial_in<'a>(
    alloc: Global,
    module: &Module,
    values: &'a Constants,
    locals: &Locals,
    id: u32,
) -> Result<Start<'a>, Memory>
    requires { AreWithin «module».now.globals }
    ensures { IfOk result (λ start. start_of start ≡ accesses.initial_in (bare_with «module».now values.now) locals.now id) }
{
    match locals.inst(id) {
        None => Ok(Start::Missing),
        Some(inst) => initial_if(alloc, module, values, as_variable(inst)),
    }
}

/// What a variable of the module begins with.
pub fn initial_private<'a>(
    alloc: Global,
    module: &Module,
    values: &'a Constants,
    id: u32,
) -> Result<Start<'a>, Memory>
    requires { AreWithin «module».now.globals }
    ensures { IfOk result (λ start. start_of start ≡ accesses.initial_private (bare_with «module».now values.now) id) }
{
    initial_if(alloc, module, values, global_variable(module, id))
}

/// The value of a built-in variable, if it is one.
pub fn value_of_built_in(inv: &Invocation, built_in: Option<BuiltIn>) -> Option<&Value>
    requires { IsWhole inv.now }
    ensures { option_map (λ v. value_of v.now) result ≡ option_and_then (accesses.built_in_value (told_of inv.now)) built_in }
{
    match built_in {
        None => None,
        Some(built_in) => built_in_value(inv, built_in),
    }
}

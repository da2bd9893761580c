// What variables begin with.
ghost use Rattle.module_semantics.specs.Memory.{class_of as class_in};
ghost use Rattle.module_semantics.specs.Setting.{as_variable as as_variable_of};
ghost use Rattle.module_semantics.specs.Accesses.{initial as initial_value};
ghost use Rattle.module_semantics.specs.Run.{have_values};
ghost use Rattle.memory_places.specs.Kernel.{bare_with, kernel, plain};
ghost use Rattle.memory_places.specs.Mentions.{AreMentioned, is_asked_by};
ghost use Rattle.memory_places.specs.Starts.{start_of};
ghost use Rattle.id_map.specs.Entries.{is_in};
ghost use Rattle.spv_types.specs.Leaves.{zero_of};
ghost use Rattle.spv_types.specs.Limits.{AreWithin};
ghost use Rattle.spv_types.specs.Types.{type_tree};
ghost use Rattle.spv_types.specs.View.{tree_of, value_of};
ghost use Rattle.std.specs.Prelude.{◌≡◌, IfOk, option_map, is_some};
ghost use Rattle.std.specs.Option.{option_copied};

use crate::faults::want_of_memory;
use crate::shared::is_in_class;
use crate::types::variable_type;
use constant_values::Constants;
use id_map::IdSet;
use spv_module::{Id, Inst, Module, Shape, Value};
use spv_ops::{Op, StorageClass};
use spv_types::shape;
use spv_words::Memory;
use std::alloc::Global;

/// What a variable begins with: the value of its initializer, or the zero of a shape; or nothing, where the initializer has no value or its
/// type has no shape.
#[derive(Drop)]
pub enum Start<'a> {
    Known(&'a Value),
    Zero(Shape),
    Missing,
}

/// The storage class of an OpVariable.
pub fn class_of(variable: &Inst) -> Option<StorageClass>
    ensures { result ≡ class_in variable.now }
{
    StorageClass::of(variable.operand(0))
}

/// The instruction, where it is an OpVariable.
pub fn as_variable(inst: &Inst) -> Option<&Inst>
    ensures { option_copied result ≡ as_variable_of inst.now }
{
    if inst.op == Op::Variable {
        Some(inst)
    } else {
        None
    }
}

/// The shape of a type of a module whose types are within the limits.
#[tactic(auto, using(crate::proofs::Wanting::type_fault))]
pub fn shape_of(alloc: Global, module: &Module, ty: u32) -> Result<Option<Shape>, Memory>
    requires { AreWithin «module».now.globals }
    ensures { IfOk result (λ s. option_map tree_of s ≡ type_tree «module».now.globals ty) }
{
    match shape(alloc, module, Id(ty)) {
        Ok(shape) => Ok(shape),
        Err(fault) => Err(want_of_memory(fault)),
    }
}

fn known(value: Option<&Value>) -> Start
    ensures { start_of result ≡ option_map (λ v. value_of v.now) value.entry }
{
    match value {
        None => Start::Missing,
        Some(value) => Start::Known(value),
    }
}

fn zero(shape: Option<Shape>) -> Start<'static>
    ensures { start_of result ≡ option_map zero_of (option_map tree_of shape) }
{
    match shape {
        None => Start::Missing,
        Some(shape) => Start::Zero(shape),
    }
}

/// What a variable begins with. There is an error only for want of memory.
pub fn initial<'a>(
    alloc: Global,
    module: &Module,
    values: &'a Constants,
    variable: &Inst,
) -> Result<Start<'a>, Memory>
    requires { AreWithin «module».now.globals }
    ensures { IfOk result (λ start. (start_of start ≡ initial_value (bare_with «module».now values.now) variable.now)) }
{
    match variable.args.as_slice() {
        [_, initializer, ..] => Ok(known(values.get(Id(*initializer)))),
        _ => Ok(zero(shape_of(alloc, module, variable_type(module, variable))?)),
    }
}

fn is_something(start: Start) -> bool
    ensures { result ≡ is_some (start_of start.entry) }
{
    match start {
        Start::Known(_) | Start::Zero(_) => true,
        Start::Missing => false,
    }
}

/// Whether a variable has a value at the start.
fn has_value(
    alloc: Global,
    module: &Module,
    values: &Constants,
    inst: &Inst,
) -> Result<bool, Memory>
    requires { AreWithin «module».now.globals }
    ensures { IfOk result (λ has. has ≡ is_some (initial_value (bare_with «module».now values.now) inst.now)) }
{
    let start = initial(alloc, module, values, inst)?;
    Ok(is_something(start))
}

/// Whether a variable is Private and mentioned.
fn is_asked(mentioned: &IdSet, inst: &Inst) -> bool
    ensures { result ≡ is_asked_by (is_in mentioned.now) inst.now }
{
    is_in_class(StorageClass::Private, inst) && mentioned.has(inst.result)
}

/// Whether each Private variable that is mentioned has a value at the start.
#[tactic(auto, using(crate::proofs::Fine::fine_rules))]
pub fn are_fine(
    alloc: Global,
    module: &Module,
    values: &Constants,
    mentioned: &IdSet,
    entry: u32,
) -> Result<bool, Memory>
    requires mentioned { AreMentioned «module».now entry (is_in mentioned.now) }
    requires types { AreWithin «module».now.globals }
    ensures { IfOk result (λ fine. fine ≡ have_values (plain (kernel «module».now entry values.now))) }
{
    for inst in module.globals() {
        if is_asked(mentioned, inst) && !has_value(alloc, module, values, inst)? {
            return Ok(false);
        }
    }
    Ok(true)
}

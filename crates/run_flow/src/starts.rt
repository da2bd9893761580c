// What variables have at the start.
ghost use Rattle.std.specs.Prelude.{◌≡◌, ◌++◌, ℕ, IfOk, OnOk, option_map};
ghost use Rattle.spv_index.specs.Locals.{insts_of};
ghost use Rattle.module_semantics.specs.Accesses as accesses;
ghost use Rattle.memory_places.specs.Starts.{start_of};
ghost use Rattle.run_acts.specs.About.{value_of, plain, variables_of};
ghost use Rattle.run_flow.specs.Begun.{variables_among, with_entry};

use memory_places::{MemoryMap, Start};
use spv_index::Locals;
use spv_module::{Inst, Value};
use spv_ops::Op;
use spv_words::Memory;
use std::alloc::Global;
use std::collections::BTreeMap;
use value_ops::{copied, zero_value};

/// Adds the ids of the variables among instructions. There is an error only for want of memory.
pub fn variable_ids(list: &mut Vec<u32>, insts: &[Inst]) -> Result<(), Memory>
    ensures { OnOk result (list.new.items ≡ list.old.items ++ variables_among insts.now) }
{
    for inst in insts {
        if inst.op == Op::Variable {
            list.push(inst.result)?;
        }
    }
    Ok(())
}

/// The value with which a variable begins.
fn first_value(alloc: Global, start: Start<'_>) -> Result<Option<Value>, Memory>
    ensures { IfOk result (λ value. option_map value_of value ≡ start_of start.entry) }
{
    match start {
        Start::Known(value) => Ok(Some(copied(alloc, value)?)),
        Start::Zero(shape) => Ok(Some(zero_value(alloc, &shape)?)),
        Start::Missing => Ok(None),
    }
}

/// A variable has this from now on, or nothing.
fn put_variable(
    variables: &mut BTreeMap<u32, Value>,
    id: u32,
    value: Option<Value>,
) -> Result<(), Memory>
    ensures { OnOk result ((q : ℕ) → variables_of variables.new q ≡ with_entry (variables_of variables.old) id (option_map value_of value) q) }
{
    match value {
        Some(value) => {
            variables.insert(id, value)?;
        }
        None => {
            variables.remove(&id);
        }
    }
    Ok(())
}

/// What the variables of a function have at the first moment of a call. There is an error only for want of memory.
pub fn first_variables(
    alloc: Global,
    map: &MemoryMap<'_>,
    locals: &Locals<'_>,
    ids: &[u32],
) -> Result<BTreeMap<u32, Value>, Memory>
    requires { ids.now ≡ variables_among (insts_of locals.now) }
    ensures { IfOk result (λ variables. (q : ℕ) → variables_of variables q ≡ accesses.initial_in (plain map.now) locals.now q) }
{
    let mut variables = BTreeMap::new(alloc);
    for id in ids {
        let start = map.initial_in(alloc, locals, *id)?;
        put_variable(&mut variables, *id, first_value(alloc, start)?)?;
    }
    Ok(variables)
}

/// What the variables of the module have at the start. There is an error only for want of memory.
pub fn first_privates(
    alloc: Global,
    map: &MemoryMap<'_>,
    ids: &[u32],
) -> Result<BTreeMap<u32, Value>, Memory>
    requires { ids.now ≡ variables_among map.now.of.globals }
    ensures { IfOk result (λ variables. (q : ℕ) → variables_of variables q ≡ accesses.initial_private (plain map.now) q) }
{
    let mut variables = BTreeMap::new(alloc);
    for id in ids {
        let start = map.initial_private(alloc, *id)?;
        put_variable(&mut variables, *id, first_value(alloc, start)?)?;
    }
    Ok(variables)
}

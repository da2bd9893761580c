// What OpStore comes to.
ghost use Rattle.std.specs.Prelude.{◌≡◌, List, Some, IfOk, option_and_then};
ghost use Rattle.spv_module.specs.declared.inst.Function.{Function};
ghost use Rattle.spv_module.specs.declared.inst.Inst.{Inst as Instruction};
ghost use Rattle.op_semantics.specs.Composite.{inserted as inserted_value};
ghost use Rattle.value_words.specs.Words.{words_of};
ghost use Rattle.module_semantics.specs.Accesses as accesses;
ghost use Rattle.module_semantics.specs.State as state;
ghost use Rattle.module_semantics.specs.Steps as steps;
ghost use Rattle.run_variables.specs.Stored.{kept_by};
ghost use Rattle.run_acts.specs.About.{value_of, told_of, IsWhole, setting_for, ForEach, root_of, conf_of, narrowed};
ghost use Rattle.run_memory.specs.Outcomes.{kept_with, store_value, stored_by};

use crate::operands::{pointer_at, value_at};
use group_items::{Invocation, LeafPlace};
use memory_places::{MemoryMap, class_of};
use run_acts::{Site, seen};
use run_state::{Conf, Root};
use spv_module::{Inst, Value};
use spv_ops::StorageClass;
use spv_words::Memory;
use std::alloc::Global;
use value_ops::{add_words, copied, inserted};

/// What a store comes to: no meaning; another value of the part of a variable to which a path leads; another value of a variable of
/// the module; words that are written to memory.
#[derive(Drop)]
pub enum Stored {
    Missing,
    Part(Root, Vec<u32>, Value),
    Whole(u32, Value),
    Seen(Vec<LeafPlace>, Vec<u32>),
}

/// A store: the memory of its module, what its invocation is told, and the value for the part of a variable to which a path leads.
#[derive(Clone, Copy)]
struct Storing<'s, 'a> {
    alloc: Global,
    map: &'s MemoryMap<'a>,
    inv: &'s Invocation,
    path: &'s [u32],
    value: &'s Value,
}

fn words_in(alloc: Global, value: &Value) -> Result<Vec<u32>, Memory>
    ensures { IfOk result (λ words. words.items ≡ words_of (value_of value.now)) }
{
    let mut words = Vec::new(alloc);
    add_words(value, &mut words)?;
    Ok(words)
}

/// A store along a path in a variable that others see.
fn store_seen(storing: &Storing, variable: &Inst) -> Result<Stored, Memory>
    ensures { ForEach storing.now.map.now (λ s. IfOk result (λ w. (c : state.Conf) (rest : List Instruction) (r : state.Root) → narrowed (steps.store_to s c rest (r, storing.now.path.now) (value_of storing.now.value.now) (Some variable.now)) ≡ stored_by c rest w)) }
{
    let places = storing
        .map
        .locations(storing.alloc, variable, storing.path)?;
    let words = words_in(storing.alloc, storing.value)?;
    Ok(Stored::Seen(places, words))
}

/// A store in place, where the value of the variable is the invocation's own.
fn store_part(storing: &Storing, root: Root) -> Result<Stored, Memory>
    ensures { IfOk result (λ w. (c : state.Conf) (rest : List Instruction) → stored_by c rest w ≡ kept_with c rest (root_of root) (option_and_then (inserted_value (value_of storing.now.value.now) storing.now.path.now) (kept_by c (root_of root)))) }
{
    let indexes = storing.path.to_vec(storing.alloc)?;
    Ok(Stored::Part(root, indexes, copied(storing.alloc, storing.value)?))
}

/// A store to a variable of the module that has this value, which is not the invocation's own.
fn store_over(storing: &Storing, id: u32, whole: &Value) -> Result<Stored, Memory>
    ensures { IfOk result (λ w. (c : state.Conf) (rest : List Instruction) → stored_by c rest w ≡ kept_with c rest (state.global id) (inserted_value (value_of storing.now.value.now) storing.now.path.now (value_of whole.now))) }
{
    match inserted(storing.alloc, whole, storing.path, storing.value)? {
        None => Ok(Stored::Missing),
        Some(whole) => Ok(Stored::Whole(id, whole)),
    }
}

/// A store to a built-in variable.
fn store_input(storing: &Storing, variable: &Inst) -> Result<Stored, Memory>
    requires { IsWhole storing.now.inv.now }
    ensures { IfOk result (λ w. (c : state.Conf) (rest : List Instruction) → stored_by c rest w ≡ kept_with c rest (state.global variable.now.result) (option_and_then (inserted_value (value_of storing.now.value.now) storing.now.path.now) (accesses.input_value (setting_for storing.now.map.now (told_of storing.now.inv.now)) variable.now))) }
{
    match storing.map.input_value(storing.inv, variable) {
        None => Ok(Stored::Missing),
        Some(whole) => store_over(storing, variable.result, whole),
    }
}

/// A store to a variable of the module in this storage class, which no other invocation sees.
fn store_in(storing: &Storing, variable: &Inst, class: StorageClass) -> Result<Stored, Memory>
    requires { IsWhole storing.now.inv.now }
    ensures { IfOk result (λ w. (c : state.Conf) (rest : List Instruction) → stored_by c rest w ≡ kept_with c rest (state.global variable.now.result) (option_and_then (inserted_value (value_of storing.now.value.now) storing.now.path.now) (accesses.global_value_by (setting_for storing.now.map.now (told_of storing.now.inv.now)) c variable.now (Some class)))) }
{
    match class {
        StorageClass::Private => store_part(storing, Root::Global(variable.result)),
        StorageClass::Input => store_input(storing, variable),
        _ => Ok(Stored::Missing),
    }
}

/// The same in whichever storage class it is.
fn store_global(storing: &Storing, variable: &Inst) -> Result<Stored, Memory>
    requires { IsWhole storing.now.inv.now }
    ensures { IfOk result (λ w. (c : state.Conf) (rest : List Instruction) → stored_by c rest w ≡ kept_with c rest (state.global variable.now.result) (option_and_then (inserted_value (value_of storing.now.value.now) storing.now.path.now) (accesses.global_value (setting_for storing.now.map.now (told_of storing.now.inv.now)) c variable.now))) }
{
    match class_of(variable) {
        None => Ok(Stored::Missing),
        Some(class) => store_in(storing, variable, class),
    }
}

/// A store along a path in a variable of the module that no other invocation sees.
fn store_by_module(storing: &Storing, id: u32) -> Result<Stored, Memory>
    requires { IsWhole storing.now.inv.now }
    ensures { IfOk result (λ w. (c : state.Conf) (rest : List Instruction) → stored_by c rest w ≡ kept_with c rest (state.global id) (option_and_then (inserted_value (value_of storing.now.value.now) storing.now.path.now) (accesses.kept (setting_for storing.now.map.now (told_of storing.now.inv.now)) c (state.global id)))) }
{
    match storing.map.global_variable(id) {
        None => Ok(Stored::Missing),
        Some(variable) => store_global(storing, variable),
    }
}

/// A store along a path in a variable that no other invocation sees.
fn store_kept(storing: &Storing, root: Root) -> Result<Stored, Memory>
    requires { IsWhole storing.now.inv.now }
    ensures { IfOk result (λ w. (c : state.Conf) (rest : List Instruction) → stored_by c rest w ≡ kept_with c rest (root_of root) (option_and_then (inserted_value (value_of storing.now.value.now) storing.now.path.now) (accesses.kept (setting_for storing.now.map.now (told_of storing.now.inv.now)) c (root_of root)))) }
{
    match root {
        Root::Global(id) => store_by_module(storing, id),
        Root::Own(_) => store_part(storing, root),
        Root::Lent(_, _) => store_part(storing, root),
    }
}

/// A store along a path in any variable.
fn store_at(storing: &Storing, root: Root) -> Result<Stored, Memory>
    requires { IsWhole storing.now.inv.now }
    ensures { IfOk result (λ w. (c : state.Conf) (rest : List Instruction) → narrowed (steps.store_to (setting_for storing.now.map.now (told_of storing.now.inv.now)) c rest (root_of root, storing.now.path.now) (value_of storing.now.value.now) (accesses.seen (setting_for storing.now.map.now (told_of storing.now.inv.now)) (root_of root))) ≡ stored_by c rest w) }
{
    match seen(storing.map, root) {
        None => store_kept(storing, root),
        Some(variable) => store_seen(storing, variable),
    }
}

/// A store of the value of an operand, along a path in a variable.
fn store_operand(
    site: &Site,
    inv: &Invocation,
    conf: &Conf,
    root: Root,
    path: &[u32],
) -> Result<Stored, Memory>
    requires { IsWhole inv.now }
    ensures { IfOk result (λ w. (fs : List Function) (rest : List Instruction) → narrowed (store_value (setting_for site.now.map.now (told_of inv.now)) (conf_of fs conf.now) rest site.now.inst.now (root_of root, path.now)) ≡ stored_by (conf_of fs conf.now) rest w) }
{
    match value_at(site.map, &conf.top.ids, site.inst, 1) {
        None => Ok(Stored::Missing),
        Some(value) => {
            let storing = Storing {
                alloc: site.alloc,
                map: site.map,
                inv,
                path,
                value,
            };
            store_at(&storing, root)
        }
    }
}

/// What a store comes to.
pub fn store_of(site: &Site, inv: &Invocation, conf: &Conf) -> Result<Stored, Memory>
    requires { IsWhole inv.now }
    ensures { IfOk result (λ w. (fs : List Function) (rest : List Instruction) → narrowed (steps.store_step (setting_for site.now.map.now (told_of inv.now)) (conf_of fs conf.now) rest site.now.inst.now) ≡ stored_by (conf_of fs conf.now) rest w) }
{
    match pointer_at(site.map, &conf.top.ids, site.inst, 0) {
        None => Ok(Stored::Missing),
        Some((root, path)) => store_operand(site, inv, conf, root, path),
    }
}

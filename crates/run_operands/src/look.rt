// What operands have.
ghost use Rattle.std.specs.Prelude.{◌≡◌, IfOk, Some, None, option_map};
ghost use Rattle.spv_types.specs.View.{value_of};
ghost use Rattle.value_ops.specs.References.{plain_references};
ghost use Rattle.module_semantics.specs.State as state;
ghost use Rattle.module_semantics.specs.Operands.{of_module, as_truth};
ghost use Rattle.memory_places.specs.Kernel.{plain};
ghost use Rattle.run_state.specs.Ids.{ids_of, held_of, found_of};
ghost use Rattle.run_operands.specs.Targets.{target_of};
ghost use Rattle.run_operands.specs.Found.{WasFound};
ghost use Rattle.run_operands.specs.Looks.{held_by, value_by, word_by, truth_by, pointer_by, values_by, words_by};

use memory_places::{MemoryMap, word_in};
use run_state::{Found, Held, Ids, Root};
use spv_module::Value;
use spv_words::Memory;
use std::alloc::Global;

/// What an id has, where it stands.
fn found_in(held: &Held) -> Found<'_>
    ensures { found_of result ≡ held_of held.now }
{
    match held {
        Held::Value(value) => Found::Value(value),
        Held::Pointer(root, path) => Found::Pointer(*root, path.as_slice()),
    }
}

/// What an id of the present call has.
fn own<'s>(ids: &'s Ids, id: u32) -> Option<&'s Held>
    ensures { option_map (λ h. held_of h.now) result ≡ ids_of ids.now id }
{
    match ids.get(&id) {
        None => None,
        Some(held) => held.as_ref(),
    }
}

/// The value of a constant.
fn of_constant<'s>(map: &'s MemoryMap<'_>, id: u32) -> Option<Found<'s>>
    ensures { option_map found_of result ≡ option_map state.value ((plain map.now).constants id) }
{
    match map.constant(id) {
        None => None,
        Some(value) => Some(Found::Value(value)),
    }
}

/// What an id of the module has: a variable is a pointer to itself.
fn of_map<'s>(map: &'s MemoryMap<'_>, id: u32) -> Option<Found<'s>>
    ensures { option_map found_of result ≡ of_module (plain map.now) id }
{
    match map.global_variable(id) {
        Some(_) => Some(Found::Pointer(Root::Global(id), &[])),
        None => of_constant(map, id),
    }
}

/// What an id has, in the present call or else in the module.
pub fn held<'s>(map: &'s MemoryMap<'_>, ids: &'s Ids, id: u32) -> Option<Found<'s>>
    ensures { option_map found_of result ≡ held_by map.now (ids_of ids.now) id }
{
    match own(ids, id) {
        Some(held) => Some(found_in(held)),
        None => of_map(map, id),
    }
}

/// The value of an id.
pub fn value<'s>(map: &'s MemoryMap<'_>, ids: &'s Ids, id: u32) -> Option<&'s Value>
    ensures { option_map (λ v. value_of v.now) result ≡ value_by map.now (ids_of ids.now) id }
{
    match held(map, ids, id) {
        Some(Found::Value(value)) => Some(value),
        _ => None,
    }
}

/// The truth value of a value that is one.
#[tactic(auto, using(spv_types::proofs::Views::value_rows))]
fn as_a_truth(value: &Value) -> Option<bool>
    ensures { result ≡ as_truth (Some (value_of value.now)) }
{
    match value {
        Value::Bool(truth) => Some(*truth),
        Value::Word(_) | Value::Many(_) => None,
    }
}

/// The truth value that an id has.
pub fn truth(map: &MemoryMap<'_>, ids: &Ids, id: u32) -> Option<bool>
    ensures { result ≡ truth_by map.now (ids_of ids.now) id }
{
    match value(map, ids, id) {
        None => None,
        Some(value) => as_a_truth(value),
    }
}

/// The word that an id has.
pub fn word(map: &MemoryMap<'_>, ids: &Ids, id: u32) -> Option<u32>
    ensures { result ≡ word_by map.now (ids_of ids.now) id }
{
    match value(map, ids, id) {
        None => None,
        Some(value) => word_in(value),
    }
}

/// The variable to which an id leads, and the indexes from there.
pub fn pointer<'s>(map: &'s MemoryMap<'_>, ids: &'s Ids, id: u32) -> Option<(Root, &'s [u32])>
    ensures { option_map target_of result ≡ pointer_by map.now (ids_of ids.now) id }
{
    match held(map, ids, id) {
        Some(Found::Pointer(root, path)) => Some((root, path)),
        _ => None,
    }
}

/// What is found of each of these, up to one of which nothing is.
fn each<T: Copy, F: Fn(u32) -> Option<T>>(
    alloc: Global,
    list: &[u32],
    find: F,
) -> Result<Option<Vec<T>>, Memory>
    requires { F.IsAlwaysCallable find }
    ensures { IfOk result (λ all. WasFound (F.post find) list.now (option_map (λ v. v.items) all)) }
{
    let mut all = Vec::with_capacity(alloc, list.len())?;
    for id in list {
        match find(*id) {
            None => return Ok(None),
            Some(found) => all.push(found)?,
        }
    }
    Ok(Some(all))
}

/// The values of operands, where each has one.
pub fn values<'s>(
    alloc: Global,
    map: &'s MemoryMap<'_>,
    ids: &'s Ids,
    list: &[u32],
) -> Result<Option<Vec<&'s Value>>, Memory>
    ensures { IfOk result (λ all. option_map plain_references all ≡ values_by map.now (ids_of ids.now) list.now) }
{
    each(alloc, list, |id| value(map, ids, id))
}

/// The words of operands, where each has one.
pub fn words(
    alloc: Global,
    map: &MemoryMap<'_>,
    ids: &Ids,
    list: &[u32],
) -> Result<Option<Vec<u32>>, Memory>
    ensures { IfOk result (λ all. option_map (λ v. v.items) all ≡ words_by map.now (ids_of ids.now) list.now) }
{
    each(alloc, list, |id| word(map, ids, id))
}

// The calls of a module, in text order, and who calls each function.
ghost use Rattle.std.specs.Prelude.{◌≡◌, ◌<◌, ◌++◌, [], ◌∷◌, IfOk, OnOk, map, filter, length};
ghost use Rattle.profile_rules.specs.Calls.{is_call as is_call_of, callee as callee_of, calls_in, place};
ghost use Rattle.call_order.specs.Graph.{AreBelow, AreCallersOf, call_at, calls_of as calls_of_all, HasOneMore};

use crate::graph::Call;
use spv_index::Functions;
use spv_module::{Function, Id, Inst};
use spv_ops::Op;
use spv_words::Memory;
use std::alloc::Global;

fn is_call(inst: &Inst) -> bool
    ensures { result ≡ is_call_of inst.now }
{
    inst.op == Op::FunctionCall
}

/// The id of the function that a call calls.
fn callee(inst: &Inst) -> Id
    ensures { result.0 ≡ callee_of inst.now }
{
    Id(inst.args.as_slice().first().copied().unwrap_or(0))
}

/// The place of a function, and the number of functions where it is none of them.
pub fn place_of(places: &Functions, count: usize, id: Id) -> usize
    requires { count ≡ length places.now }
    ensures { result ≡ place places.now id.0 }
{
    places.get(id).unwrap_or(count)
}

/// Adds the calls of a block of the function at a place.
fn add_calls_of_block(
    list: &mut Vec<Call>,
    places: &Functions,
    count: usize,
    caller: usize,
    insts: &[Inst],
) -> Result<(), Memory>
    requires { count ≡ length places.now }
    ensures { OnOk result (list.new.items ≡ list.old.items ++ map (call_at places.now caller) (filter is_call_of insts.now)) }
{
    for inst in insts {
        if is_call(inst) {
            list.push(Call {
                caller,
                callee: place_of(places, count, callee(inst)),
                at: inst.at,
            })?;
        }
    }
    Ok(())
}

/// Adds the calls of the function at a place.
fn add_calls(
    list: &mut Vec<Call>,
    places: &Functions,
    count: usize,
    caller: usize,
    function: &Function,
) -> Result<(), Memory>
    requires { count ≡ length places.now }
    ensures { OnOk result (list.new.items ≡ list.old.items ++ map (call_at places.now caller) (calls_in function.now)) }
{
    for block in function.blocks.as_slice() {
        add_calls_of_block(list, places, count, caller, block.insts.as_slice())?;
    }
    Ok(())
}

/// All calls of these functions, in text order.
pub fn calls_of(
    alloc: Global,
    places: &Functions,
    functions: &[Function],
) -> Result<Vec<Call>, Memory>
    requires { places.now ≡ functions.now }
    ensures { IfOk result (λ list. list.items ≡ calls_of_all functions.now) }
{
    let mut list = Vec::new(alloc);
    for (caller, function) in functions.iter().enumerate() {
        add_calls(&mut list, places, functions.len(), caller, function)?;
    }
    Ok(list)
}

/// As many empty lists.
fn empty_lists(alloc: Global, count: usize) -> Result<Vec<Vec<usize>>, Memory>
    ensures { IfOk result (λ lists. AreCallersOf [] count lists.items) }
{
    let mut lists = Vec::with_capacity(alloc, count)?;
    for _ in 0..count {
        lists.push(Vec::new(alloc))?;
    }
    Ok(lists)
}

/// Adds a place to one of the lists.
fn add(lists: &mut Vec<Vec<usize>>, at: usize, place: usize) -> Result<(), Memory>
    requires { at < length lists.old.items }
    ensures { OnOk result (HasOneMore lists.old.items lists.new.items at place) }
{
    lists[at].push(place)?;
    Ok(())
}

/// For each function who calls it, once for each call.
pub fn callers_of(alloc: Global, count: usize, calls: &[Call]) -> Result<Vec<Vec<usize>>, Memory>
    requires { AreBelow count calls.now }
    ensures { IfOk result (λ lists. AreCallersOf calls.now count lists.items) }
{
    let mut lists = empty_lists(alloc, count)?;
    for call in calls {
        add(&mut lists, call.callee, call.caller)?;
    }
    Ok(lists)
}

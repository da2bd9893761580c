// The order of a module's functions.
ghost use Rattle.std.specs.Prelude.{◌≡◌, ◌<◌, ◌≤◌, ℕ, IfOk, IfErr, OnOk, Contains, length, map, filter, slice_index};
ghost use Rattle.profile_rules.specs.Calls.{HaveOwnIds, AreCalleesFunctions, ids_of, numbers, IsCallOrder, IsAcyclic, IsWithinCalls, IsRight};
ghost use Rattle.call_order.specs.Graph.{AreBelow, AreCallers, number};
ghost use Rattle.call_order.specs.Checked.{IsWhole, IsCycleFault};
ghost use Rattle.call_order.specs.Depths.{is_reached};

use crate::calls::{callers_of, calls_of, place_of};
use crate::cycle::call_on_cycle;
use crate::graph::Call;
use crate::queue::list;
use crate::reach::depths;
use spv_index::Functions;
use spv_module::{Function, Id, Module};
use spv_words::{Fault, Memory, Refusal, Rule};
use std::alloc::Global;

/// All functions in order, by their places. It refuses by M6 a call on a cycle.
fn whole_order(alloc: Global, calls: &[Call], callers: &[Vec<usize>]) -> Result<Vec<usize>, Fault>
    requires below { AreBelow (length callers.now) calls.now }
    requires callers { AreCallers calls.now callers.now }
    ensures whole { IfOk result (λ order. IsWhole calls.now (length callers.now) order.items) }
    ensures refused { IfErr result (IsCycleFault calls.now) }
{
    let listing = list(alloc, calls, callers)?;
    match call_on_cycle(alloc, calls, &listing.missing)? {
        None => Ok(listing.order),
        Some(call) => Err(Fault::Refused(Refusal {
            rule: Rule::M6,
            at: call.at,
        })),
    }
}

/// The ids of the functions that are reached, in the order of their places.
fn reached_ids(
    alloc: Global,
    functions: &[Function],
    order: &[usize],
    depths: &[u32],
) -> Result<Vec<Id>, Memory>
    requires functions { (k : ℕ) → k < length order.now → slice_index order.now k < length functions.now }
    requires depths { length functions.now ≤ length depths.now }
    ensures { IfOk result (λ ids. numbers ids.items ≡ map (number functions.now) (filter (is_reached depths.now) order.now)) }
{
    let mut ids = Vec::new(alloc);
    for place in order {
        if depths[*place] > 0 {
            ids.push(functions[*place].id)?;
        }
    }
    Ok(ids)
}

/// The functions that calls reach from the entry, each once, callees first; of those whose callees
/// are all listed the earliest in the module comes next. Each OpFunctionCall counts, also in blocks
/// that are not reached.
///
/// It refuses by M6 a call on a cycle of calls, also among functions that are not reached
/// (SPIR-V 1.6, section 2.16.1: "Recursion is not allowed"), and where there is none by
/// `Limit::Calls` a chain of calls from the entry that is longer than the limit.
pub fn order(alloc: Global, module: &Module, entry: Id) -> Result<Vec<Id>, Fault>
    requires own_ids { HaveOwnIds «module».now.functions }
    requires callees { AreCalleesFunctions «module».now.functions }
    requires entry { Contains (ids_of «module».now.functions) entry.0 }
    ensures order { IfOk result (λ ids. IsCallOrder «module».now.functions entry.0 (numbers ids.items)) }
    ensures acyclic { OnOk result (IsAcyclic «module».now.functions) }
    ensures within { OnOk result (IsWithinCalls «module».now.functions entry.0) }
    ensures refused { IfErr result (IsRight «module».now.functions entry.0) }
{
    let functions = module.functions();
    let places = Functions::of(alloc, module)?;
    let calls = calls_of(alloc, &places, functions)?;
    let callers = callers_of(alloc, functions.len(), &calls)?;
    let all = whole_order(alloc, &calls, &callers)?;
    let start = place_of(&places, functions.len(), entry);
    let depths = depths(alloc, &calls, &all, &callers, start)?;
    Ok(reached_ids(alloc, functions, &all, &depths)?)
}

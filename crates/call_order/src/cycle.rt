// A call on a cycle, where some functions cannot be listed.
ghost use Rattle.std.specs.Prelude.{◌≡◌, ◌<◌, ℕ, None, Some, IfOk, IfSome, IfNone as OnNone, length, slice_index, Option};
ghost use Rattle.call_order.specs.Graph.{AreBelow};
ghost use Rattle.call_order.specs.Cycle.{AreWaits, AreLinked, ClosesCycle, IsOnCycle, IsStuck, wait_of};

use crate::graph::Call;
use spv_words::Memory;
use std::alloc::Global;

/// For each function the last of its calls of functions that are not listed.
fn waits_of(alloc: Global, calls: &[Call], missing: &[usize]) -> Result<Vec<Option<Call>>, Memory>
    requires { AreBelow (length missing.now) calls.now }
    ensures { IfOk result (λ waits. AreWaits calls.now calls.now missing.now waits.items) }
{
    let mut waits = vec![in alloc; None; missing.len()]?;
    for call in calls {
        if missing[call.callee] > 0 {
            waits[call.caller] = Some(*call);
        }
    }
    Ok(waits)
}

/// The call kept for a function.
fn wait(waits: &[Option<Call>], function: usize) -> Option<Call>
    ensures { result ≡ wait_of waits.now function }
{
    waits.get(function).copied().unwrap_or(None)
}

/// The first call that is kept.
fn first_wait(waits: &[Option<Call>]) -> Option<Call>
    ensures some { IfSome result (λ c. (p : ℕ) × (wait_of waits.now p ≡ Some c)) }
    ensures none { OnNone result ((p : ℕ) → p < length waits.now → wait_of waits.now p ≡ None) }
{
    for wait in waits {
        if wait.is_some() {
            return *wait;
        }
    }
    None
}

/// Goes from call to call, until it meets a function again.
fn closing_call(alloc: Global, waits: &[Option<Call>], first: Call) -> Result<Call, Memory>
    requires linked { AreLinked waits.now }
    requires kept { wait_of waits.now first.caller ≡ Some first }
    ensures { IfOk result (ClosesCycle waits.now) }
{
    let mut seen = vec![in alloc; false; waits.len()]?;
    let mut call = first;
    while !seen[call.caller] {
        seen[call.caller] = true;
        call = wait(waits, call.callee).unwrap_or(call);
    }
    Ok(call)
}

/// A call on a cycle, and `None` where all functions are listed.
pub fn call_on_cycle(
    alloc: Global,
    calls: &[Call],
    missing: &[usize],
) -> Result<Option<Call>, Memory>
    requires below { AreBelow (length missing.now) calls.now }
    requires stuck { IsStuck calls.now missing.now }
    ensures some { IfOk result (λ o. IfSome o (IsOnCycle calls.now)) }
    ensures none { IfOk result (λ o. OnNone o ((p : ℕ) → slice_index missing.now p ≡ 0)) }
{
    let waits = waits_of(alloc, calls, missing)?;
    match first_wait(&waits) {
        None => Ok(None),
        Some(first) => Ok(Some(closing_call(alloc, &waits, first)?)),
    }
}

// All functions in order: one comes when all that it calls is listed, and of those the earliest.
ghost use Rattle.std.specs.Prelude.{◌<◌, ◌≤◌, ℕ, OnOk, IfOk, All, length, slice_index, Vec};
ghost use Rattle.std.specs.BTreeSet.{contains};
ghost use Rattle.std.specs.Ordering.{nat_cmp};
ghost use Rattle.call_order.specs.Graph.{AreBelow, AreCallers};
ghost use Rattle.call_order.specs.Released.{IsReleased, times};
ghost use Rattle.call_order.specs.Listing.{AreCounts, AreReady, IsFinished};

use crate::graph::Call;
use spv_words::Memory;
use std::alloc::Global;
use std::collections::BTreeSet;

/// Functions in order, by their places, and for each function how many of its calls are of functions
/// that are not listed.
#[derive(Drop)]
pub struct Listing {
    pub order: Vec<usize>,
    pub missing: Vec<usize>,
}

/// How many calls each function makes.
fn call_counts(alloc: Global, count: usize, calls: &[Call]) -> Result<Vec<usize>, Memory>
    requires { AreBelow count calls.now }
    ensures { IfOk result (λ counts. AreCounts calls.now count counts.items) }
{
    let mut counts = vec![in alloc; 0; count]?;
    for call in calls {
        counts[call.caller] += 1;
    }
    Ok(counts)
}

/// The functions that call nothing.
fn first_ready(alloc: Global, counts: &[usize]) -> Result<BTreeSet<usize>, Memory>
    ensures { IfOk result (λ ready. AreReady counts.now (length counts.now) (contains nat_cmp ready)) }
{
    let mut ready = BTreeSet::new(alloc);
    for (p, count) in counts.iter().enumerate() {
        if *count == 0 {
            ready.insert(p)?;
        }
    }
    Ok(ready)
}

/// Counts each caller down by one for each of its calls, and makes it ready where none is left.
fn release(
    callers: &[usize],
    missing: &mut [usize],
    ready: &mut BTreeSet<usize>,
) -> Result<(), Memory>
    requires inside { All (λ p. p < length missing.old) callers.now }
    requires enough { (p : ℕ) → times p callers.now ≤ slice_index missing.old p }
    ensures { OnOk result (IsReleased callers.now missing.old missing.new (contains nat_cmp ready.old) (contains nat_cmp ready.new)) }
{
    for caller in callers {
        let left = missing[*caller] - 1;
        missing[*caller] = left;
        if left == 0 {
            ready.insert(*caller)?;
        }
    }
    Ok(())
}

/// The functions, callees first, the earliest of those that are ready next, as far as no calls form
/// a cycle.
pub fn list(alloc: Global, calls: &[Call], callers: &[Vec<usize>]) -> Result<Listing, Memory>
    requires below { AreBelow (length callers.now) calls.now }
    requires callers { AreCallers calls.now callers.now }
    ensures { IfOk result (λ l. IsFinished calls.now (length callers.now) l.order.items l.missing.items) }
{
    let mut missing = call_counts(alloc, callers.len(), calls)?;
    let mut ready = first_ready(alloc, &missing)?;
    let mut order = Vec::new(alloc);
    while let Some(next) = ready.pop_first() {
        order.push(next)?;
        release(&callers[next], &mut missing, &mut ready)?;
    }
    Ok(Listing { order, missing })
}

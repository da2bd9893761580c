// Which functions calls reach from the entry, and how long the chains are that lead there.
ghost use Rattle.std.specs.Prelude.{◌≡◌, ◌<◌, ◌≤◌, ℕ, IfOk, IfErr, All, length, slice_index, true};
ghost use Rattle.spv_words.specs.Limit.{limit_number};
ghost use Rattle.spv_words.specs.declared.rule.Limit.TheVariants.{Calls as CallLimit};
ghost use Rattle.call_order.specs.Graph.{AreBelow, AreCallers, is_in};
ghost use Rattle.call_order.specs.Listing.{IsListing};
ghost use Rattle.call_order.specs.Depths.{IsDeepest, AreDepths, IsDepthFault};

use crate::graph::Call;
use spv_words::{Fault, Limit};
use std::alloc::Global;

/// One more than the deepest of these that is reached, and 0 where none is.
fn deepest(callers: &[usize], depths: &[u32]) -> u32
    requires inside { All (λ p. p < length depths.now) callers.now }
    requires small { (p : ℕ) → slice_index depths.now p ≤ limit_number CallLimit }
    ensures { IsDeepest callers.now depths.now result }
{
    let mut deepest = 0;
    for caller in callers {
        let depth = depths[*caller];
        if depth > 0 {
            deepest = deepest.max(depth + 1);
        }
    }
    deepest
}

/// For each function how many are on the longest chain of calls from the entry to it, and 0 where
/// it is not reached. It refuses by `Limit::Calls` a chain that is longer than the limit.
pub fn depths(
    alloc: Global,
    calls: &[Call],
    order: &[usize],
    callers: &[Vec<usize>],
    entry: usize,
) -> Result<Vec<u32>, Fault>
    requires below { AreBelow (length callers.now) calls.now }
    requires callers { AreCallers calls.now callers.now }
    requires listing { IsListing calls.now (length callers.now) order.now }
    requires listed { (p : ℕ) → p < length callers.now → is_in order.now p ≡ true }
    requires entry { entry < length callers.now }
    ensures depths { IfOk result (λ list. AreDepths calls.now (length callers.now) entry list.items) }
    ensures refused { IfErr result (IsDepthFault calls.now entry) }
{
    let mut depths = vec![in alloc; 0; callers.len()]?;
    depths[entry] = 1;
    for k in (0..order.len()).rev() {
        let function = order[k];
        let depth = deepest(&callers[function], &depths).max(depths[function]);
        if depth > Limit::Calls.number() {
            return Err(Fault::Limit(Limit::Calls));
        }
        depths[function] = depth;
    }
    Ok(depths)
}

// How many pairs that are left read each target.
ghost use Rattle.std.specs.Prelude.{◌≡◌, ◌<◌, ◌+◌, ◌^◌, ℕ, None, IfOk, IfSome, OnOk, length, slice_index};
ghost use Rattle.std.specs.BTreeMap.{get};
ghost use Rattle.std.specs.BTreeSet.{contains};
ghost use Rattle.std.specs.Ordering.{nat_cmp};
ghost use Rattle.phi_copies.specs.Sequence.{HaveOwnTargets};
ghost use Rattle.phi_copies.specs.Kept.{ArePlaces, AreCounts, AreBelow, AreReady, IsAdded, IsReleased};

use crate::moves::{Src, Var};
use crate::places::source_place;
use spv_words::Memory;
use std::alloc::Global;
use std::collections::{BTreeMap, BTreeSet};

/// Counts one reader more.
fn add_reader(place: Option<usize>, counts: &mut [usize])
    requires inside { IfSome place (λ k. k < length counts.old) }
    requires small { IfSome place (λ k. slice_index counts.old k + 1 < 2 ^ 64) }
    ensures { IsAdded place counts.old counts.new }
{
    if let Some(k) = place {
        counts[k] += 1;
    }
}

/// How many pairs read each target, where no spare stands for one.
pub fn reader_counts(
    alloc: Global,
    pairs: &[(Var, Src)],
    places: &BTreeMap<u32, usize>,
    spares: &BTreeMap<u32, u32>,
) -> Result<Vec<usize>, Memory>
    requires own { HaveOwnTargets pairs.now }
    requires places { ArePlaces pairs.now (length pairs.now) (get nat_cmp places.now) }
    requires spares { (v : ℕ) → get nat_cmp spares.now v ≡ None }
    ensures { IfOk result (λ counts. AreCounts pairs.now (length pairs.now) counts.items) }
{
    let mut counts = vec![in alloc; 0; pairs.len()]?;
    for pair in pairs {
        add_reader(source_place(places, spares, pair.1), &mut counts);
    }
    Ok(counts)
}

/// All places.
pub fn all_places(alloc: Global, count: usize) -> Result<BTreeSet<usize>, Memory>
    ensures { IfOk result (λ left. AreBelow count (contains nat_cmp left)) }
{
    let mut left = BTreeSet::new(alloc);
    for i in 0..count {
        left.insert(i)?;
    }
    Ok(left)
}

/// The places of the targets that nobody reads.
pub fn unread_places(alloc: Global, counts: &[usize]) -> Result<BTreeSet<usize>, Memory>
    ensures { IfOk result (λ ready. AreReady counts.now (length counts.now) (contains nat_cmp ready)) }
{
    let mut ready = BTreeSet::new(alloc);
    for (i, count) in counts.iter().enumerate() {
        if *count == 0 {
            ready.insert(i)?;
        }
    }
    Ok(ready)
}

/// Counts one reader less, and makes the pair ready where none is left.
pub fn release(
    place: Option<usize>,
    counts: &mut [usize],
    ready: &mut BTreeSet<usize>,
) -> Result<(), Memory>
    requires { IfSome place (λ k. 0 < slice_index counts.old k) }
    ensures { OnOk result (IsReleased place counts.old counts.new (contains nat_cmp ready.old) (contains nat_cmp ready.new)) }
{
    let Some(k) = place else {
        return Ok(());
    };
    let left = counts[k] - 1;
    counts[k] = left;
    if left == 0 {
        ready.insert(k)?;
    }
    Ok(())
}

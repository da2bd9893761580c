// Each key once.
ghost use Rattle.std.specs.Prelude.{◌≡◌, ◌++◌, ◌∷◌, [], ℕ, not, IfOk, OnOk, if◌then◌else◌};
ghost use Rattle.std.specs.BTreeSet.{contains};
ghost use Rattle.std.specs.Ordering.{nat_cmp};
ghost use Rattle.function_plan.specs.Once.{with_id, once, itself};

use std::alloc::{AllocError, Global};
use std::collections::BTreeSet;

/// Adds a number to those that were seen, and answers whether it is new.
pub fn is_new(seen: &mut BTreeSet<usize>, id: usize) -> Result<bool, AllocError>
    ensures new { IfOk result (λ new. new ≡ not (contains nat_cmp seen.old id)) }
    ensures seen { OnOk result ((q : ℕ) → contains nat_cmp seen.new q ≡ with_id id (contains nat_cmp seen.old) q) }
{
    Ok(seen.insert(id)?)
}

/// Adds an item, where it passes.
pub fn add_if<T: Copy>(list: &mut Vec<T>, item: T, passes: bool) -> Result<(), AllocError>
    ensures { OnOk result (list.new.items ≡ list.old.items ++ (if passes then item ∷ [] else [])) }
{
    if passes {
        list.push(item)?;
    }
    Ok(())
}

/// Each of these numbers once, where it stands first.
#[tactic(auto, using(crate::proofs::Singled::once_rules))]
pub fn each_once(alloc: Global, ids: &[usize]) -> Result<Vec<usize>, AllocError>
    ensures { IfOk result (λ list. list.items ≡ once itself ids.now) }
{
    let mut list = Vec::new(alloc);
    let mut seen = BTreeSet::new(alloc);
    for id in ids {
        let new = is_new(&mut seen, *id)?;
        add_if(&mut list, *id, new)?;
    }
    Ok(list)
}

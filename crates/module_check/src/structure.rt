// The structure of all functions.
ghost use Rattle.std.specs.Prelude.{◌≡◌, IfErr, IfOk, OnOk, map};
ghost use Rattle.structure_rules.specs.Graph.{graph};
ghost use Rattle.module_check.specs.Structure.{AreStructured, IsUnstructured};

use nest_place::{Places, places_by};
use spv_index::Locals;
use spv_words::Fault;
use std::alloc::Global;

/// Judges the structure of functions, one by one, and gives the places of their blocks. It refuses by
/// K1 to K11 and by the limit on depth, as that of a function does; the only other error is want of
/// memory.
#[tactic(auto, using(crate::proofs::Functions::unstructured))]
pub fn check_structure(alloc: Global, functions: &[Locals]) -> Result<Vec<Places>, Fault>
    ensures passes { OnOk result (AreStructured functions.now) }
    ensures places { IfOk result (λ list. list.items ≡ map graph functions.now) }
    ensures refused { IfErr result (IsUnstructured functions.now) }
{
    let mut list = Vec::new(alloc);
    for function in functions {
        list.push(places_by(alloc, function)?)?;
    }
    Ok(list)
}

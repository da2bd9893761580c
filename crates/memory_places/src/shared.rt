// The numbers of the Workgroup variables that are mentioned.
ghost use Rattle.std.specs.Prelude.{◌≡◌, ℕ, filter, map, min, IfOk};
ghost use Rattle.std.specs.Option.{option_map_or};
ghost use Rattle.id_map.specs.Entries.{id_place, is_in};
ghost use Rattle.module_semantics.specs.Setting.{is_in_class as is_in_class_of, shared_number};
ghost use Rattle.spv_module.specs.State.{ModuleState};
ghost use Rattle.memory_places.specs.Kernel.{bare_from};
ghost use Rattle.memory_places.specs.Capped.{most_variables};
ghost use Rattle.memory_places.specs.Mentions.{AreMentioned, AreNumbers, is_shared as is_shared_by};

use id_map::IdSet;
use spv_index::{Places, places_of};
use spv_module::{Inst, Module};
use spv_ops::{Op, StorageClass};
use spv_words::Memory;
use std::alloc::{AllocError, Global};

/// Whether this is an OpVariable in a storage class.
pub fn is_in_class(class: StorageClass, inst: &Inst) -> bool
    ensures { result ≡ is_in_class_of class inst.now }
{
    inst.op == Op::Variable && inst.operand(0) == class.number()
}

/// Whether this is a Workgroup variable that is mentioned.
fn is_shared(mentioned: &IdSet, inst: &Inst) -> bool
    ensures { result ≡ is_shared_by (is_in mentioned.now) inst.now }
{
    is_in_class(StorageClass::Workgroup, inst) && mentioned.has(inst.result)
}

/// The ids of the Workgroup variables that are mentioned, in the order of the module.
fn shared_ids(alloc: Global, globals: &[Inst], mentioned: &IdSet) -> Result<Vec<u32>, AllocError>
    ensures { IfOk result (λ ids. ids.items ≡ map (λ g. g.result) (filter (is_shared_by (is_in mentioned.now)) globals.now)) }
{
    globals
        .iter()
        .filter(|inst| is_shared(mentioned, *inst))
        .map(|inst| inst.result)
        .collect::<Vec<u32>>(alloc)
}

/// The place of each Workgroup variable among those that are mentioned. There is an error only for want of memory.
#[tactic(auto, using(crate::proofs::Numbers::number_rules))]
pub fn shared_places(
    alloc: Global,
    module: &Module,
    mentioned: &IdSet,
    entry: u32,
) -> Result<Places, Memory>
    requires { AreMentioned «module».now entry (is_in mentioned.now) }
    ensures { IfOk result (λ places. AreNumbers «module».now entry (id_place places)) }
{
    let ids = shared_ids(alloc, module.globals(), mentioned)?;
    Ok(places_of(alloc, &ids)?)
}

fn capped(place: usize) -> u32
    ensures { result ≡ min most_variables place }
{
    if place < 4294967295 {
        place as u32
    } else {
        u32::MAX
    }
}

fn place_or_none(place: Option<usize>) -> u32
    ensures { result ≡ min most_variables (option_map_or (λ k. k) place 0) }
{
    match place {
        None => 0,
        Some(place) => capped(place),
    }
}

/// The number of a variable by its place, 0 where it has none, and at most the greatest of 32 bits.
#[tactic(auto, using(crate::proofs::Numbers::number_is))]
pub fn number(places: &Places, id: u32) -> u32
    ensures { (m : ModuleState) (entry : ℕ) → AreNumbers m entry (id_place places.now) → result ≡ min most_variables (shared_number (bare_from m entry) id) }
{
    place_or_none(places.get(id))
}

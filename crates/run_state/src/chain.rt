// Chains of indexes that are based on others.
ghost use Rattle.std.specs.Prelude.{◌≡◌, ◌==◌, ℕ, IfOk, OnOk, filter, not, if◌then◌else◌};
ghost use Rattle.module_semantics.specs.Steps.{with_based, based_among, is_based_on};
ghost use Rattle.module_semantics.specs.Setting.{is_listed};
ghost use Rattle.run_state.specs.Ids.{ids_of, without, based_by};

use crate::conf::{Ids, forget};
use spv_index::Locals;
use spv_module::Inst;
use spv_words::Memory;
use std::alloc::Global;

/// Whether a chain with this base is based on a chain, where these are.
fn is_based(based: &[u32], chain: u32, base: u32) -> bool
    ensures { result ≡ based_by (base == chain) (is_listed based.now base) }
{
    base == chain || based.contains(&base)
}

/// Takes an id out of a list.
fn unlist(list: &mut Vec<u32>, id: u32)
    ensures { list.new.items ≡ filter (λ x. not (x == id)) list.old.items }
{
    list.retain(|x| *x != id);
}

/// An id is listed from now on, or is not.
#[tactic(auto, using(crate::proofs::Based::listed_rules))]
fn note(list: &mut Vec<u32>, id: u32, listed: bool) -> Result<(), Memory>
    ensures { OnOk result ((q : ℕ) → is_listed list.new.items q ≡ (if id == q then listed else is_listed list.old.items q)) }
{
    if listed {
        list.push(id)?;
    } else {
        unlist(list, id);
    }
    Ok(())
}

/// The ids of chains that are based on a chain, directly or through others, with one instruction more.
fn add_based(based: &mut Vec<u32>, chain: u32, inst: &Inst) -> Result<(), Memory>
    ensures { OnOk result ((id : ℕ) → is_listed based.new.items id ≡ with_based chain (is_listed based.old.items) inst.now id) }
{
    if inst.op.is_chain() {
        let listed = is_based(based, chain, inst.operand(0));
        note(based, inst.result, listed)?;
    }
    Ok(())
}

fn add_based_in(based: &mut Vec<u32>, chain: u32, insts: &[Inst]) -> Result<(), Memory>
    ensures { OnOk result ((id : ℕ) → is_listed based.new.items id ≡ based_among chain (is_listed based.old.items) insts.now id) }
{
    for inst in insts {
        add_based(based, chain, inst)?;
    }
    Ok(())
}

/// The ids of chains that are based on a chain, directly or through others.
pub fn based_on(alloc: Global, locals: &Locals<'_>, chain: u32) -> Result<Vec<u32>, Memory>
    ensures { IfOk result (λ based. (id : ℕ) → is_listed based.items id ≡ is_based_on locals.now chain id) }
{
    let mut based = Vec::new(alloc);
    for block in locals.function().blocks.as_slice() {
        add_based_in(&mut based, chain, block.insts.as_slice())?;
    }
    Ok(based)
}

/// These ids have nothing from now on, but for one. It takes no memory.
pub fn forget_all(ids: &mut Ids, list: &[u32], but: u32)
    ensures { (id : ℕ) → ids_of ids.new id ≡ (if id == but then ids_of ids.old id else without (is_listed list.now) (ids_of ids.old) id) }
{
    for id in list {
        if *id != but {
            forget(ids, *id);
        }
    }
}

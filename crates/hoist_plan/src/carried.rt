// The chains that other blocks need.
ghost use Rattle.std.specs.Prelude.{◌≡◌, ℕ, IfOk, OnOk, map};
ghost use Rattle.std.specs.List.{list_any};
ghost use Rattle.std.specs.BTreeSet.{contains};
ghost use Rattle.std.specs.Ordering.{nat_cmp};
ghost use Rattle.hoist_plan.specs.Plan.{carries_by as carries_by_in, carries as carries_in, is_carried_with, with_carried, carried_from};
ghost use Rattle.hoist_plan.specs.Kept.{placed_chain};

use crate::mention::{stands_elsewhere, user};
use crate::row::Chain;
use spv_index::Locals;
use spv_module::Inst;
use spv_words::Memory;
use std::alloc::{AllocError, Global};
use std::collections::BTreeSet;
use use_chains::{BASE, SlotPlace};

/// Whether another block needs a chain because of the instruction that mentions it.
fn carries_by(
    locals: &Locals,
    carried: &BTreeSet<u32>,
    block: usize,
    at: SlotPlace,
    inst: &Inst,
) -> bool
    ensures { result ≡ carries_by_in locals.now (contains nat_cmp carried.now) block at inst.now }
{
    stands_elsewhere(locals, block, at, inst)
        || at.arg == BASE && inst.op.is_chain() && carried.contains(&inst.result)
}

fn carries(locals: &Locals, carried: &BTreeSet<u32>, block: usize, at: SlotPlace) -> bool
    ensures { result ≡ carries_in locals.now (contains nat_cmp carried.now) block at }
{
    match user(locals.function(), at) {
        Some(inst) => carries_by(locals, carried, block, at, inst),
        None => false,
    }
}

fn some_carries(
    locals: &Locals,
    carried: &BTreeSet<u32>,
    block: usize,
    places: &[SlotPlace],
) -> bool
    ensures { result ≡ list_any (carries_in locals.now (contains nat_cmp carried.now) block) places.now }
{
    places.iter().any(|at| carries(locals, carried, block, *at))
}

/// Whether another block needs a chain, where it is known of those behind it.
fn is_carried(locals: &Locals, carried: &BTreeSet<u32>, chain: &Chain) -> bool
    ensures { result ≡ is_carried_with locals.now (contains nat_cmp carried.now) (placed_chain chain.now) }
{
    let row = &chain.row;
    row.op.is_chain()
        && (carried.contains(&row.result)
            || some_carries(locals, carried, row.block, chain.mentions.as_slice()))
}

/// Adds a chain where another block needs it.
fn add_if_carried(
    locals: &Locals,
    carried: &mut BTreeSet<u32>,
    chain: &Chain,
) -> Result<(), AllocError>
    ensures { OnOk result ((n : ℕ) → contains nat_cmp carried.new n ≡ with_carried locals.now (contains nat_cmp carried.old) (placed_chain chain.now) n) }
{
    if is_carried(locals, carried, chain) {
        carried.insert(chain.row.result)?;
    }
    Ok(())
}

/// Those of these chains that another block needs.
pub fn carried(alloc: Global, locals: &Locals, chains: &[Chain]) -> Result<BTreeSet<u32>, Memory>
    ensures { IfOk result (λ carried. (n : ℕ) → contains nat_cmp carried n ≡ carried_from locals.now (map placed_chain chains.now) n) }
{
    let mut carried = BTreeSet::new(alloc);
    for k in (0..chains.len()).rev() {
        add_if_carried(locals, &mut carried, &chains[k])?;
    }
    Ok(carried)
}

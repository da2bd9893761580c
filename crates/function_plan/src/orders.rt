// In which order the targets of switches are written.
ghost use Rattle.std.specs.Prelude.{◌≡◌, ◌<◌, ◌++◌, ◌||◌, ◌==◌, ◌+◌, ℕ, true, IfOk, OnOk, flat_map, length};
ghost use Rattle.std.specs.BTreeSet.{contains};
ghost use Rattle.std.specs.Ordering.{nat_cmp};
ghost use Rattle.structure_rules.specs.Graph.{nth};
ghost use Rattle.switch_ladder.specs.Ladder.{items_of};
ghost use Rattle.function_plan.specs.Orders.{is_among, others_of, order_with as order_with_targets, order_of as order_at, order_by, is_reached_switch as is_reached_switch_node};
ghost use Rattle.function_plan.specs.Planned.{order_in, AreOrdersBelow};

use crate::once::add_if;
use nest_place::Places;
use spv_words::Memory;
use std::alloc::{AllocError, Global};
use std::collections::{BTreeMap, BTreeSet};
use structure_recover::targets_of;
use structure_rules::{Exit, Node};
use switch_ladder::chains_among;

/// For each switch that is reached the order of its targets.
pub type Orders = BTreeMap<usize, Vec<usize>>;

/// Adds blocks.
fn add_all(blocks: &mut Vec<usize>, more: &[usize]) -> Result<(), AllocError>
    ensures { OnOk result (blocks.new.items ≡ blocks.old.items ++ more.now) }
{
    blocks.extend_from_slice(more)?;
    Ok(())
}

/// The blocks of chains, one behind the other, with room for so many.
fn chained(alloc: Global, chains: &[Vec<usize>], count: usize) -> Result<Vec<usize>, AllocError>
    ensures { IfOk result (λ blocks. blocks.items ≡ flat_map items_of chains.now) }
{
    let mut blocks = Vec::with_capacity(alloc, count)?;
    for chain in chains {
        add_all(&mut blocks, chain.as_slice())?;
    }
    Ok(blocks)
}

/// Adds a block to a set.
fn add(set: &mut BTreeSet<usize>, block: usize) -> Result<(), AllocError>
    ensures { OnOk result ((q : ℕ) → contains nat_cmp set.new q ≡ (contains nat_cmp set.old q || block == q)) }
{
    set.insert(block)?;
    Ok(())
}

/// A set of blocks.
fn set_of(alloc: Global, blocks: &[usize]) -> Result<BTreeSet<usize>, AllocError>
    ensures { IfOk result (λ set. (q : ℕ) → contains nat_cmp set q ≡ is_among blocks.now q) }
{
    let mut set = BTreeSet::new(alloc);
    for block in blocks {
        add(&mut set, *block)?;
    }
    Ok(set)
}

/// Adds the targets that are in no chain.
fn add_others(
    order: &mut Vec<usize>,
    targets: &[usize],
    chained: &BTreeSet<usize>,
) -> Result<(), AllocError>
    ensures { OnOk result (order.new.items ≡ order.old.items ++ others_of (contains nat_cmp chained.now) targets.now) }
{
    for target in targets {
        add_if(order, *target, !chained.contains(target))?;
    }
    Ok(())
}

/// The blocks of chains, and then those targets that are in no chain.
fn order_with(
    alloc: Global,
    chains: &[Vec<usize>],
    targets: &[usize],
) -> Result<Vec<usize>, AllocError>
    ensures { IfOk result (λ order. order.items ≡ order_with_targets (flat_map items_of chains.now) targets.now) }
{
    let mut order = chained(alloc, chains, targets.len())?;
    let set = set_of(alloc, order.as_slice())?;
    add_others(&mut order, targets, &set)?;
    Ok(order)
}

/// The targets of a switch in the order in which they are written: its chains, and then the others in the order of the
/// function (GLSL 4.60, section 6.2).
fn order_of(alloc: Global, places: &Places, header: usize) -> Result<Vec<usize>, Memory>
    requires { (nth places.now header).reached ≡ true }
    ensures { IfOk result (λ order. order.items ≡ order_at places.now header) }
{
    let targets = targets_of(alloc, places, header)?;
    let chains = chains_among(alloc, places, header, targets.as_slice())?;
    Ok(order_with(alloc, chains.as_slice(), targets.as_slice())?)
}

fn is_reached_switch(node: &Node) -> bool
    ensures { result ≡ is_reached_switch_node node.now }
{
    node.reached && matches!(node.exit, Exit::Switch)
}

/// Adds the order of the targets of a block, where it is a switch that is reached.
fn add_order(
    orders: &mut Orders,
    alloc: Global,
    places: &Places,
    header: usize,
) -> Result<(), Memory>
    requires within { header < length places.now }
    requires below { AreOrdersBelow places.now header orders.old }
    ensures { OnOk result (AreOrdersBelow places.now (header + 1) orders.new) }
{
    if is_reached_switch(&places.nodes()[header]) {
        let order = order_of(alloc, places, header)?;
        orders.insert(header, order)?;
    }
    Ok(())
}

/// The orders of the targets of the switches that are reached.
#[inline(always)]
#[tactic(auto, using(crate::proofs::Ordered::order_rules))]
pub fn orders_of(alloc: Global, places: &Places) -> Result<Orders, Memory>
    ensures { IfOk result (λ orders. (h : ℕ) → order_in orders h ≡ order_by places.now h) }
{
    let mut orders = BTreeMap::new(alloc);
    for header in 0..places.nodes().len() {
        add_order(&mut orders, alloc, places, header)?;
    }
    Ok(orders)
}

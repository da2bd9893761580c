// From blocks to regions.
ghost use Rattle.std.specs.Prelude.{◌≡◌, ◌++◌, ◌∷◌, [], true, false, IfOk, OnOk, map};
ghost use Rattle.structure_rules.specs.Graph.{graph, nth, is_conditional, is_switch};
ghost use Rattle.structure_recover.specs.Tree.{head as head_of, is_loop, switch as switch_item};
ghost use Rattle.structure_recover.specs.View.{region_of, item_of, group_of, groups_of};
ghost use Rattle.structure_recover.specs.Follows.{Follows, FollowsItem, StandsAt, IsTree, first as first_of};
ghost use Rattle.structure_recover.specs.Once.{StandsOnce};
ghost use Rattle.structure_recover.specs.Later.{IsReached, block_of};

use crate::arms::arms_of;
use crate::edges::{
    Next, Start, along, along_target, behind, continue_block, heads_loop, is_selection, node,
};
use crate::region::{Exit, Group, Item, Region};
use nest_place::Places;
use spv_module::Function;
use spv_words::Memory;
use std::alloc::{AllocError, Global};
use structure_rules::Exit as Terminator;

/// For how many items a region has room at first, where control goes on so behind the first.
fn room(next: Next) -> usize {
    match next {
        Next::Stop(_) => 1,
        Next::At(_) => 2,
    }
}

/// Appends an item, behind which control goes on so.
fn put(items: &mut Vec<Item>, item: Item, next: Next) -> Result<(), AllocError>
    ensures { OnOk result (items.new.items ≡ items.old.items ++ item ∷ []) }
{
    if items.is_empty() {
        items.reserve_exact(room(next))?;
    }
    items.push(item)?;
    Ok(())
}

/// A region.
#[cycle(recover)]
#[tactic(auto, using(crate::proofs::Views::view_rules))]
fn region(alloc: Global, f: &Function, places: &Places, from: Next) -> Result<Region, Memory>
    requires { IsReached places.now from }
    ensures { IfOk result (λ r. Follows f.now places.now (region_of r) from) }
{
    let mut items = Vec::new(alloc);
    let mut next = from;
    loop {
        match next {
            Next::Stop(exit) => return Ok(Region { items, exit }),
            Next::At(start) => {
                let item = item_at(alloc, f, places, start)?;
                next = behind(f, places, start);
                put(&mut items, item, next)?;
            }
        }
    }
}

/// The item with which a region begins.
#[cycle(recover)]
#[tactic(auto, using(crate::proofs::Views::view_rules))]
fn item_at(alloc: Global, f: &Function, places: &Places, start: Start) -> Result<Item, Memory>
    requires { (nth places.now (block_of start)).reached ≡ true }
    ensures stands { IfOk result (λ i. StandsAt places.now (item_of i) start) }
    ensures follows { IfOk result (λ i. FollowsItem f.now places.now (item_of i)) }
{
    match start {
        Start::Block(head) if heads_loop(places, head) => {
            let body = region(alloc, f, places, Next::At(Start::Body(head)))?;
            let body = Box::new(alloc, body)?;
            match continue_block(places, head) {
                None => Ok(Item::Loop {
                    head,
                    cont: None,
                    body,
                }),
                Some(block) => {
                    let cont = region(alloc, f, places, Next::At(Start::Block(block)))?;
                    let cont = Some(Box::new(alloc, cont)?);
                    Ok(Item::Loop { head, cont, body })
                }
            }
        }
        Start::Block(block) | Start::Body(block) => block_item(alloc, f, places, block),
    }
}

/// The item that stands for a block.
#[cycle(recover)]
#[tactic(auto, using(crate::proofs::Views::view_rules))]
fn block_item(alloc: Global, f: &Function, places: &Places, block: usize) -> Result<Item, Memory>
    requires { (nth places.now block).reached ≡ true }
    ensures head { IfOk result (λ i. (head_of (item_of i) ≡ block) × (is_loop (item_of i) ≡ false)) }
    ensures follows { IfOk result (λ i. FollowsItem f.now places.now (item_of i)) }
{
    match node(places, block).exit {
        Terminator::Branch | Terminator::Leave => Ok(Item::Plain(block)),
        Terminator::Conditional => conditional(alloc, f, places, block),
        Terminator::Switch => {
            let groups = groups(alloc, f, places, block)?;
            Ok(Item::Switch {
                head: block,
                groups,
            })
        }
    }
}

/// A conditional.
#[cycle(recover)]
#[tactic(auto, using(crate::proofs::Views::view_rules))]
fn conditional(alloc: Global, f: &Function, places: &Places, head: usize) -> Result<Item, Memory>
    requires reached { (nth places.now head).reached ≡ true }
    requires conditional { is_conditional (nth places.now head).exit ≡ true }
    ensures head { IfOk result (λ i. (head_of (item_of i) ≡ head) × (is_loop (item_of i) ≡ false)) }
    ensures follows { IfOk result (λ i. FollowsItem f.now places.now (item_of i)) }
{
    let taken = region(alloc, f, places, along_target(places, head, 0))?;
    let taken = Box::new(alloc, taken)?;
    let other = region(alloc, f, places, along_target(places, head, 1))?;
    let other = Box::new(alloc, other)?;
    if is_selection(node(places, head).merge) {
        Ok(Item::If { head, taken, other })
    } else {
        Ok(Item::Loose { head, taken, other })
    }
}

/// The groups of a switch.
#[cycle(recover)]
fn groups(alloc: Global, f: &Function, places: &Places, head: usize) -> Result<Vec<Group>, Memory>
    requires reached { (nth places.now head).reached ≡ true }
    requires switch { is_switch (nth places.now head).exit ≡ true }
    ensures { IfOk result (λ groups. FollowsItem f.now places.now (switch_item head (groups_of (map group_of groups.items)))) }
{
    let arms = arms_of(alloc, f, places, head)?;
    let mut groups = Vec::with_capacity(alloc, arms.len())?;
    for arm in arms {
        let body = region(alloc, f, places, along(places, head, arm.target))?;
        groups.push(Group {
            target: arm.target,
            labels: arm.labels,
            default: arm.default,
            body,
        })?;
    }
    Ok(groups)
}

/// Where the tree of a function begins: with its first block, where it has one.
#[tactic(auto, using(crate::proofs::Shape::first_rules))]
fn first(f: &Function, places: &Places) -> Next
    requires { places.now ≡ graph f.now }
    ensures first { result ≡ first_of places.now }
    ensures reached { IsReached places.now result }
{
    if places.nodes().is_empty() {
        Next::Stop(Exit::Closed)
    } else {
        Next::At(Start::Block(0))
    }
}

/// The tree of a function's control flow (SPIR-V 1.6, section 2.11), where the places are those of the
/// function. It begins with the first block and follows the edges. Each reached block stands in it once,
/// within the constructs that are round it, and the header of a loop within the loop.
#[tactic(auto, using(crate::proofs::Standing::tree_rules))]
pub fn recover(alloc: Global, f: &Function, places: &Places) -> Result<Region, Memory>
    requires { places.now ≡ graph f.now }
    ensures follows { IfOk result (λ r. IsTree f.now (region_of r)) }
    ensures once { IfOk result (λ r. StandsOnce (graph f.now) (region_of r)) }
{
    let _nodes = places.nodes();
    region(alloc, f, places, first(f, places))
}

// Where control goes on.
ghost use Rattle.std.specs.Prelude.{◌≡◌, ◌<◌, true, IfSome};
ghost use Rattle.structure_rules.specs.Graph.{nth, leads_to, merge_named, is_selection as is_selection_merge};
ghost use Rattle.nest_place.specs.Nests.{IsSound};
ghost use Rattle.structure_recover.specs.Follows.{Carries, CarriesTo, merged as merged_at, left as left_of, IsAfter, IsBehind, heads_loop as heads_loop_at, continue_block as continue_block_of, target as target_of};
ghost use Rattle.structure_recover.specs.Later.{IsLater, block_of};

use crate::region::Exit;
use block_graph::terminator;
use nest_place::{EdgeKind, Places};
use spv_module::Function;
use spv_ops::Op;
use structure_rules::{Exit as Terminator, Merge, Node};

/// With what a region begins: with a block, or the loop that it heads; or, as the body of a loop does,
/// with the header itself.
#[derive(Clone, Copy, Debug, PartialEq, Eq)]
pub enum Start {
    Block(usize),
    Body(usize),
}

/// Where control goes on, or how a region ends.
#[derive(Clone, Copy, Debug, PartialEq, Eq)]
pub enum Next {
    At(Start),
    Stop(Exit),
}

/// The node of a reached block.
#[tactic(auto, using(crate::proofs::Onward::node_rules))]
pub fn node(places: &Places, block: usize) -> &Node
    requires { (nth places.now block).reached ≡ true }
    ensures node { result.now ≡ nth places.now block }
    ensures sound { IsSound places.now }
{
    &places.nodes()[block]
}

/// Whether the block is one that is reached.
#[tactic(auto, using(crate::proofs::Onward::reached_rules))]
fn is_reached(places: &Places, block: usize) -> bool
    ensures { result ≡ (nth places.now block).reached }
{
    block < places.nodes().len() && places.reached(block)
}

/// Whether the block heads a loop.
pub fn heads_loop(places: &Places, block: usize) -> bool
    requires { (nth places.now block).reached ≡ true }
    ensures { result ≡ heads_loop_at places.now block }
{
    matches!(node(places, block).merge, Merge::Loop(_, _))
}

/// Where control goes on by an edge.
#[inline(always)]
#[tactic(auto, using(crate::proofs::Onward::edge_rules))]
pub fn along(places: &Places, from: usize, to: usize) -> Next
    requires reached { (nth places.now from).reached ≡ true }
    requires leads { leads_to to (nth places.now from) ≡ true }
    ensures carries { Carries places.now from to result }
    ensures later { IsLater places.now from result }
{
    let _node = node(places, from);
    match places.edge(from, to) {
        EdgeKind::Enter => Next::At(Start::Block(to)),
        kind => Next::Stop(Exit::Edge(from, to, kind)),
    }
}

/// Where control goes on by the edge to this target of a block.
#[inline(always)]
#[tactic(auto, using(crate::proofs::Onward::target_rules))]
pub fn along_target(places: &Places, from: usize, number: usize) -> Next
    requires reached { (nth places.now from).reached ≡ true }
    ensures carries { CarriesTo places.now from (target_of places.now from number) result }
    ensures later { IsLater places.now from result }
{
    match node(places, from).targets.as_slice().get(number) {
        None => Next::Stop(Exit::Closed),
        Some(to) => along(places, from, *to),
    }
}

/// The merge block that a merge instruction names.
fn merge_block(merge: Merge) -> Option<usize>
    ensures { result ≡ merge_named merge }
{
    match merge {
        Merge::Absent => None,
        Merge::Selection(block) | Merge::Loop(block, _) => Some(block),
    }
}

/// Where control goes on behind a construct: in the merge block of its header, where that is reached.
#[tactic(auto, using(crate::proofs::Onward::merge_rules))]
pub fn merged(places: &Places, head: usize) -> Next
    requires { (nth places.now head).reached ≡ true }
    ensures merged { result ≡ merged_at places.now head }
    ensures later { IsLater places.now head result }
{
    match merge_block(node(places, head).merge) {
        Some(block) if is_reached(places, block) => Next::At(Start::Block(block)),
        _ => Next::Stop(Exit::Closed),
    }
}

/// The continue target of a loop, where it is reached and is another block than the header.
#[tactic(auto, using(crate::proofs::Onward::continue_rules))]
pub fn continue_block(places: &Places, head: usize) -> Option<usize>
    requires { (nth places.now head).reached ≡ true }
    ensures target { result ≡ continue_block_of places.now head }
    ensures later { IfSome result (λ c. (head < c) × ((nth places.now c).reached ≡ true)) }
{
    match node(places, head).merge {
        Merge::Loop(_, block) if is_reached(places, block) && block != head => Some(block),
        _ => None,
    }
}

/// How a region ends with a block that leaves the function.
fn left(f: &Function, block: usize) -> Exit
    ensures { result ≡ left_of f.now block }
{
    match f
        .blocks
        .as_slice()
        .get(block)
        .and_then(|block| terminator(block))
    {
        Some(inst) if inst.op == Op::Unreachable => Exit::Lost(block),
        _ => Exit::Return(block),
    }
}

/// Whether the merge instruction is OpSelectionMerge.
pub fn is_selection(merge: Merge) -> bool
    ensures { result ≡ is_selection_merge merge }
{
    matches!(merge, Merge::Selection(_))
}

/// Where control goes on behind the item that stands for a block.
#[tactic(auto, using(crate::proofs::Onward::after_rules))]
fn after(f: &Function, places: &Places, block: usize) -> Next
    requires { (nth places.now block).reached ≡ true }
    ensures after { IsAfter f.now places.now block (nth places.now block).exit result }
    ensures later { IsLater places.now block result }
{
    let node = node(places, block);
    match node.exit {
        Terminator::Branch => along_target(places, block, 0),
        Terminator::Leave => Next::Stop(left(f, block)),
        Terminator::Switch => merged(places, block),
        Terminator::Conditional if is_selection(node.merge) => merged(places, block),
        Terminator::Conditional => Next::Stop(Exit::Closed),
    }
}

/// Where control goes on behind the item with which a region begins.
pub fn behind(f: &Function, places: &Places, start: Start) -> Next
    requires { (nth places.now (block_of start)).reached ≡ true }
    ensures behind { IsBehind f.now places.now start result }
    ensures later { IsLater places.now (block_of start) result }
{
    match start {
        Start::Block(block) if heads_loop(places, block) => merged(places, block),
        Start::Block(block) | Start::Body(block) => after(f, places, block),
    }
}

// What is known of a function that breaks no rule of structured control flow.
ghost use Rattle.std.specs.Prelude.{◌≡◌, ◌<◌, length, true};
ghost use Rattle.structure_rules.specs.declared.graph.EdgeKind.{EdgeKind as EdgeKindOf};
ghost use Rattle.structure_rules.specs.Graph.{nth, leads_to as leads_to_block};
ghost use Rattle.structure_rules.specs.Nesting.{first_of, place};
ghost use Rattle.structure_rules.specs.EdgeKinds.{has_kind, nearest_loop as nearest_loop_at, innermost_switch as innermost_switch_at};
ghost use Rattle.structure_rules.specs.Structure.{fall_links};
ghost use Rattle.nest_place.specs.Links.{IsTable, turned_links};
ghost use Rattle.nest_place.specs.Nests.{IsSound as IsSoundGraph};

use crate::cycles::entry;
use crate::falls::Falls;
use crate::nest::Nest;
use std::marker::Model;
use structure_rules::{EdgeKind, Node, Part};

/// The constructs round the reached blocks of a function, and the kinds of its edges, where the rules
/// of structured control flow are unbroken. Contracts see the control-flow graph of the function; all
/// numbers of blocks are their indexes in the function.
#[derive(Drop)]
pub struct Places {
    nest: Nest,
    falls: Falls,
}

impl Model for Places {
    ghost use Rattle.nest_place.specs.Views.{Graph};
    ghost use Rattle.structure_rules.specs.Structure.{fall_links};
    ghost use Rattle.nest_place.specs.Links.{IsTable, turned_links};
    ghost use Rattle.nest_place.specs.Nests.{IsSound};

    ghost Value = { Graph };

    ghost view = { λ p. p.nest };

    ghost invariant = { λ p. IsSound p.nest × IsTable (fall_links p.nest) p.falls.next.items × IsTable (turned_links (fall_links p.nest)) p.falls.last.items };
}

/// Whether an edge leads from this block to the other.
fn leads_to(node: &Node, to: usize) -> bool
    ensures { result ≡ leads_to_block to node.now }
{
    node.targets.as_slice().iter().any(|target| *target == to)
}

impl Places {
    /// The places of a graph that is sound, with the falls between its case targets.
    pub fn sound(nest: Nest, falls: Falls) -> Places
        requires sound { IsSoundGraph nest }
        requires next { IsTable (fall_links nest) falls.next.items }
        requires last { IsTable (turned_links (fall_links nest)) falls.last.items }
        ensures { result ≡ nest }
    {
        Places { nest, falls }
    }

    /// The control-flow graph of the function: a node for each of its blocks.
    pub fn nodes(&self) -> &[Node]
        ensures nodes { result.now ≡ self.now }
        ensures sound { IsSoundGraph self.now }
    {
        self.nest.nodes()
    }

    /// The graph alone; the memory of what was known of the constructs round its blocks is given back.
    pub fn into_nodes(self) -> Vec<Node>
        ensures { result.items ≡ self }
    {
        self.nest.into_nodes()
    }

    /// The nearest loop round the edges of a reached block: its body, or its continue construct.
    #[tactic(auto, using(crate::proofs::Outward::reached_inside))]
    pub fn nearest_loop(&self, block: usize) -> Option<Part>
        requires { (nth self.now block).reached ≡ true }
        ensures { result ≡ nearest_loop_at self.now block }
    {
        self.nest.nearest_loop(block)
    }

    /// The innermost switch round the edges of a reached block, with no loop between.
    #[tactic(auto, using(crate::proofs::Outward::reached_inside))]
    pub fn innermost_switch(&self, block: usize) -> Option<usize>
        requires { (nth self.now block).reached ≡ true }
        ensures { result ≡ innermost_switch_at self.now block }
    {
        self.nest.innermost_switch(block)
    }

    /// The case target into which the construct of this one falls through, where there is one (GLSL
    /// 4.60, section 6.2). It is one at most.
    pub fn falls_into(&self, target: usize) -> Option<usize>
        ensures { result ≡ first_of (fall_links self.now) target }
    {
        entry(&self.falls.next, target)
    }

    /// The case target whose construct falls through into that of this one, where there is one. It is
    /// one at most.
    pub fn fallen_from(&self, target: usize) -> Option<usize>
        ensures { result ≡ first_of (turned_links (fall_links self.now)) target }
    {
        entry(&self.falls.last, target)
    }

    /// Whether edges lead to the block from the first one.
    pub fn reached(&self, block: usize) -> bool
        requires { block < length self.now }
        ensures { result ≡ (nth self.now block).reached }
    {
        self.nest.nodes()[block].reached
    }

    /// The constructs round a reached block, from inside out.
    #[tactic(auto, using(crate::proofs::Outward::reached_inside))]
    pub fn of(&self, block: usize) -> &[Part]
        requires { (nth self.now block).reached ≡ true }
        ensures { result.now ≡ place self.now block }
    {
        self.nest.place(block)
    }

    /// Whether an edge leads from one block to the other.
    pub fn has_edge(&self, from: usize, to: usize) -> bool
        requires { from < length self.now }
        ensures { result ≡ leads_to_block to (nth self.now from) }
    {
        leads_to(&self.nest.nodes()[from], to)
    }

    /// What an edge of a reached block does (SPIR-V 1.6, section 2.11). It has this kind and no other.
    #[inline(always)]
    #[tactic(auto, using(crate::proofs::Verdict::kind_rules))]
    pub fn edge(&self, from: usize, to: usize) -> EdgeKind
        requires reached { (nth self.now from).reached ≡ true }
        requires leads { leads_to_block to (nth self.now from) ≡ true }
        ensures kind { has_kind self.now from to result ≡ true }
        ensures only { (k : EdgeKindOf) → has_kind self.now from to k ≡ true → k ≡ result }
    {
        self.nest.kind(from, to).unwrap()
    }
}

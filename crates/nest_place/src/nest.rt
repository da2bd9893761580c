// The graph of a function with the constructs round its blocks.
ghost use Rattle.std.specs.Prelude.{◌≡◌, ◌<◌, length, true, IfOk, OnOk, IfErr, MatchOption, false};
ghost use Rattle.structure_rules.specs.Graph.{nth};
ghost use Rattle.structure_rules.specs.Nesting.{place as place_of, inner as inner_of, role as role_of};
ghost use Rattle.structure_rules.specs.EdgeKinds.{has_kind, has_some_kind, is_enter as is_enter_edge, nearest_loop as nearest_loop_of, innermost_switch as innermost_switch_of};
ghost use Rattle.structure_rules.specs.Structure.{falls_from as falls_from_target};
ghost use Rattle.nest_place.specs.Steps.{AreRoles};
ghost use Rattle.nest_place.specs.Spots.{IsGrounded, IsShallow, IsDeepFault};

use crate::kinds::{
    case_target, innermost_at, is_enter, is_fall, kind_of, nearest_loop, switch_at,
};
use crate::spots::{Spots, place_blocks};
use spv_words::Fault;
use std::alloc::Global;
use std::marker::Model;
use structure_rules::{EdgeKind, Node, Part, Role};

/// A graph with the role of each block and the constructs round it. Contracts see the graph.
#[derive(Drop)]
pub struct Nest {
    nodes: Vec<Node>,
    roles: Vec<Role>,
    spots: Spots,
}

impl Model for Nest {
    ghost use Rattle.nest_place.specs.Views.{Graph};
    ghost use Rattle.nest_place.specs.Nests.{IsNest};

    ghost Value = { Graph };

    ghost view = { λ n. n.nodes.items };

    ghost invariant = { λ n. IsNest n.nodes.items n.roles.items n.spots.spots.items n.spots.lists };
}

impl Nest {
    /// The graph with these roles. There is an error where a reached block is nested too deep.
    pub fn of(alloc: Global, nodes: Vec<Node>, roles: Vec<Role>) -> Result<Nest, Fault>
        requires roles { AreRoles nodes.items roles.items }
        requires grounded { IsGrounded nodes.items }
        ensures nest { IfOk result (λ nest. nest ≡ nodes.items) }
        ensures shallow { OnOk result (IsShallow nodes.items) }
        ensures limit { IfErr result (IsDeepFault nodes.items) }
    {
        let spots = place_blocks(alloc, &nodes, &roles)?;
        Ok(Nest {
            nodes,
            roles,
            spots,
        })
    }

    /// The graph.
    pub fn nodes(&self) -> &[Node]
        ensures { result.now ≡ self.now }
    {
        &self.nodes
    }

    /// The graph alone.
    pub fn into_nodes(self) -> Vec<Node>
        ensures { result.items ≡ self }
    {
        self.nodes
    }

    /// What a block is to its parent.
    fn role(&self, block: usize) -> Role
        requires { block < length self.now }
        ensures { result ≡ role_of self.now block }
    {
        self.roles[block]
    }

    /// The constructs round a reached block, from inside out.
    #[tactic(auto, using(crate::proofs::Nested::place_rules))]
    pub fn place(&self, block: usize) -> &[Part]
        requires inside { block < length self.now }
        requires reached { (nth self.now block).reached ≡ true }
        ensures { result.now ≡ place_of self.now block }
    {
        let spot = self.spots.spots[block];
        self.spots.lists.at(spot.place)
    }

    /// The constructs round the blocks inside a reached block.
    #[tactic(auto, using(crate::proofs::Nested::place_rules))]
    fn inner(&self, block: usize) -> &[Part]
        requires inside { block < length self.now }
        requires reached { (nth self.now block).reached ≡ true }
        ensures { result.now ≡ inner_of self.now block }
    {
        let spot = self.spots.spots[block];
        self.spots.lists.at(spot.inner)
    }

    /// The nearest loop round the edges of a reached block.
    pub fn nearest_loop(&self, block: usize) -> Option<Part>
        requires inside { block < length self.now }
        requires reached { (nth self.now block).reached ≡ true }
        ensures { result ≡ nearest_loop_of self.now block }
    {
        nearest_loop(self.inner(block))
    }

    /// The innermost switch round the edges of a reached block, with no loop between.
    pub fn innermost_switch(&self, block: usize) -> Option<usize>
        requires inside { block < length self.now }
        requires reached { (nth self.now block).reached ≡ true }
        ensures { result ≡ innermost_switch_of self.now block }
    {
        switch_at(&self.nodes, block, self.inner(block))
    }

    /// The kind of an edge of a reached block, where it has one.
    #[inline(always)]
    pub fn kind(&self, block: usize, to: usize) -> Option<EdgeKind>
        requires inside { block < length self.now }
        requires reached { (nth self.now block).reached ≡ true }
        requires target { to < length self.now }
        ensures { MatchOption result (has_some_kind self.now block to ≡ false) (λ kind. has_kind self.now block to kind ≡ true) }
    {
        kind_of(&self.nodes, block, self.inner(block), to, self.role(to))
    }

    /// Whether an edge enters a block: the block is no merge block and no continue target, and the edge
    /// begins at its parent.
    pub fn enters(&self, block: usize, to: usize) -> bool
        requires { to < length self.now }
        ensures { result ≡ is_enter_edge self.now block to }
    {
        is_enter(&self.nodes, block, to, self.role(to))
    }

    /// The case target in whose construct an edge of a reached block begins, where the edge falls into
    /// another.
    pub fn falls_from(&self, block: usize, to: usize) -> Option<usize>
        requires inside { block < length self.now }
        requires reached { (nth self.now block).reached ≡ true }
        requires target { to < length self.now }
        ensures { result ≡ falls_from_target self.now block to }
    {
        let innermost = innermost_at(&self.nodes, block, self.inner(block));
        if is_fall(&self.nodes, block, innermost, to, self.role(to)) {
            case_target(innermost)
        } else {
            None
        }
    }
}

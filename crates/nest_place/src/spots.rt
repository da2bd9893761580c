// The constructs round each block, and its nesting.
ghost use Rattle.std.specs.Prelude.{◌≡◌, ◌<◌, [], length, true, IfOk, OnOk, IfErr, if◌then◌else◌};
ghost use Rattle.structure_rules.specs.Graph.{nth, is_conditional as is_conditional_exit};
ghost use Rattle.structure_rules.specs.Nesting.{opened, is_loose as is_loose_node, role as role_of};
ghost use Rattle.nest_place.specs.Steps.{AreRoles};
ghost use Rattle.nest_place.specs.Spots.{list_at, part_list, Extends, IsSpot, AreSpots, IsGrounded, IsParentSpot, parent_spot as parent_spot_of, IsPlaced, IsShallow, IsDeepFault};

use crate::forms::{is_conditional, is_selection};
use crate::outer::Constructs;
use crate::parents::parent;
use crate::rings::Rings;
use spv_words::{Fault, Limit};
use std::alloc::{AllocError, Global};
use structure_rules::{Merge, Node, Part, Role};

/// Where a block stands: its constructs as a place in the lists of constructs, and its nesting; and
/// the same of the blocks inside it.
#[derive(Clone, Copy, Debug)]
pub struct Spot {
    pub place: usize,
    pub inner: usize,
    pub nesting: usize,
    pub inside: usize,
}

/// The spot of a block that is not reached.
const NOWHERE: Spot = Spot {
    place: 0,
    inner: 0,
    nesting: 0,
    inside: 0,
};

/// The spots of a graph's blocks, and the lists of constructs, which blocks share.
#[derive(Drop)]
pub struct Spots {
    pub spots: Vec<Spot>,
    pub lists: Constructs,
}

/// The construct that a block opens.
fn own_part(node: &Node, block: usize) -> Option<Part>
    ensures { part_list result ≡ opened (is_conditional_exit node.now.exit) node.now.merge block }
{
    match node.merge {
        Merge::Absent => None,
        Merge::Selection(_) if is_conditional(node.exit) => Some(Part::If(block)),
        Merge::Selection(_) => None,
        Merge::Loop(_, _) => Some(Part::Loop(block)),
    }
}

/// Whether this is an OpBranchConditional without OpSelectionMerge.
pub fn is_loose(node: &Node) -> bool
    ensures { result ≡ is_loose_node node.now }
{
    is_conditional(node.exit) && !is_selection(node.merge)
}

/// 1 for an OpBranchConditional without OpSelectionMerge, and else 0.
fn looseness(node: &Node) -> usize
    ensures { result ≡ (if is_loose_node node.now then 1 else 0) }
{
    usize::from(is_loose(node))
}

/// The spot of the parent that a block with this role has.
fn parent_spot(role: Role, spots: &[Spot]) -> Spot
    ensures { result ≡ parent_spot_of role spots.now }
{
    match parent(role) {
        None => NOWHERE,
        Some(parent) => spots.get(parent).copied().unwrap_or(NOWHERE),
    }
}

/// Where a block with this role stands, and its nesting.
#[tactic(auto, using(crate::proofs::Placing::place_rules))]
fn place_of(
    nodes: &[Node],
    role: Role,
    block: usize,
    spot: Spot,
    lists: &mut Rings,
) -> Result<(usize, usize), AllocError>
    requires known { IsParentSpot nodes.now role lists.old spot }
    requires some { 0 < length lists.old }
    requires empty { list_at lists.old 0 ≡ [] }
    ensures placed { IfOk result (IsPlaced nodes.now block role lists.new) }
    ensures kept { OnOk result (Extends lists.old lists.new) }
{
    match role {
        Role::First => Ok((0, 0)),
        Role::Merge(_) => Ok((spot.place, spot.nesting)),
        Role::Continue(header) => {
            let place = lists.add(Part::Cont(header), spot.place)?;
            Ok((place, 1 + spot.nesting))
        }
        Role::Case(switch) => {
            let place = lists.add(Part::Case(switch, block), spot.place)?;
            Ok((place, 1 + spot.nesting))
        }
        Role::Inside(_) => Ok((spot.inner, spot.inside)),
    }
}

/// The spot of a reached block, where it is not nested too deep.
#[tactic(auto, using(crate::proofs::Placing::spot_rules))]
fn spot_of(
    nodes: &[Node],
    role: Role,
    block: usize,
    spots: &[Spot],
    lists: &mut Rings,
) -> Result<Spot, Fault>
    requires inside { block < length nodes.now }
    requires reached { (nth nodes.now block).reached ≡ true }
    requires role { role ≡ role_of nodes.now block }
    requires grounded { IsGrounded nodes.now }
    requires spots { AreSpots nodes.now block spots.now lists.old }
    ensures spot { IfOk result (IsSpot nodes.now lists.new block) }
    ensures kept { OnOk result (Extends lists.old lists.new) }
    ensures limit { IfErr result (IsDeepFault nodes.now) }
{
    let outer = parent_spot(role, spots);
    let (place, nesting) = place_of(nodes, role, block, outer, lists)?;
    if nesting > 127 {
        return Err(Fault::Limit(Limit::Depth));
    }
    let node = &nodes[block];
    match own_part(node, block) {
        None => Ok(Spot {
            place,
            inner: place,
            nesting,
            inside: looseness(node) + nesting,
        }),
        Some(part) => Ok(Spot {
            place,
            inner: lists.add(part, place)?,
            nesting,
            inside: 1 + looseness(node) + nesting,
        }),
    }
}

/// The spots of a graph's blocks. There is an error exactly where a reached block is nested more than
/// 127 deep (`Limit::Depth`), or for want of memory.
#[tactic(auto, using(crate::proofs::Placing::spots_rules))]
pub fn place_blocks(alloc: Global, nodes: &[Node], roles: &[Role]) -> Result<Spots, Fault>
    requires roles { AreRoles nodes.now roles.now }
    requires grounded { IsGrounded nodes.now }
    ensures spots { IfOk result (λ s. AreSpots nodes.now (length nodes.now) s.spots.items s.lists) }
    ensures shallow { OnOk result (IsShallow nodes.now) }
    ensures limit { IfErr result (IsDeepFault nodes.now) }
{
    let mut lists = Rings::none(alloc);
    let mut spots = Vec::with_capacity(alloc, nodes.len())?;
    for (block, node) in nodes.iter().enumerate() {
        let spot = if node.reached {
            spot_of(nodes, roles[block], block, &spots, &mut lists)?
        } else {
            NOWHERE
        };
        spots.push(spot)?;
    }
    let lists = Constructs::of(alloc, &lists)?;
    Ok(Spots { spots, lists })
}

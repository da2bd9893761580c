// The rules of structured control flow, one after another.
ghost use Rattle.std.specs.Prelude.{◌≡◌, length, IfOk, OnOk, IfErr};
ghost use Rattle.spv_words.specs.declared.rule.Rule.TheVariants.{K6, K9};
ghost use Rattle.spv_words.specs.Breaks.{NoRuleBroken};
ghost use Rattle.structure_rules.specs.Graph.{graph};
ghost use Rattle.structure_rules.specs.Structure.{BrokenStructure, IsRightIn, IsRightStructure, IsTooDeep, structure_rules};
ghost use Rattle.block_graph.specs.Within.{AreWithin, AreReached};
ghost use Rattle.nest_place.specs.Checks.{IsFineBefore};
ghost use Rattle.nest_place.specs.Spots.{IsGrounded, IsShallow};
ghost use Rattle.nest_place.specs.Steps.{AreRoles};

use crate::edges::{check_kinds, check_loose};
use crate::falls::check_falls;
use crate::forms::{check_first, check_merges, check_targets};
use crate::found::Places;
use crate::headers::Headers;
use crate::nest::Nest;
use crate::parents::{check_order, roles};
use block_graph::control_flow;
use spv_index::Locals;
use spv_module::Function;
use spv_words::Fault;
use std::alloc::Global;
use structure_rules::{Node, Role};

/// What each block is to its parent, where rules K1 to K5 are unbroken.
fn roles_of(alloc: Global, nodes: &[Node]) -> Result<Vec<Role>, Fault>
    requires within { AreWithin nodes.now }
    requires reached { AreReached nodes.now }
    ensures roles { IfOk result (λ roles. AreRoles nodes.now roles.items) }
    ensures passes { OnOk result (IsFineBefore nodes.now K6) }
    ensures refused { IfErr result (IsRightIn nodes.now) }
{
    check_merges(nodes)?;
    check_first(nodes)?;
    let headers = Headers::of(alloc, nodes)?;
    let roles = roles(alloc, headers)?;
    check_order(nodes, &roles)?;
    Ok(roles)
}

/// The graph with its constructs, where rules K1 to K5 are unbroken and no block is nested too deep.
#[tactic(auto, using(crate::proofs::Verdict::nest_rules))]
fn nest_of(alloc: Global, nodes: Vec<Node>) -> Result<Nest, Fault>
    requires within { AreWithin nodes.items }
    requires reached { AreReached nodes.items }
    ensures nest { IfOk result (λ nest. nest ≡ nodes.items) }
    ensures passes { OnOk result (IsFineBefore nodes.items K6) }
    ensures grounded { OnOk result (IsGrounded nodes.items) }
    ensures shallow { OnOk result (IsShallow nodes.items) }
    ensures refused { IfErr result (IsRightIn nodes.items) }
{
    let roles = roles_of(alloc, &nodes)?;
    Nest::of(alloc, nodes, roles)
}

/// Rules K6 to K8, where none before is broken.
fn check_edges(nest: &Nest) -> Result<(), Fault>
    requires within { AreWithin nest.now }
    requires earlier { IsFineBefore nest.now K6 }
    ensures passes { OnOk result (IsFineBefore nest.now K9) }
    ensures refused { IfErr result (IsRightIn nest.now) }
{
    check_targets(nest.nodes())?;
    check_kinds(nest)?;
    check_loose(nest)?;
    Ok(())
}

/// The places of a function's blocks (SPIR-V 1.6, section 2.11).
///
/// It refuses by K1 to K11, the rules of structured control flow; where several are broken in the
/// function, by the one with the smallest number. There is an error `Limit::Depth` where a reached
/// block is nested more than 127 deep and none of K1 to K5 is broken. A label that no block has counts
/// as that of the first block.
pub fn places(alloc: Global, f: &Function) -> Result<Places, Fault>
    ensures places { IfOk result (λ places. places ≡ graph f.now) }
    ensures sized { IfOk result (λ places. length places ≡ length f.now.blocks) }
    ensures passes { OnOk result (NoRuleBroken (BrokenStructure f.now) structure_rules) }
    ensures within { OnOk result (IsTooDeep (graph f.now) → ⊥) }
    ensures refused { IfErr result (IsRightStructure f.now) }
{
    let locals = Locals::of(alloc, f)?;
    places_by(alloc, &locals)
}

/// The same, where it is known what the function defines.
#[tactic(auto, using(crate::proofs::Verdict::place_rules))]
pub fn places_by(alloc: Global, locals: &Locals) -> Result<Places, Fault>
    ensures places { IfOk result (λ places. places ≡ graph locals.now) }
    ensures passes { OnOk result (NoRuleBroken (BrokenStructure locals.now) structure_rules) }
    ensures within { OnOk result (IsTooDeep (graph locals.now) → ⊥) }
    ensures refused { IfErr result (IsRightStructure locals.now) }
{
    let nodes = control_flow(alloc, locals)?;
    let nest = nest_of(alloc, nodes)?;
    check_edges(&nest)?;
    let falls = check_falls(alloc, &nest)?;
    Ok(Places::sound(nest, falls))
}

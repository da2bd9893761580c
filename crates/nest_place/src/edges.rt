// Rules on the kinds of edges.
ghost use Rattle.std.specs.Prelude.{◌≡◌, ◌<◌, length, true, OnOk, IfErr};
ghost use Rattle.std.specs.List.{list_all};
ghost use Rattle.spv_words.specs.declared.rule.Rule.TheVariants.{K7, K8};
ghost use Rattle.structure_rules.specs.declared.graph.EdgeKind.TheVariants.{Enter};
ghost use Rattle.structure_rules.specs.Graph.{nth};
ghost use Rattle.structure_rules.specs.EdgeKinds.{has_kind, has_some_kind as edge_has_kind};
ghost use Rattle.block_graph.specs.Within.{AreWithin};
ghost use Rattle.nest_place.specs.Checks.{IsUnbroken, IsBroken};
ghost use Rattle.nest_place.specs.Nests.{AllInside};

use crate::nest::Nest;
use crate::refusal::refused;
use crate::spots::is_loose;
use spv_words::{Fault, Rule};

/// Whether the edge to this block has a kind.
#[tactic(auto, using(crate::proofs::Origins::some_kind))]
fn has_some_kind(nest: &Nest, block: usize, to: usize) -> bool
    requires inside { block < length nest.now }
    requires reached { (nth nest.now block).reached ≡ true }
    requires target { to < length nest.now }
    ensures { result ≡ edge_has_kind nest.now block to }
{
    match nest.kind(block, to) {
        None => false,
        Some(_) => true,
    }
}

/// Whether each edge to these blocks has a kind.
#[tactic(auto, using(crate::proofs::Reading::all_rules))]
fn have_kinds(nest: &Nest, block: usize, targets: &[usize]) -> bool
    requires inside { block < length nest.now }
    requires reached { (nth nest.now block).reached ≡ true }
    requires targets { AllInside (length nest.now) targets.now }
    ensures { result ≡ list_all (edge_has_kind nest.now block) targets.now }
{
    for target in targets {
        if !has_some_kind(nest, block, *target) {
            return false;
        }
    }
    true
}

/// Whether each edge to these blocks enters one.
#[tactic(auto, using(crate::proofs::Reading::all_rules))]
fn enter_all(nest: &Nest, block: usize, targets: &[usize]) -> bool
    requires { AllInside (length nest.now) targets.now }
    ensures { result ≡ list_all (λ t. has_kind nest.now block t Enter) targets.now }
{
    for target in targets {
        if !nest.enters(block, *target) {
            return false;
        }
    }
    true
}

/// Rule K7: each edge of a reached block has a kind.
#[tactic(auto, using(crate::proofs::Reading::kind_rules))]
pub fn check_kinds(nest: &Nest) -> Result<(), Fault>
    requires { AreWithin nest.now }
    ensures passes { OnOk result (IsUnbroken nest.now K7) }
    ensures refused { IfErr result (IsBroken nest.now K7) }
{
    for (block, node) in nest.nodes().iter().enumerate() {
        if node.reached && !have_kinds(nest, block, node.targets.as_slice()) {
            return Err(refused(Rule::K7, node.exit_at));
        }
    }
    Ok(())
}

/// Rule K8: an OpBranchConditional without OpSelectionMerge does not enter a block by each edge.
#[tactic(auto, using(crate::proofs::Reading::loose_rules))]
pub fn check_loose(nest: &Nest) -> Result<(), Fault>
    requires { AreWithin nest.now }
    ensures passes { OnOk result (IsUnbroken nest.now K8) }
    ensures refused { IfErr result (IsBroken nest.now K8) }
{
    for (block, node) in nest.nodes().iter().enumerate() {
        if node.reached && is_loose(node) && enter_all(nest, block, node.targets.as_slice()) {
            return Err(refused(Rule::K8, node.exit_at));
        }
    }
    Ok(())
}

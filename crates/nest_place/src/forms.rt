// Rules on a block's merge instruction and terminator alone.
ghost use Rattle.std.specs.Prelude.{◌≡◌, ◌==◌, OnOk, IfErr};
ghost use Rattle.spv_words.specs.declared.rule.Rule.TheVariants.{K1, K2, K6};
ghost use Rattle.structure_rules.specs.Graph.{is_switch as is_switch_exit, is_conditional as is_conditional_exit, is_selection as is_selection_merge, named};
ghost use Rattle.structure_rules.specs.Structure.{is_bad_merge as is_bad_pair, is_bad_switch as is_bad_switch_node, has_first as has_first_block, has_same_targets as has_same_target_nodes};
ghost use Rattle.nest_place.specs.Checks.{IsUnbroken, IsBroken};

use crate::refusal::refused;
use spv_words::{Fault, Rule};
use structure_rules::{Exit, Merge, Node};

/// Whether the merge instruction does not go with the terminator behind it.
fn is_bad_merge(merge: Merge, exit: Exit) -> bool
    ensures { result ≡ is_bad_pair merge exit }
{
    match (merge, exit) {
        (Merge::Selection(_), Exit::Branch | Exit::Leave) => true,
        (Merge::Loop(_, _), Exit::Switch | Exit::Leave) => true,
        _ => false,
    }
}

pub fn is_selection(merge: Merge) -> bool
    ensures { result ≡ is_selection_merge merge }
{
    matches!(merge, Merge::Selection(_))
}

pub fn is_switch(exit: Exit) -> bool
    ensures { result ≡ is_switch_exit exit }
{
    matches!(exit, Exit::Switch)
}

pub fn is_conditional(exit: Exit) -> bool
    ensures { result ≡ is_conditional_exit exit }
{
    matches!(exit, Exit::Conditional)
}

/// Whether an OpSwitch has no OpSelectionMerge.
fn is_bad_switch(node: &Node) -> bool
    ensures { result ≡ is_bad_switch_node node.now }
{
    is_switch(node.exit) && !is_selection(node.merge)
}

/// Whether an OpBranchConditional has the same target twice.
fn has_same_targets(node: &Node) -> bool
    ensures { result ≡ has_same_target_nodes node.now }
{
    match node.targets.as_slice() {
        [a, b, ..] => is_conditional(node.exit) && a == b,
        _ => false,
    }
}

/// Whether the first block is among these.
fn has_first(targets: &[usize]) -> bool
    ensures { result ≡ has_first_block targets.now }
{
    targets.iter().any(|target| *target == 0)
}

/// Whether the merge instruction names the first block.
fn names_first(merge: Merge) -> bool
    ensures { result ≡ has_first_block (named merge) }
{
    match merge {
        Merge::Absent => false,
        Merge::Selection(merge) => merge == 0,
        Merge::Loop(merge, target) => merge == 0 || target == 0,
    }
}

/// Rule K1: each merge instruction stands before a terminator that it goes with, and each OpSwitch has
/// one.
#[tactic(auto, using(crate::proofs::Reading::merge_rules))]
pub fn check_merges(nodes: &[Node]) -> Result<(), Fault>
    ensures passes { OnOk result (IsUnbroken nodes.now K1) }
    ensures refused { IfErr result (IsBroken nodes.now K1) }
{
    for node in nodes {
        if node.reached && is_bad_merge(node.merge, node.exit) {
            return Err(refused(Rule::K1, node.merge_at));
        }
        if node.reached && is_bad_switch(node) {
            return Err(refused(Rule::K1, node.exit_at));
        }
    }
    Ok(())
}

/// Rule K2: no terminator and no merge instruction names the first block.
#[tactic(auto, using(crate::proofs::Reading::first_rules))]
pub fn check_first(nodes: &[Node]) -> Result<(), Fault>
    ensures passes { OnOk result (IsUnbroken nodes.now K2) }
    ensures refused { IfErr result (IsBroken nodes.now K2) }
{
    for node in nodes {
        if node.reached && has_first(node.targets.as_slice()) {
            return Err(refused(Rule::K2, node.exit_at));
        }
        if node.reached && names_first(node.merge) {
            return Err(refused(Rule::K2, node.merge_at));
        }
    }
    Ok(())
}

/// Rule K6: the targets of an OpBranchConditional differ.
#[tactic(auto, using(crate::proofs::Reading::target_rules))]
pub fn check_targets(nodes: &[Node]) -> Result<(), Fault>
    ensures passes { OnOk result (IsUnbroken nodes.now K6) }
    ensures refused { IfErr result (IsBroken nodes.now K6) }
{
    for node in nodes {
        if node.reached && has_same_targets(node) {
            return Err(refused(Rule::K6, node.exit_at));
        }
    }
    Ok(())
}

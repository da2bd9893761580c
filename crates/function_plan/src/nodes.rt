// The blocks of a function's control-flow graph.
ghost use Rattle.std.specs.Prelude.{◌≡◌, true};
ghost use Rattle.structure_rules.specs.Graph.{nth};
ghost use Rattle.function_plan.specs.Targets.{targets_in, target_of};

use structure_rules::Node;

/// Whether a block is reached.
#[tactic(auto, using(structure_recover::proofs::Onward::reached_rules))]
pub fn is_reached(nodes: &[Node], block: usize) -> bool
    ensures { result ≡ (nth nodes.now block).reached }
{
    block < nodes.len() && nodes[block].reached
}

/// A block that is reached.
#[tactic(auto, using(structure_recover::proofs::Onward::node_rules))]
fn node(nodes: &[Node], block: usize) -> &Node
    requires { (nth nodes.now block).reached ≡ true }
    ensures { result.now ≡ nth nodes.now block }
{
    &nodes[block]
}

/// The blocks to which a block leads that is reached.
pub fn targets(nodes: &[Node], block: usize) -> &[usize]
    ensures { result.now ≡ targets_in nodes.now block }
{
    if is_reached(nodes, block) {
        node(nodes, block).targets.as_slice()
    } else {
        &[]
    }
}

/// The block to which the target with this number leads, of a block that is reached.
pub fn target(nodes: &[Node], block: usize, number: usize) -> usize
    ensures { result ≡ target_of nodes.now block number }
{
    targets(nodes, block).get(number).copied().unwrap_or(0)
}

// The graph of a function.
ghost use Rattle.std.specs.Prelude.{◌≡◌, length, IfOk};
ghost use Rattle.structure_rules.specs.Graph.{told, graph as graph_of};
ghost use Rattle.block_graph.specs.Within.{AreWithin, AreReached};

use crate::blocks::nodes;
use crate::reach::reached;
use spv_index::Locals;
use std::alloc::{AllocError, Global};
use structure_rules::Node;

/// Tells the nodes which of them are reached.
#[tactic(auto, using(crate::proofs::Told::told_rules))]
fn tell(nodes: &mut Vec<Node>, marks: &[bool])
    requires { length marks.now ≡ length nodes.old.items }
    ensures { nodes.new.items ≡ told marks.now nodes.old.items }
{
    for (block, mark) in marks.iter().enumerate() {
        nodes[block].reached = *mark;
    }
}

/// The control-flow graph of a function: a node for each of its blocks, which tells whether the block
/// is reached from the first one (SPIR-V 1.6, section 2.11).
///
/// A label that no block has counts as that of the first block.
#[tactic(auto, using(crate::proofs::Within::graph_rules), unfolding(structure_rules::specs::Graph::graph))]
pub fn control_flow(alloc: Global, locals: &Locals) -> Result<Vec<Node>, AllocError>
    ensures graph { IfOk result (λ graph. graph.items ≡ graph_of locals.now) }
    ensures sized { IfOk result (λ graph. length graph.items ≡ length locals.now.blocks) }
    ensures within { IfOk result (λ graph. AreWithin graph.items) }
    ensures reached { IfOk result (λ graph. AreReached graph.items) }
{
    let mut nodes = nodes(alloc, locals)?;
    let marks = reached(alloc, &nodes)?;
    tell(&mut nodes, &marks);
    Ok(nodes)
}

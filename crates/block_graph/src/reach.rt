// Which blocks are reached.
ghost use Rattle.std.specs.Prelude.{◌≡◌, ◌<◌, ◌+◌, IfOk, OnOk, vec_len};
ghost use Rattle.structure_rules.specs.Graph.{reached as reached_marks};
ghost use Rattle.block_graph.specs.Search.{IsSearch};
ghost use Rattle.block_graph.specs.Within.{IsClosed};

use std::alloc::{AllocError, Global};
use structure_rules::Node;

/// Marks the blocks to which an edge leads from the block at this place of the list, and adds those
/// that were not marked to it.
#[tactic(auto, using(crate::proofs::Search::visit_rules))]
fn visit(
    nodes: &[Node],
    place: usize,
    marks: &mut Vec<bool>,
    order: &mut Vec<usize>,
) -> Result<(), AllocError>
    requires search { IsSearch nodes.now marks.old.items order.old.items place }
    requires there { place < vec_len order.old }
    ensures { OnOk result (IsSearch nodes.now marks.new.items order.new.items (place + 1)) }
{
    let block = order[place];
    for target in nodes[block].targets.as_slice() {
        if *target < marks.len() && !marks[*target] {
            marks[*target] = true;
            order.push(*target)?;
        }
    }
    Ok(())
}

/// For each block whether edges lead to it from the first block.
#[tactic(auto, using(crate::proofs::Search::search_rules))]
pub fn reached(alloc: Global, nodes: &[Node]) -> Result<Vec<bool>, AllocError>
    ensures marks { IfOk result (λ marks. marks.items ≡ reached_marks nodes.now) }
    ensures closed { IfOk result (λ marks. IsClosed nodes.now marks.items) }
{
    let mut marks = vec![in alloc; false; nodes.len()]?;
    if nodes.is_empty() {
        return Ok(marks);
    }
    marks[0] = true;
    let mut order = Vec::with_capacity(alloc, nodes.len())?;
    order.push(0)?;
    let mut place = 0;
    while place < order.len() {
        visit(nodes, place, &mut marks, &mut order)?;
        place += 1;
    }
    Ok(marks)
}

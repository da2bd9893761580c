// What is planned of a function.
ghost use Rattle.few_law.specs.Short.{IsShort};

use crate::edge_moves::Moves;
use crate::flag_sets::FlagSets;
use crate::orders::Orders;
use hoist_plan::Naming;
use id_map::IdSet;
use spv_index::Locals;
use spv_module::Module;
use structure_recover::Region;
use structure_rules::Node;

/// What is planned of a function that is written: what it defines; its control-flow graph, and which blocks of it are reached; which
/// of its values have variables, and which results have names; the tree of its control flow; the moves of its edges; the loops that need the flags `again`
/// and `leave`, and the case targets that need `fell`; and the order of the targets of its switches. Blocks are named by their
/// indexes in the function.
#[derive(Drop)]
pub struct FunctionPlan<'a> {
    pub source: &'a Module,
    pub locals: Locals<'a>,
    pub nodes: Vec<Node>,
    pub reached: Vec<bool>,
    pub naming: Naming,
    pub named: IdSet,
    pub region: Region,
    pub moves: Vec<Moves>,
    pub flags: FlagSets,
    pub orders: Orders,
    pub ghost short: { IsShort locals },
}

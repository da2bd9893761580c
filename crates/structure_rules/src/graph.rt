// The control-flow graph of a function, and its constructs.
use crate::targets::Targets;

/// What the merge instruction of a block names: nothing where it has none; the merge block of
/// OpSelectionMerge; the merge block and the continue target of OpLoopMerge. Each is the index of a
/// block (SPIR-V 1.6, section 2.11).
#[derive(Clone, Copy, Debug, PartialEq, Eq)]
pub enum Merge {
    Absent,
    Selection(usize),
    Loop(usize, usize),
}

/// The kind of a block's terminator: OpBranch, OpBranchConditional, OpSwitch, or one that leaves the
/// function.
#[derive(Clone, Copy, Debug, PartialEq, Eq)]
pub enum Exit {
    Branch,
    Conditional,
    Switch,
    Leave,
}

/// A block in the graph: the word of its label, its merge instruction and its terminator with the
/// words at which they stand, the blocks to which its terminator leads, and whether the block is
/// reached from the first one.
//
// Fields lie in this order: the small ones share two words.
#[derive(Drop)]
pub struct Node {
    pub at: u32,
    pub merge_at: u32,
    pub exit_at: u32,
    pub exit: Exit,
    pub reached: bool,
    pub merge: Merge,
    pub targets: Targets,
}

/// What a block is to its parent: the merge block or the continue target of a header, a case target
/// of a switch, or a block that another leads into. The first block has no parent.
#[derive(Clone, Copy, Debug, PartialEq, Eq)]
pub enum Role {
    First,
    Merge(usize),
    Continue(usize),
    Case(usize),
    Inside(usize),
}

/// A construct round a block: the selection or the loop of a header, the continue construct of a
/// header, or the case construct of a switch and a target (SPIR-V 1.6, section 2.11). All numbers are
/// indexes of blocks.
#[derive(Clone, Copy, Debug, PartialEq, Eq)]
pub enum Part {
    If(usize),
    Loop(usize),
    Cont(usize),
    Case(usize, usize),
}

/// What an edge from one block to another does: it enters a construct or goes on to the next block,
/// merges a selection, leaves a switch, leaves a loop, goes to a loop's continue target, goes back to
/// a loop's header, or falls through from one case construct into another (SPIR-V 1.6, section 2.11).
#[derive(Clone, Copy, Debug, PartialEq, Eq)]
pub enum EdgeKind {
    Enter,
    Merge,
    SwitchBreak,
    Break,
    Continue,
    Back,
    Fall,
}

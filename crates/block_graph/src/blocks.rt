// The nodes of a function's blocks.
ghost use Rattle.std.specs.Prelude.{◌≡◌, IfOk, map};
ghost use Rattle.std.specs.Option.{option_copied};
ghost use Rattle.structure_rules.specs.declared.graph.Exit.TheVariants.{Branch, Conditional};
ghost use Rattle.structure_rules.specs.Graph.{merge_inst as merge_inst_of, terminator as terminator_of, word_of as word_of_inst, index_of, seconds, exit_by, exit_in as exit_in_of, exit_at_end as exit_at_end_of, labels_by, target_labels, merge_by, node_by, nodes as nodes_of};

use crate::labels::index;
use spv_index::Locals;
use spv_module::{Block, Inst};
use spv_ops::{Op, OpGroup, Terminator};
use std::alloc::{AllocError, Global};
use structure_rules::{Exit, Merge, Node, Targets};

fn insts(block: &Block) -> &[Inst]
    ensures { result.now ≡ block.now.insts }
{
    block.insts.as_slice()
}

/// The first OpLoopMerge or OpSelectionMerge of a block.
fn merge_inst(block: &Block) -> Option<&Inst>
    ensures { option_copied result ≡ merge_inst_of block.now }
{
    insts(block).iter().find(|inst| inst.op.is_merge())
}

/// The terminator of a block (SPIR-V 1.6, section 2.2).
pub fn terminator(block: &Block) -> Option<&Inst>
    ensures { option_copied result ≡ terminator_of block.now }
{
    insts(block).iter().find(|inst| inst.op.is_terminator())
}

/// The word at which an instruction stands, or 0 where there is none.
fn word_of(inst: Option<&Inst>) -> u32
    ensures { result ≡ word_of_inst (option_copied inst.entry) }
{
    inst.map_or(0, |inst| inst.at)
}

/// What a merge instruction names.
fn merge_of(locals: &Locals, inst: Option<&Inst>) -> Merge
    ensures { result ≡ merge_by (index_of locals.now) (option_copied inst.entry) }
{
    let Some(inst) = inst else {
        return Merge::Absent;
    };
    let merge = index(locals, inst.operand(0));
    if inst.op == Op::LoopMerge {
        Merge::Loop(merge, index(locals, inst.operand(1)))
    } else {
        Merge::Selection(merge)
    }
}

/// The kind of a terminator: what leads to no block leaves the function.
fn exit_at_end(terminator: Terminator) -> Exit
    ensures { result ≡ exit_at_end_of terminator }
{
    match terminator {
        Terminator::Branch => Exit::Branch,
        Terminator::BranchConditional => Exit::Conditional,
        Terminator::Switch => Exit::Switch,
        Terminator::Return | Terminator::ReturnValue | Terminator::Unreachable => Exit::Leave,
    }
}

/// The kind of the instructions of a group: what is no terminator leads nowhere.
fn exit_in(group: OpGroup) -> Exit
    ensures { result ≡ exit_in_of group }
{
    match group {
        OpGroup::Terminator(terminator) => exit_at_end(terminator),
        _ => Exit::Leave,
    }
}

/// The kind of the terminator of a block.
#[inline(always)]
fn exit_of(inst: Option<&Inst>) -> Exit
    ensures { result ≡ exit_by (option_copied inst.entry) }
{
    match inst {
        Some(inst) => exit_in(inst.op.group()),
        None => Exit::Leave,
    }
}

/// The blocks whose labels are the second of each two words.
fn seconds_of(alloc: Global, locals: &Locals, words: &[u32]) -> Result<Vec<usize>, AllocError>
    ensures { IfOk result (λ targets. targets.items ≡ map (index_of locals.now) (seconds words.now)) }
{
    let mut rest = words;
    let mut targets = Vec::with_capacity(alloc, words.len() / 2)?;
    while let [_, label, after @ ..] = rest {
        targets.push(index(locals, *label))?;
        rest = after;
    }
    Ok(targets)
}

/// The block of an OpBranch with these operands.
fn branch_target(alloc: Global, locals: &Locals, args: &[u32]) -> Targets
    ensures { result ≡ map (index_of locals.now) (labels_by Branch args.now) }
{
    match args {
        [label, ..] => Targets::one(index(locals, *label)),
        [] => Targets::listed(Vec::new(alloc)),
    }
}

/// The blocks of an OpBranchConditional with these operands.
fn conditional_targets(alloc: Global, locals: &Locals, args: &[u32]) -> Targets
    ensures { result ≡ map (index_of locals.now) (labels_by Conditional args.now) }
{
    match args {
        [_, taken, other, ..] => Targets::two(index(locals, *taken), index(locals, *other)),
        [_, taken] => Targets::one(index(locals, *taken)),
        _ => Targets::listed(Vec::new(alloc)),
    }
}

/// The blocks to which a terminator of this kind leads.
fn exits_of(alloc: Global, locals: &Locals, exit: Exit, args: &[u32]) -> Result<Targets, AllocError>
    ensures { IfOk result (λ targets. targets ≡ map (index_of locals.now) (labels_by exit args.now)) }
{
    match exit {
        Exit::Branch => Ok(branch_target(alloc, locals, args)),
        Exit::Conditional => Ok(conditional_targets(alloc, locals, args)),
        Exit::Switch => Ok(Targets::listed(seconds_of(alloc, locals, args)?)),
        Exit::Leave => Ok(Targets::listed(Vec::new(alloc))),
    }
}

/// The blocks to which a terminator leads.
fn targets_of(alloc: Global, locals: &Locals, inst: Option<&Inst>) -> Result<Targets, AllocError>
    ensures { IfOk result (λ targets. targets ≡ map (index_of locals.now) (target_labels (option_copied inst.entry))) }
{
    match inst {
        None => Ok(Targets::listed(Vec::new(alloc))),
        Some(terminator) => exits_of(alloc, locals, exit_of(inst), terminator.args.as_slice()),
    }
}

/// The node of a block.
fn node_of(alloc: Global, locals: &Locals, block: &Block) -> Result<Node, AllocError>
    ensures { IfOk result (λ node. node ≡ node_by (index_of locals.now) block.now) }
{
    let merge = merge_inst(block);
    let terminator = terminator(block);
    Ok(Node {
        at: block.at,
        merge: merge_of(locals, merge),
        merge_at: word_of(merge),
        exit: exit_of(terminator),
        exit_at: word_of(terminator),
        targets: targets_of(alloc, locals, terminator)?,
        reached: false,
    })
}

/// The nodes of a function's blocks, none of them known to be reached.
#[tactic(auto, unfolding(structure_rules::specs::Graph::nodes))]
pub fn nodes(alloc: Global, locals: &Locals) -> Result<Vec<Node>, AllocError>
    ensures { IfOk result (λ nodes. nodes.items ≡ nodes_of locals.now) }
{
    let blocks = locals.function().blocks.as_slice();
    let mut nodes = Vec::with_capacity(alloc, blocks.len())?;
    for block in blocks {
        nodes.push(node_of(alloc, locals, block)?)?;
    }
    Ok(nodes)
}

// The edges between the blocks of a function.
ghost use Rattle.std.specs.Prelude.{◌≡◌, ◌==◌, ◌&&◌, ◌||◌, ◌++◌, ◌∷◌, [], ◌<◌, true, IfOk, OnOk, is_some, length};
ghost use Rattle.spv_index.specs.Locals.{block_in};
ghost use Rattle.profile_rules.specs.FlowRules.{is_target as is_target_of, goes, goes_to};
ghost use Rattle.type_rules.specs.Edges.{list_of, sources_of, ends_at as ends_at_place, with_source, IsAddedAt, AreEmpty, AreSources, Adds};

use spv_index::Locals;
use spv_module::{Block, Function, Inst};
use spv_ops::{Op, is_odd};
use std::alloc::{AllocError, Global};
use std::marker::Model;
use std::slice::from_ref;

/// A block that goes to another: its place in the function, and its label.
#[derive(Clone, Copy, Debug)]
pub struct Source {
    pub place: usize,
    pub label: u32,
}

/// Some blocks. Most labels have one or two, which need no list.
#[derive(Drop)]
enum Sources {
    Nowhere,
    One(Source),
    Two([Source; 2]),
    Many(Vec<Source>),
}

impl Sources {
    fn as_slice(&self) -> &[Source]
        ensures { result.now ≡ list_of self.now }
    {
        match self {
            Sources::Nowhere => &[],
            Sources::One(source) => from_ref(source),
            Sources::Two(pair) => pair,
            Sources::Many(list) => list.as_slice(),
        }
    }
}

/// Which blocks of a function go to each of its labels. Contracts see the function.
#[derive(Drop)]
pub struct Edges<'a> {
    function: &'a Function,
    // at the place of the first block with a label those that go to it
    sources: Vec<Sources>,
}

impl<'a> Model for Edges<'a> {
    ghost use Rattle.spv_module.specs.declared.inst.Function.{Function};
    ghost use Rattle.type_rules.specs.Edges.{AreSources};

    ghost Value = { Function };

    ghost view = { λ e. e.function.now };

    ghost invariant = { λ e. AreSources e.function.now e.function.now.blocks e.sources.items };
}

// Where an OpBranch names its label, and an OpBranchConditional its two.
const TARGET_LABEL: usize = 0;

const TRUE_LABEL: usize = 1;

const FALSE_LABEL: usize = 2;

/// Whether operand k is a label to which an instruction goes.
fn is_target(op: Op, k: usize) -> bool
    ensures { result ≡ is_target_of op k }
{
    match op {
        Op::Branch => k == TARGET_LABEL,
        Op::BranchConditional => k == TRUE_LABEL || k == FALSE_LABEL,
        Op::Switch => is_odd(k),
        _ => false,
    }
}

/// Whether the last of these stands at this place.
fn ends_at(sources: &[Source], place: usize) -> bool
    ensures { result ≡ ends_at_place sources.now place }
{
    match sources.last() {
        None => false,
        Some(last) => last.place == place,
    }
}

/// A list of two blocks and another.
fn listed(alloc: Global, pair: &[Source], source: Source) -> Result<Vec<Source>, AllocError>
    ensures { IfOk result (λ list. list.items ≡ pair.now ++ source ∷ []) }
{
    let mut list = Vec::with_capacity(alloc, 4)?;
    list.extend_from_slice(pair)?;
    list.push(source)?;
    Ok(list)
}

/// Puts a block behind the others.
fn push(alloc: Global, sources: &mut Sources, source: Source) -> Result<(), AllocError>
    ensures { OnOk result (list_of sources.new ≡ list_of sources.old ++ source ∷ []) }
{
    let more = match sources {
        Sources::Nowhere => Sources::One(source),
        Sources::One(first) => Sources::Two([*first, source]),
        Sources::Two(pair) => Sources::Many(listed(alloc, pair, source)?),
        Sources::Many(list) => {
            list.push(source)?;
            return Ok(());
        }
    };
    *sources = more;
    Ok(())
}

/// Adds a block, where it is not the last.
fn add_source(alloc: Global, sources: &mut Sources, source: Source) -> Result<(), AllocError>
    ensures { OnOk result (list_of sources.new ≡ with_source (list_of sources.old) source) }
{
    if ends_at(sources.as_slice(), source.place) {
        return Ok(());
    }
    push(alloc, sources, source)
}

/// Adds a block to one of these lists.
fn add_at(
    alloc: Global,
    lists: &mut Vec<Sources>,
    at: usize,
    source: Source,
) -> Result<(), AllocError>
    requires { at < length lists.old.items }
    ensures { OnOk result (IsAddedAt lists.old.items lists.new.items at source) }
{
    add_source(alloc, &mut lists[at], source)?;
    Ok(())
}

/// A block that goes somewhere, and the blocks of its function by their labels.
#[derive(Clone, Copy)]
struct Adding<'f, 'a> {
    alloc: Global,
    locals: &'f Locals<'a>,
    source: Source,
}

impl<'f, 'a> Adding<'f, 'a> {
    /// Adds the block to those that go to a label.
    #[tactic(auto, using(crate::proofs::Sources::edge_rules))]
    fn add_edge(&self, lists: &mut Vec<Sources>, label: u32) -> Result<(), AllocError>
        requires { length lists.old.items ≡ length self.now.locals.now.blocks }
        ensures { OnOk result (Adds self.now.locals.now self.now.source (λ x. label == x) lists.old.items lists.new.items) }
    {
        match self.locals.block(label) {
            Some(at) => {
                add_at(self.alloc, lists, at, self.source)?;
                Ok(())
            }
            None => Ok(()),
        }
    }

    /// The same, where operand k of an instruction is a target.
    #[tactic(auto, using(crate::proofs::Sources::operand_rules))]
    fn add_operand(
        &self,
        lists: &mut Vec<Sources>,
        op: Op,
        k: usize,
        label: u32,
    ) -> Result<(), AllocError>
        requires { length lists.old.items ≡ length self.now.locals.now.blocks }
        ensures { OnOk result (Adds self.now.locals.now self.now.source (λ x. is_target_of op k && (label == x)) lists.old.items lists.new.items) }
    {
        if is_target(op, k) {
            self.add_edge(lists, label)?;
            Ok(())
        } else {
            Ok(())
        }
    }

    /// Adds the block to those that go to the labels of an instruction. Only terminators have some.
    #[tactic(auto, using(crate::proofs::Sources::start_rules))]
    fn add_inst(&self, lists: &mut Vec<Sources>, inst: &Inst) -> Result<(), AllocError>
        requires { length lists.old.items ≡ length self.now.locals.now.blocks }
        ensures { OnOk result (Adds self.now.locals.now self.now.source (λ x. goes x inst.now) lists.old.items lists.new.items) }
    {
        if !inst.op.is_terminator() {
            return Ok(());
        }
        for (k, label) in inst.args.as_slice().iter().enumerate() {
            self.add_operand(lists, inst.op, k, *label)?;
        }
        Ok(())
    }

    /// Adds the block to those that go to the labels of its instructions.
    #[tactic(auto, using(crate::proofs::Sources::start_rules))]
    fn add_block(&self, lists: &mut Vec<Sources>, block: &Block) -> Result<(), AllocError>
        requires { length lists.old.items ≡ length self.now.locals.now.blocks }
        ensures { OnOk result (Adds self.now.locals.now self.now.source (λ x. goes_to x block.now) lists.old.items lists.new.items) }
    {
        for inst in block.insts.as_slice() {
            self.add_inst(lists, inst)?;
        }
        Ok(())
    }
}

/// As many empty lists.
fn empty_lists(alloc: Global, count: usize) -> Result<Vec<Sources>, AllocError>
    ensures { IfOk result (λ lists. AreEmpty count lists.items) }
{
    let mut lists = Vec::with_capacity(alloc, count)?;
    for _ in 0..count {
        lists.push(Sources::Nowhere)?;
    }
    Ok(lists)
}

/// For each block of a function those that go to its label.
fn lists_of(alloc: Global, locals: &Locals) -> Result<Vec<Sources>, AllocError>
    ensures { IfOk result (λ lists. AreSources locals.now locals.now.blocks lists.items) }
{
    let blocks = locals.function().blocks.as_slice();
    let mut lists = empty_lists(alloc, blocks.len())?;
    for (place, block) in blocks.iter().enumerate() {
        let adding = Adding {
            alloc,
            locals,
            source: Source {
                place,
                label: block.label.0,
            },
        };
        adding.add_block(&mut lists, block)?;
    }
    Ok(lists)
}

impl<'a> Edges<'a> {
    pub fn of(alloc: Global, locals: &Locals<'a>) -> Result<Edges<'a>, AllocError>
        ensures { IfOk result (λ e. e ≡ locals.now) }
    {
        Ok(Edges {
            function: locals.function(),
            sources: lists_of(alloc, locals)?,
        })
    }

    /// The blocks that go to a label of the function.
    #[tactic(auto, using(crate::proofs::Sources::block_inside))]
    pub fn sources(&self, locals: &Locals, label: u32) -> &[Source]
        requires same { locals.now ≡ self.now }
        requires known { is_some (block_in locals.now label) ≡ true }
        ensures { result.now ≡ sources_of label self.now.blocks }
    {
        match locals.block(label) {
            Some(at) => self.sources[at].as_slice(),
            None => &[],
        }
    }
}

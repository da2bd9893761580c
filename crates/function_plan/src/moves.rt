// The moves of the edges into blocks with phis (SPIR-V 1.6, section 2.11).
ghost use Rattle.std.specs.Prelude.{◌≡◌, ◌++◌, ◌∷◌, ◌==◌, [], ℕ, None, drop, length, IfOk, OnOk, if◌then◌else◌};
ghost use Rattle.std.specs.List.{AllZip, flat_map, enumerate_from};
ghost use Rattle.hoist_plan.specs.Kept.{form_in};
ghost use Rattle.phi_copies.specs.Sequence.{IsSequence, is_var, is_proper as is_proper_pair};
ghost use Rattle.function_plan.specs.Phis.{is_live_phi as is_live_phi_in, has_live_phi as has_live_phi_in, live_phis, phi_block, phi_blocks as phi_blocks_of, is_constant_id as is_constant_id_in, source_by as source_by_constant, source_of, is_block, given_by, pairs_into, pairs as pairs_of_edge, firsts as first_pairs};
ghost use Rattle.std.specs.BTreeMap.{get, is_at, keys};
ghost use Rattle.std.specs.Ordering.{nat_cmp};
ghost use Rattle.function_plan.specs.Moved.{items_at, first_from, pairs_from, moves_in, single, both, go_in_order as go_in_order_pairs, AreListed, AreMovesFor};

use crate::edge_moves::Moves;
use crate::once::{add_if, is_new};
use crate::single::{first_phi, moves_of_phi, phi_count};
use hoist_plan::{Form, Naming};
use phi_copies::{Move, Src, Var, copies};
use spv_index::Locals;
use spv_module::{Block, Function, Id, Inst, Module};
use spv_ops::Op;
use spv_words::Memory;
use std::alloc::{AllocError, Global};
use std::collections::{BTreeMap, BTreeSet};

/// What the variables of phis are given by the edges into a block: pairs by the blocks from which these come.
type Pairs = BTreeMap<usize, Vec<(Var, Src)>>;

/// Whether no live instruction mentions a result.
pub fn is_gone(form: Form) -> bool
    ensures { result ≡ Rattle.function_plan.specs.Phis.is_gone form }
{
    matches!(form, Form::Gone)
}

/// Whether an instruction is an OpPhi that is live.
pub fn is_live_phi(naming: &Naming, inst: &Inst) -> bool
    ensures { result ≡ is_live_phi_in (form_in naming.now) inst.now }
{
    inst.op == Op::Phi && !is_gone(naming.of(Id(inst.result)))
}

fn has_live_phi(naming: &Naming, block: &Block) -> bool
    ensures { result ≡ has_live_phi_in (form_in naming.now) block.now }
{
    block
        .insts
        .as_slice()
        .iter()
        .any(|inst| is_live_phi(naming, inst))
}

/// The places of those blocks of a list that have a live phi.
fn phi_places(alloc: Global, blocks: &[Block], naming: &Naming) -> Result<Vec<usize>, AllocError>
    ensures { IfOk result (λ found. found.items ≡ flat_map (phi_block (form_in naming.now)) (enumerate_from 0 blocks.now)) }
{
    let mut found = Vec::new(alloc);
    for (index, block) in blocks.iter().enumerate() {
        add_if(&mut found, index, has_live_phi(naming, block))?;
    }
    Ok(found)
}

/// The blocks that have a live phi.
pub fn phi_blocks(alloc: Global, function: &Function, naming: &Naming) -> Result<Vec<usize>, Memory>
    ensures { IfOk result (λ found. found.items ≡ phi_blocks_of (form_in naming.now) function.now) }
{
    Ok(phi_places(alloc, function.blocks.as_slice(), naming)?)
}

/// Whether an id is that of a constant of the module.
#[inline(always)]
fn is_constant_id(module: &Module, id: u32) -> bool
    ensures { result ≡ is_constant_id_in «module».now.globals id }
{
    module
        .global(Id(id))
        .map_or(false, |inst| inst.op.is_constant())
}

/// The value of a variable, or that of a constant.
fn source_by(constant: bool, value: u32) -> Src
    ensures { result ≡ source_by_constant constant value }
{
    if constant {
        Src::Constant(Id(value))
    } else {
        Src::Var(Var(value))
    }
}

/// What a phi is given: the value of a variable, or that of a constant of the module.
#[inline(always)]
pub fn source(module: &Module, value: u32) -> Src
    ensures { result ≡ source_of «module».now.globals value }
{
    source_by(is_constant_id(module, value), value)
}

/// Takes the pairs of the edge from a block.
fn take_pairs(pairs: &mut Pairs, alloc: Global, from: usize) -> Vec<(Var, Src)>
    ensures taken { result.items ≡ pairs_from pairs.old from }
    ensures left { (b : ℕ) → get nat_cmp pairs.new b ≡ (if is_at (nat_cmp from) b then None else get nat_cmp pairs.old b) }
{
    match pairs.remove(&from) {
        Some(list) => list,
        None => Vec::new(alloc),
    }
}

/// Adds a pair to those of the edge from a block.
fn add_pair_from(
    pairs: &mut Pairs,
    alloc: Global,
    from: usize,
    pair: (Var, Src),
) -> Result<(), AllocError>
    ensures { OnOk result ((b : ℕ) → pairs_from pairs.new b ≡ pairs_from pairs.old b ++ (if from == b then pair ∷ [] else [])) }
{
    let mut list = take_pairs(pairs, alloc, from);
    list.push(pair)?;
    pairs.insert(from, list)?;
    Ok(())
}

/// Adds a pair to those of the edge from a block, where there is one.
fn add_pair(
    pairs: &mut Pairs,
    alloc: Global,
    from: Option<usize>,
    pair: (Var, Src),
) -> Result<(), AllocError>
    ensures { OnOk result ((b : ℕ) → pairs_from pairs.new b ≡ pairs_from pairs.old b ++ (if is_block b from then pair ∷ [] else [])) }
{
    match from {
        None => Ok(()),
        Some(from) => {
            add_pair_from(pairs, alloc, from, pair)?;
            Ok(())
        }
    }
}

/// The words behind these.
pub fn behind(words: &[u32], count: usize) -> &[u32]
    ensures { result.now ≡ drop count words.now }
{
    words.get(count..).unwrap_or(&[])
}

/// Adds what a phi is given by the edges from the blocks that it names.
fn add_phi(
    pairs: &mut Pairs,
    alloc: Global,
    module: &Module,
    locals: &Locals,
    phi: &Inst,
) -> Result<(), AllocError>
    ensures { OnOk result ((b : ℕ) → pairs_from pairs.new b ≡ pairs_from pairs.old b ++ given_by «module».now.globals locals.now b phi.now) }
{
    let mut rest = phi.args.as_slice();
    while rest.len() >= 2 {
        let pair = (Var(phi.result), source(module, rest[0]));
        add_pair(pairs, alloc, locals.block(rest[1]), pair)?;
        rest = behind(rest, 2);
    }
    Ok(())
}

/// The first pair of each target.
#[tactic(auto, using(crate::proofs::Singled::once_rules))]
fn firsts(alloc: Global, pairs: &[(Var, Src)]) -> Result<Vec<(Var, Src)>, AllocError>
    ensures { IfOk result (λ own. own.items ≡ first_pairs pairs.now) }
{
    let mut own = Vec::new(alloc);
    let mut seen = BTreeSet::new(alloc);
    for pair in pairs {
        let new = is_new(&mut seen, pair.0.0 as usize)?;
        add_if(&mut own, *pair, new)?;
    }
    Ok(own)
}

/// The pairs of the edge from a block.
fn list_from(pairs: &Pairs, from: usize) -> &[(Var, Src)]
    ensures { result.now ≡ pairs_from pairs.now from }
{
    match pairs.get(&from) {
        Some(list) => list.as_slice(),
        None => &[],
    }
}

/// Whether a pair reads a variable.
fn reads(source: Src, variable: Var) -> bool
    ensures { result ≡ is_var variable.0 source }
{
    match source {
        Src::Var(v) => v.0 == variable.0,
        Src::Constant(_) => false,
    }
}

/// Whether the two sides of a pair are not one variable.
fn is_proper(pair: (Var, Src)) -> bool
    ensures { result ≡ is_proper_pair pair }
{
    !reads(pair.1, pair.0)
}

/// Whether a pair may be copied before another, and then the other.
fn go_in_order(pair: (Var, Src), other: (Var, Src)) -> bool
    ensures { result ≡ go_in_order_pairs pair other }
{
    is_proper(pair) && is_proper(other) && other.0.0 != pair.0.0 && !reads(other.1, pair.0)
}

/// The move of a single pair, where its two sides are not one variable.
pub fn single_move(alloc: Global, pair: (Var, Src)) -> Result<Vec<Move>, Memory>
    ensures { IfOk result (λ moves. moves.items ≡ single pair) }
{
    if !is_proper(pair) {
        return Ok(Vec::new(alloc));
    }
    let mut moves = Vec::with_capacity(alloc, 1)?;
    moves.push(Move::Set(pair.0, pair.1))?;
    Ok(moves)
}

/// The moves of two pairs, one after the other.
fn two_moves(alloc: Global, pair: (Var, Src), other: (Var, Src)) -> Result<Vec<Move>, Memory>
    ensures { IfOk result (λ moves. moves.items ≡ both pair other) }
{
    let mut moves = Vec::with_capacity(alloc, 2)?;
    moves.push(Move::Set(pair.0, pair.1))?;
    moves.push(Move::Set(other.0, other.1))?;
    Ok(moves)
}

/// The moves of several pairs.
#[tactic(auto, using(crate::proofs::Firsts::own_targets))]
fn moves_of_all(alloc: Global, pairs: &[(Var, Src)]) -> Result<Vec<Move>, Memory>
    ensures { IfOk result (λ moves. IsSequence (first_pairs pairs.now) moves.items) }
{
    let own = firsts(alloc, pairs)?;
    copies(alloc, &own)
}

/// The moves of two pairs.
fn moves_of_two(
    alloc: Global,
    pairs: &[(Var, Src)],
    pair: (Var, Src),
    other: (Var, Src),
) -> Result<Vec<Move>, Memory>
    requires { pairs.now ≡ pair ∷ other ∷ [] }
    ensures { IfOk result (λ moves. IsSequence (first_pairs pairs.now) moves.items) }
{
    if go_in_order(pair, other) {
        two_moves(alloc, pair, other)
    } else {
        moves_of_all(alloc, pairs)
    }
}

/// The moves of an edge.
fn moves_by(alloc: Global, pairs: &[(Var, Src)]) -> Result<Vec<Move>, Memory>
    ensures { IfOk result (λ moves. IsSequence (first_pairs pairs.now) moves.items) }
{
    match pairs {
        [pair] => single_move(alloc, *pair),
        [pair, other] => moves_of_two(alloc, pairs, *pair, *other),
        _ => moves_of_all(alloc, pairs),
    }
}

/// The blocks from which the edges with pairs come.
fn origins(alloc: Global, pairs: &Pairs) -> Result<Vec<usize>, AllocError>
    ensures { IfOk result (λ blocks. blocks.items ≡ keys pairs.now) }
{
    pairs.keys().copied().collect(alloc)
}

/// The moves of the edges from these blocks.
fn moves_from(
    alloc: Global,
    pairs: &Pairs,
    blocks: &[usize],
) -> Result<Vec<(usize, Vec<Move>)>, Memory>
    requires { AreListed pairs.now blocks.now }
    ensures { IfOk result (λ moves. (b : ℕ) → IsSequence (first_pairs (pairs_from pairs.now b)) (items_at (first_from moves.items b))) }
{
    let mut moves = Vec::with_capacity(alloc, blocks.len())?;
    for from in blocks {
        let list = moves_by(alloc, list_from(pairs, *from))?;
        moves.push((*from, list))?;
    }
    Ok(moves)
}

/// A function of a module, and the forms of its values, by which its phis are read.
#[derive(Clone, Copy)]
struct Phis<'p, 'f> {
    module: &'p Module,
    locals: &'p Locals<'f>,
    naming: &'p Naming,
}

impl<'p, 'f> Phis<'p, 'f> {
    /// What the live phis of a block are given, in their order.
    fn pairs_of(&self, alloc: Global, block: &Block) -> Result<Pairs, AllocError>
        ensures { IfOk result (λ pairs. (b : ℕ) → pairs_from pairs b ≡ pairs_into self.now.«module».now.globals (form_in self.now.naming.now) self.now.locals.now b block.now) }
    {
        let mut pairs = BTreeMap::new(alloc);
        for inst in block.insts.as_slice() {
            if is_live_phi(self.naming, inst) {
                add_phi(&mut pairs, alloc, self.module, self.locals, inst)?;
            }
        }
        Ok(pairs)
    }

    /// The moves of the edges into a block with several live phis.
    fn moves_of_several(&self, alloc: Global, block: &Block) -> Result<Moves, Memory>
        ensures { IfOk result (λ moves. AreMovesFor self.now.«module».now.globals (form_in self.now.naming.now) self.now.locals.now block.now moves) }
    {
        let pairs = self.pairs_of(alloc, block)?;
        let blocks = origins(alloc, &pairs)?;
        let list = moves_from(alloc, &pairs, blocks.as_slice())?;
        Moves::of(alloc, list)
    }

    /// The moves of the edges into a block with one live phi.
    fn moves_of_one(&self, alloc: Global, block: &Block) -> Result<Moves, Memory>
        requires { length (live_phis (form_in self.now.naming.now) block.now) ≡ 1 }
        ensures { IfOk result (λ moves. AreMovesFor self.now.«module».now.globals (form_in self.now.naming.now) self.now.locals.now block.now moves) }
    {
        match first_phi(self.naming, block) {
            None => self.moves_of_several(alloc, block),
            Some(phi) => {
                let list = moves_of_phi(alloc, self.module, self.locals, phi)?;
                Moves::of(alloc, list)
            }
        }
    }

    /// The moves of the edges into a block.
    fn moves_into(&self, alloc: Global, block: &Block) -> Result<Moves, Memory>
        ensures { IfOk result (λ moves. AreMovesFor self.now.«module».now.globals (form_in self.now.naming.now) self.now.locals.now block.now moves) }
    {
        let count = phi_count(self.naming, block);
        if count == 0 {
            return Ok(Moves::Few(Vec::new(alloc)));
        }
        if count == 1 {
            return self.moves_of_one(alloc, block);
        }
        self.moves_of_several(alloc, block)
    }

    /// The moves of the edges into each of these blocks.
    fn moves_to(&self, alloc: Global, blocks: &[Block]) -> Result<Vec<Moves>, Memory>
        ensures { IfOk result (λ moves. AllZip (AreMovesFor self.now.«module».now.globals (form_in self.now.naming.now) self.now.locals.now) blocks.now moves.items) }
    {
        let mut moves = Vec::with_capacity(alloc, blocks.len())?;
        for block in blocks {
            let own = self.moves_into(alloc, block)?;
            moves.push(own)?;
        }
        Ok(moves)
    }
}

/// The moves of the edges into each block of a function: what makes the live phis of a block take their values at once.
pub fn moves_of(
    alloc: Global,
    module: &Module,
    locals: &Locals,
    naming: &Naming,
) -> Result<Vec<Moves>, Memory>
    ensures { IfOk result (λ moves. (b t : ℕ) → IsSequence (first_pairs (pairs_of_edge «module».now.globals (form_in naming.now) locals.now b t)) (moves_in moves.items b t)) }
{
    let blocks = locals.function().blocks.as_slice();
    let phis = Phis {
        module,
        locals,
        naming,
    };
    phis.moves_to(alloc, blocks)
}

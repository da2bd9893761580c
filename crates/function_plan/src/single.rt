// The moves of the edges into a block with one live phi (SPIR-V 1.6, section 2.11).
ghost use Rattle.std.specs.Prelude.{◌≡◌, ◌∷◌, ◌++◌, ◌==◌, [], ℕ, IfOk, OnOk, find, length, List, if◌then◌else◌};
ghost use Rattle.std.specs.Option.{option_copied};
ghost use Rattle.hoist_plan.specs.Kept.{form_in};
ghost use Rattle.phi_copies.specs.Sequence.{IsSequence, Pair};
ghost use Rattle.function_plan.specs.Phis.{is_live_phi as is_live_phi_in, live_phis, is_block, given_by, firsts};
ghost use Rattle.function_plan.specs.Moved.{items_at, first_from, left_moves};

use crate::moves::{behind, is_live_phi, single_move, source};
use hoist_plan::Naming;
use phi_copies::{Move, Src, Var};
use spv_index::Locals;
use spv_module::{Block, Inst, Module};
use spv_words::Memory;
use std::alloc::Global;

/// How many live phis a block has.
pub fn phi_count(naming: &Naming, block: &Block) -> usize
    ensures { result ≡ length (live_phis (form_in naming.now) block.now) }
{
    block
        .insts
        .as_slice()
        .iter()
        .filter(|inst| is_live_phi(naming, inst))
        .count()
}

/// The first live phi of a block.
pub fn first_phi<'a>(naming: &Naming, block: &'a Block) -> Option<&'a Inst>
    ensures { option_copied result ≡ find (is_live_phi_in (form_in naming.now)) block.now.insts }
{
    block
        .insts
        .as_slice()
        .iter()
        .find(|inst| is_live_phi(naming, inst))
}

/// Adds the move of a pair to those of the edge from a block; the first counts.
fn push_move(
    list: &mut Vec<(usize, Vec<Move>)>,
    alloc: Global,
    from: usize,
    pair: (Var, Src),
) -> Result<(), Memory>
    ensures { OnOk result ((b : ℕ) (ps : List Pair) → left_moves (first_from list.new.items b) ps ≡ left_moves (first_from list.old.items b) ((if from == b then pair ∷ [] else []) ++ ps)) }
{
    let own = single_move(alloc, pair)?;
    list.push((from, own))?;
    Ok(())
}

/// Adds the move of a pair to those of the edge from a block, where there is one; the first counts.
fn add_move(
    list: &mut Vec<(usize, Vec<Move>)>,
    alloc: Global,
    from: Option<usize>,
    pair: (Var, Src),
) -> Result<(), Memory>
    ensures { OnOk result ((b : ℕ) (ps : List Pair) → left_moves (first_from list.new.items b) ps ≡ left_moves (first_from list.old.items b) ((if is_block b from then pair ∷ [] else []) ++ ps)) }
{
    match from {
        None => Ok(()),
        Some(from) => {
            push_move(list, alloc, from, pair)?;
            Ok(())
        }
    }
}

/// The moves of the edges into a block whose only live phi this is, with the blocks from which these come; the first of a block
/// counts.
pub fn moves_of_phi(
    alloc: Global,
    module: &Module,
    locals: &Locals,
    phi: &Inst,
) -> Result<Vec<(usize, Vec<Move>)>, Memory>
    ensures { IfOk result (λ list. (b : ℕ) → IsSequence (firsts (given_by «module».now.globals locals.now b phi.now)) (items_at (first_from list.items b))) }
{
    let mut list = Vec::with_capacity(alloc, phi.args.len() / 2)?;
    let mut rest = phi.args.as_slice();
    while rest.len() >= 2 {
        let pair = (Var(phi.result), source(module, rest[0]));
        add_move(&mut list, alloc, locals.block(rest[1]), pair)?;
        rest = behind(rest, 2);
    }
    Ok(list)
}

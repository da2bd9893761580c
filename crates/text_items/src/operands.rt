// Which ids are operands of instructions.
ghost use Rattle.std.specs.Prelude.{◌≡◌, ◌==◌, ◌&&◌, ◌||◌, ℕ, IfOk, OnOk, false, flat_map, take};
ghost use Rattle.std.specs.List.{list_any};
ghost use Rattle.id_map.specs.Entries.{is_in};
ghost use Rattle.spv_ops.specs.Operands.{has_id};
ghost use Rattle.text_rules.specs.Printed.{has_operand, has_operand_from, is_operand_in};
ghost use Rattle.text_items.specs.State.{functions_at};

use constant_text::Readings;
use id_map::IdSet;
use spv_module::{Block, Function, Inst};
use spv_ops::{IdWords, id_words};
use std::alloc::{AllocError, Global};

/// Adds ids.
#[inline(always)]
pub fn add_ids(ids: &mut IdSet, words: &[u32]) -> Result<(), AllocError>
    ensures { OnOk result ((id : ℕ) → is_in ids.new id ≡ (is_in ids.old id || list_any (λ word. word == id) words.now)) }
{
    for word in words {
        ids.insert(*word)?;
    }
    Ok(())
}

/// Adds the operand word with a number, where it is an id.
fn add_word(ids: &mut IdSet, words: &IdWords, k: usize, word: u32) -> Result<(), AllocError>
    ensures { OnOk result ((id : ℕ) → is_in ids.new id ≡ (is_in ids.old id || (has_id words.now k && (word == id)))) }
{
    if words.has(k) {
        ids.insert(word)?;
    }
    Ok(())
}

/// Adds those of an instruction's operand words that are ids.
#[tactic(auto, using(crate::proofs::Built::operand_rules))]
fn add_each(ids: &mut IdSet, words: &IdWords, args: &[u32]) -> Result<(), AllocError>
    ensures { OnOk result ((id : ℕ) → is_in ids.new id ≡ (is_in ids.old id || has_operand_from (has_id words.now) id 0 args.now)) }
{
    for (k, word) in args.iter().enumerate() {
        add_word(ids, words, k, *word)?;
    }
    Ok(())
}

/// The operand words that are ids, where these are the first so many.
fn first(args: &[u32], count: usize) -> &[u32]
    ensures { result.now ≡ take count args.now }
{
    args.get(..count).unwrap_or(args)
}

/// Adds those of an instruction's operand words that are ids, in most instructions all or the first ones.
#[inline(always)]
fn add_those(ids: &mut IdSet, words: IdWords, args: &[u32]) -> Result<(), AllocError>
    ensures { OnOk result ((id : ℕ) → is_in ids.new id ≡ (is_in ids.old id || has_operand_from (has_id words) id 0 args.now)) }
{
    match words {
        IdWords::Range(0, count) => {
            add_ids(ids, first(args, count))?;
            Ok(())
        }
        IdWords::OneAndFrom(0, 0) => {
            add_ids(ids, args)?;
            Ok(())
        }
        _ => add_each(ids, &words, args),
    }
}

/// Adds those of an instruction's operands that are ids.
#[inline(always)]
pub fn add_ids_of(ids: &mut IdSet, inst: &Inst) -> Result<(), AllocError>
    ensures { OnOk result ((id : ℕ) → is_in ids.new id ≡ (is_in ids.old id || has_operand inst.now id)) }
{
    let args = inst.args.as_slice();
    add_those(ids, id_words(inst.op, args), args)?;
    Ok(())
}

fn add_insts(ids: &mut IdSet, insts: &[Inst]) -> Result<(), AllocError>
    ensures { OnOk result ((id : ℕ) → is_in ids.new id ≡ (is_in ids.old id || list_any (λ i. has_operand i id) insts.now)) }
{
    for inst in insts {
        add_ids_of(ids, inst)?;
    }
    Ok(())
}

fn add_blocks(ids: &mut IdSet, blocks: &[Block]) -> Result<(), AllocError>
    ensures { OnOk result ((id : ℕ) → is_in ids.new id ≡ (is_in ids.old id || list_any (λ i. has_operand i id) (flat_map (λ b. b.insts) blocks.now))) }
{
    for block in blocks {
        add_insts(ids, block.insts.as_slice())?;
    }
    Ok(())
}

/// How many instructions a function has.
fn insts_in(function: &Function) -> usize {
    let mut count = 0usize;
    for block in function.blocks.as_slice() {
        count = count.saturating_add(block.insts.len());
    }
    count
}

/// How many instructions functions have.
pub fn count_insts(functions: &[&Function]) -> usize {
    let mut count = 0usize;
    for function in functions {
        count = count.saturating_add(insts_in(*function));
    }
    count
}

/// The empty set of ids of a module, with slots in proportion to its globals and to so many instructions.
pub fn no_ids(alloc: Global, readings: &Readings, insts: usize) -> Result<IdSet, AllocError>
    ensures { IfOk result (λ ids. (id : ℕ) → is_in ids id ≡ false) }
{
    let module = readings.module();
    let count = module.globals().len().saturating_add(insts);
    IdSet::below(alloc, module.bound(), count)
}

/// The ids that are operands in functions with so many instructions.
pub fn operand_ids(
    alloc: Global,
    readings: &Readings,
    functions: &[&Function],
    insts: usize,
) -> Result<IdSet, AllocError>
    ensures { IfOk result (λ ids. (id : ℕ) → is_in ids id ≡ is_operand_in (functions_at functions.now) id) }
{
    let mut ids = no_ids(alloc, readings, insts)?;
    for function in functions {
        add_blocks(&mut ids, function.blocks.as_slice())?;
    }
    Ok(ids)
}

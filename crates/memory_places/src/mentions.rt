// The ids that the functions mention that calls reach.
ghost use Rattle.std.specs.Prelude.{◌≡◌, ◌==◌, ◌&&◌, ◌||◌, ℕ, IfOk, OnOk, flat_map};
ghost use Rattle.std.specs.List.{list_any};
ghost use Rattle.id_map.specs.Entries.{is_in};
ghost use Rattle.profile_rules.specs.Calls.{IsCallOrder, numbers};
ghost use Rattle.module_semantics.specs.Setting.{has_operand};
ghost use Rattle.memory_places.specs.Conditions.{CanRun};
ghost use Rattle.memory_places.specs.Mentions.{AreMentioned, mention, with_ids, is_among_ids};

use crate::faults::want_of_memory;
use call_order::order;
use id_map::IdSet;
use spv_index::count_of;
use spv_module::{Block, Function, Id, Inst, Module};
use spv_ops::id_words;
use spv_words::Memory;
use std::alloc::{AllocError, Global};

/// Adds a word, if it is an id.
fn add_if(ids: &mut IdSet, is_id: bool, word: u32) -> Result<(), AllocError>
    ensures { OnOk result ((id : ℕ) → is_in ids.new id ≡ (is_in ids.old id || ((word == id) && is_id))) }
{
    if is_id {
        ids.insert(word)?;
    }
    Ok(())
}

/// Adds the operands of an instruction that are ids.
#[tactic(auto, using(crate::proofs::Mentioned::word_rules))]
fn add_operands(ids: &mut IdSet, inst: &Inst) -> Result<(), AllocError>
    ensures { OnOk result ((id : ℕ) → is_in ids.new id ≡ (is_in ids.old id || has_operand id inst.now)) }
{
    let args = inst.args.as_slice();
    let words = id_words(inst.op, args);
    for k in 0..args.len() {
        add_if(ids, words.has(k), args[k])?;
    }
    Ok(())
}

fn add_insts(ids: &mut IdSet, insts: &[Inst]) -> Result<(), AllocError>
    ensures { OnOk result ((id : ℕ) → is_in ids.new id ≡ (is_in ids.old id || list_any (has_operand id) insts.now)) }
{
    for inst in insts {
        add_operands(ids, inst)?;
    }
    Ok(())
}

fn add_blocks(ids: &mut IdSet, blocks: &[Block]) -> Result<(), AllocError>
    ensures { OnOk result ((id : ℕ) → is_in ids.new id ≡ (is_in ids.old id || list_any (has_operand id) (flat_map (λ b. b.insts) blocks.now))) }
{
    for block in blocks {
        add_insts(ids, block.insts.as_slice())?;
    }
    Ok(())
}

/// Adds what functions mention, of those that are called.
#[tactic(auto, using(crate::proofs::Mentioned::function_rules))]
fn add_functions(ids: &mut IdSet, called: &IdSet, functions: &[Function]) -> Result<(), AllocError>
    ensures { OnOk result ((id : ℕ) → is_in ids.new id ≡ (is_in ids.old id || mention (with_ids (is_in called.now) functions.now) id)) }
{
    for function in functions {
        if called.has(function.id.0) {
            add_blocks(ids, function.blocks.as_slice())?;
        }
    }
    Ok(())
}

/// The functions that calls reach from the entry, each once.
#[tactic(auto, using(crate::proofs::Wanting::call_fault))]
fn called_order(alloc: Global, module: &Module, entry: Id) -> Result<Vec<Id>, Memory>
    requires { CanRun «module».now entry.0 }
    ensures { IfOk result (λ ids. IsCallOrder «module».now.functions entry.0 (numbers ids.items)) }
{
    match order(alloc, module, entry) {
        Ok(ids) => Ok(ids),
        Err(fault) => Err(want_of_memory(fault)),
    }
}

fn set_of(alloc: Global, module: &Module, ids: &[Id]) -> Result<IdSet, AllocError>
    ensures { IfOk result (λ set. (id : ℕ) → is_in set id ≡ is_among_ids ids.now id) }
{
    let mut set = IdSet::below(alloc, module.bound(), ids.len())?;
    for id in ids {
        set.insert(id.0)?;
    }
    Ok(set)
}

/// The ids that an instruction mentions of a function that calls reach from the entry. There is an error only for want of memory.
pub fn mentioned_ids(alloc: Global, module: &Module, entry: Id) -> Result<IdSet, Memory>
    requires { CanRun «module».now entry.0 }
    ensures { IfOk result (λ ids. AreMentioned «module».now entry.0 (is_in ids)) }
{
    let order = called_order(alloc, module, entry)?;
    let called = set_of(alloc, module, &order)?;
    let functions = module.functions();
    let count = module.globals().len().saturating_add(count_of(functions));
    let mut ids = IdSet::below(alloc, module.bound(), count)?;
    add_functions(&mut ids, &called, functions)?;
    Ok(ids)
}

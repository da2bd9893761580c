// Atomic instructions.
ghost use Rattle.std.specs.Prelude.{◌≡◌, List, [], ◌∷◌, Some, IfOk, option_map};
ghost use Rattle.spv_module.specs.declared.inst.Function.{Function};
ghost use Rattle.spv_module.specs.declared.inst.Inst.{Inst as Instruction};
ghost use Rattle.op_semantics.specs.Component.{before};
ghost use Rattle.step_events.specs.Asked.{asked};
ghost use Rattle.module_semantics.specs.Steps as steps;
ghost use Rattle.run_operands.specs.Looks.{word_by};
ghost use Rattle.run_acts.specs.About.{ForEach, ids_of, root_of, conf_of, IsStepOf};
ghost use Rattle.run_memory.specs.Outcomes.{update_in, update_at, updated_by};

use crate::operands::pointer_at;
use group_items::Event;
use memory_places::MemoryMap;
use op_semantics::{Unary, unary_word};
use run_acts::{Site, seen};
use run_operands::{word, words};
use run_state::{Conf, Ids, Root};
use spv_module::Inst;
use spv_ops::AtomicOp;
use spv_words::Memory;
use std::alloc::Global;
use step_events::{AtomicOperands, atomic_kind, atomic_operands};
use step_run::Step;

/// What an atomic instruction changes: the scalar of a variable to which a path leads; with the operands of its event.
#[derive(Drop)]
pub struct Update<'s> {
    pub variable: &'s Inst,
    pub path: &'s [u32],
    pub operands: Vec<u32>,
}

/// A list of one word.
fn single(alloc: Global, word: u32) -> Result<Vec<u32>, Memory>
    ensures { IfOk result (λ list. list.items ≡ word ∷ []) }
{
    let mut list = Vec::with_capacity(alloc, 1)?;
    list.push(word)?;
    Ok(list)
}

/// A word negated, if there is one.
fn negated(alloc: Global, word: Option<u32>) -> Result<Option<Vec<u32>>, Memory>
    ensures { IfOk result (λ list. option_map (λ l. l.items) list ≡ option_map steps.negated (before word (Some []))) }
{
    match word {
        None => Ok(None),
        Some(word) => Ok(Some(single(alloc, unary_word(Unary::SNegate, word))?)),
    }
}

/// The operands of an atomic's event, from the words of ids.
fn words_from(
    alloc: Global,
    map: &MemoryMap<'_>,
    ids: &Ids,
    from: AtomicOperands,
) -> Result<Option<Vec<u32>>, Memory>
    ensures { IfOk result (λ list. option_map (λ l. l.items) list ≡ asked from (word_by map.now (ids_of ids.now))) }
{
    match from {
        AtomicOperands::Known(word) => Ok(Some(single(alloc, word)?)),
        AtomicOperands::Word(id) => words(alloc, map, ids, &[id]),
        AtomicOperands::Negated(id) => negated(alloc, word(map, ids, id)),
        AtomicOperands::Compared(id, other) => words(alloc, map, ids, &[id, other]),
    }
}

/// What an atomic instruction changes along a path in a variable.
fn update_along<'s>(
    site: &Site,
    op: AtomicOp,
    conf: &Conf,
    variable: &'s Inst,
    path: &'s [u32],
) -> Result<Option<Update<'s>>, Memory>
    ensures { ForEach site.now.map.now (λ s. IfOk result (λ u. (fs : List Function) (rest : List Instruction) → update_in s (conf_of fs conf.now) rest site.now.inst.now op path.now variable.now ≡ updated_by s (conf_of fs conf.now) rest site.now.inst.now op u)) }
{
    match words_from(
        site.alloc,
        site.map,
        &conf.top.ids,
        atomic_operands(op, site.inst),
    )? {
        None => Ok(None),
        Some(operands) => {
            Ok(Some(Update {
                variable,
                path,
                operands,
            }))
        }
    }
}

/// The same in any variable.
fn update_there<'s>(
    site: &Site<'s, '_>,
    op: AtomicOp,
    conf: &Conf,
    root: Root,
    path: &'s [u32],
) -> Result<Option<Update<'s>>, Memory>
    ensures { ForEach site.now.map.now (λ s. IfOk result (λ u. (fs : List Function) (rest : List Instruction) → update_at s (conf_of fs conf.now) rest site.now.inst.now op (root_of root, path.now) ≡ updated_by s (conf_of fs conf.now) rest site.now.inst.now op u)) }
{
    match seen(site.map, root) {
        None => Ok(None),
        Some(variable) => update_along(site, op, conf, variable, path),
    }
}

/// What an atomic instruction changes; nothing, where it has no meaning.
pub fn update_of<'s>(
    site: &Site<'s, '_>,
    op: AtomicOp,
    conf: &'s Conf,
) -> Result<Option<Update<'s>>, Memory>
    ensures { ForEach site.now.map.now (λ s. IfOk result (λ u. (fs : List Function) (rest : List Instruction) → steps.atomic_step op s (conf_of fs conf.now) rest site.now.inst.now ≡ updated_by s (conf_of fs conf.now) rest site.now.inst.now op u)) }
{
    match pointer_at(site.map, &conf.top.ids, site.inst, 0) {
        None => Ok(None),
        Some((root, path)) => update_there(site, op, conf, root, path),
    }
}

/// An atomic instruction: the word that it finds is asked for, and the event has 0 for it yet. There is an error only for want of
/// memory (SPIR-V 1.6, section "Atomic Instructions").
pub fn atomic_step(site: &Site, op: AtomicOp, conf: &Conf) -> Result<Step, Memory>
    ensures { ForEach site.now.map.now (λ s. IfOk result (IsStepOf (steps.atomic_step op) s conf.now conf.now site.now.inst.now)) }
{
    match update_of(site, op, conf)? {
        None => Ok(Step::Fails),
        Some(update) => {
            let place = site.map.location(site.alloc, update.variable, update.path)?;
            Ok(Step::Asks(Event::Rmw(atomic_kind(op), place, update.operands, 0)))
        }
    }
}

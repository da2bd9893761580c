// OpStore.
ghost use Rattle.std.specs.Prelude.{◌≡◌, ◌+◌, ◌<◌, ◌^◌, ℕ, List, [], ◌∷◌, IfOk, OnOk, OnErr, option_and_then};
ghost use Rattle.spv_module.specs.declared.inst.Function.{Function};
ghost use Rattle.op_semantics.specs.Composite.{inserted};
ghost use Rattle.traces.specs.Events as trace;
ghost use Rattle.traces.specs.Runs.{goes};
ghost use Rattle.group_items.specs.Events.{locations_of};
ghost use Rattle.module_semantics.specs.Accesses.{keeping};
ghost use Rattle.module_semantics.specs.State as state;
ghost use Rattle.module_semantics.specs.Steps as steps;
ghost use Rattle.run_variables.specs.Stored.{kept_by};
ghost use Rattle.run_acts.specs.About.{value_of, told_of, IsWhole, setting_for, root_of, variables_of, behind, conf_of, IsAct, IsStepOf, IsStill};
ghost use Rattle.run_memory.specs.Outcomes.{kept_with, stored_by};

use crate::made::make;
use crate::stores::{Stored, store_of};
use group_items::{Event, Invocation, LeafPlace};
use run_acts::Site;
use run_state::{Conf, Root, advance};
use run_variables::store_at;
use spv_module::Value;
use spv_words::Memory;
use std::alloc::Global;
use std::collections::BTreeMap;
use step_run::Step;

/// Puts a value in the place of a part of a variable, and goes on behind the instruction. Without that part it has no meaning.
fn replace(conf: &mut Conf, root: Root, path: &[u32], value: Value) -> Step
    requires room { conf.old.top.at + 1 < 2 ^ 64 }
    ensures { (fs : List Function) → IsAct (kept_with (conf_of fs conf.old) (behind fs conf.old) (root_of root) (option_and_then (inserted (value_of value) path.now) (kept_by (conf_of fs conf.old) (root_of root)))) (conf_of fs conf.old) (conf_of fs conf.new) result }
{
    if store_at(conf, root, path, value) {
        advance(conf);
        Step::Moves
    } else {
        Step::Fails
    }
}

fn put(variables: &mut BTreeMap<u32, Value>, id: u32, value: Value) -> Result<(), Memory>
    ensures put { OnOk result ((q : ℕ) → variables_of variables.new q ≡ state.put (variables_of variables.old) id (value_of value) q) }
    ensures err { OnErr result ((q : ℕ) → variables_of variables.new q ≡ variables_of variables.old q) }
{
    variables.insert(id, value)?;
    Ok(())
}

/// A variable of the module has this from now on. Goes on behind the instruction.
fn keep(conf: &mut Conf, id: u32, value: Value) -> Result<Step, Memory>
    requires room { conf.old.top.at + 1 < 2 ^ 64 }
    ensures step { (fs : List Function) → IfOk result (IsAct (goes [] (keeping (state.global id) (value_of value) (steps.advanced (conf_of fs conf.old) (behind fs conf.old)))) (conf_of fs conf.old) (conf_of fs conf.new)) }
    ensures err { (fs : List Function) → OnErr result (conf_of fs conf.new ≡ conf_of fs conf.old) }
{
    put(&mut conf.privates, id, value)?;
    advance(conf);
    Ok(Step::Moves)
}

/// Writes words to memory. Goes on behind the instruction.
fn write(
    alloc: Global,
    conf: &mut Conf,
    places: Vec<LeafPlace>,
    words: Vec<u32>,
) -> Result<Step, Memory>
    requires room { conf.old.top.at + 1 < 2 ^ 64 }
    ensures step { (fs : List Function) → IfOk result (IsAct (goes (trace.write (locations_of places.items) words.items ∷ []) (steps.advanced (conf_of fs conf.old) (behind fs conf.old))) (conf_of fs conf.old) (conf_of fs conf.new)) }
    ensures err { (fs : List Function) → OnErr result (conf_of fs conf.new ≡ conf_of fs conf.old) }
{
    let mut events = Vec::new(alloc);
    events.push(Event::Write(places, words))?;
    Ok(make(conf, events))
}

/// Does what a store comes to, and goes on behind the instruction.
fn settle(alloc: Global, conf: &mut Conf, stored: Stored) -> Result<Step, Memory>
    requires room { conf.old.top.at + 1 < 2 ^ 64 }
    ensures step { (fs : List Function) → IfOk result (IsAct (stored_by (conf_of fs conf.old) (behind fs conf.old) stored) (conf_of fs conf.old) (conf_of fs conf.new)) }
    ensures err { (fs : List Function) → OnErr result (conf_of fs conf.new ≡ conf_of fs conf.old) }
{
    match stored {
        Stored::Missing => Ok(Step::Fails),
        Stored::Part(root, path, value) => Ok(replace(conf, root, &path, value)),
        Stored::Whole(id, value) => keep(conf, id, value),
        Stored::Seen(places, words) => write(alloc, conf, places, words),
    }
}

/// OpStore. There is an error only for want of memory, and it leaves all as it was (SPIR-V 1.6, section "Memory
/// Instructions").
pub fn store_step(site: &Site, inv: &Invocation, conf: &mut Conf) -> Result<Step, Memory>
    requires told { IsWhole inv.now }
    requires room { conf.old.top.at + 1 < 2 ^ 64 }
    ensures step { IfOk result (IsStepOf steps.store_step (setting_for site.now.map.now (told_of inv.now)) conf.old conf.new site.now.inst.now) }
    ensures err { OnErr result (IsStill site.now.map.now conf.old conf.new) }
{
    let stored = store_of(site, inv, conf)?;
    settle(site.alloc, conf, stored)
}

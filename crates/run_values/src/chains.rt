// Chains of indexes.
ghost use Rattle.std.specs.Prelude.{◌≡◌, ◌+◌, ◌<◌, ◌^◌, ◌++◌, ℕ, List, [], IfOk, OnErr, option_map};
ghost use Rattle.spv_module.specs.declared.inst.Function.{Function};
ghost use Rattle.traces.specs.Runs.{goes};
ghost use Rattle.module_semantics.specs.Steps as steps;
ghost use Rattle.module_semantics.specs.Setting.{is_listed};
ghost use Rattle.run_acts.specs.About.{ForEach, held_of, behind, conf_of, frame_of, function_at, IsAct, IsStepOf, IsStill};
ghost use Rattle.run_values.specs.Chained.{allows as allows_of, chained, led_without};

use memory_places::MemoryMap;
use run_acts::Site;
use run_operands::{pointer, words};
use run_state::{Conf, Frame, Held, forget_all, set};
use spv_index::{Locals, behind_first, pointee_of};
use spv_module::Inst;
use spv_words::Memory;
use std::alloc::Global;
use step_run::Step;

/// Whether the type to which an id points allows indexes.
fn allows(map: &MemoryMap<'_>, locals: &Locals, id: u32, indexes: &[u32]) -> bool
    ensures { ForEach map.now (λ s. result ≡ allows_of s locals.now id indexes.now) }
{
    match pointee_of(map.module(), locals, id) {
        None => false,
        Some(ty) => map.are_allowed(ty, indexes),
    }
}

/// A path and the indexes behind it.
fn joined(alloc: Global, path: &[u32], indexes: Vec<u32>) -> Result<Vec<u32>, Memory>
    ensures { IfOk result (λ all. all.items ≡ path.now ++ indexes.items) }
{
    if path.is_empty() {
        return Ok(indexes);
    }
    let mut all = Vec::with_capacity(alloc, path.len().saturating_add(indexes.len()))?;
    all.extend_from_slice(path)?;
    all.extend_from_slice(&indexes)?;
    Ok(all)
}

/// Where a chain leads: as far as its base, and on by its indexes, if these are allowed.
fn target(site: &Site, locals: &Locals, frame: &Frame) -> Result<Option<Held>, Memory>
    requires here { function_at site.now.map.now.of.functions frame.now.function ≡ locals.now }
    ensures { ForEach site.now.map.now (λ s. IfOk result (λ held. option_map held_of held ≡ chained s (frame_of s.of.functions frame.now) site.now.inst.now)) }
{
    let base = site.inst.operand(0);
    match pointer(site.map, &frame.ids, base) {
        None => Ok(None),
        Some((root, path)) => match words(
            site.alloc,
            site.map,
            &frame.ids,
            behind_first(site.inst),
        )? {
            None => Ok(None),
            Some(indexes) => {
                if allows(site.map, locals, base, &indexes) {
                    Ok(Some(Held::Pointer(root, joined(site.alloc, path, indexes)?)))
                } else {
                    Ok(None)
                }
            }
        },
    }
}

/// Goes on behind a chain, which has this from now on, while those based on it have nothing. An error leaves all as it was.
#[tactic(auto, using(run_state::proofs::States::same_conf))]
fn lead(conf: &mut Conf, inst: &Inst, based: &[u32], held: Held) -> Result<Step, Memory>
    requires room { conf.old.top.at + 1 < 2 ^ 64 }
    ensures led { (fs : List Function) → IfOk result (IsAct (goes [] (led_without (is_listed based.now) (conf_of fs conf.old) (behind fs conf.old) inst.now (held_of held))) (conf_of fs conf.old) (conf_of fs conf.new)) }
    ensures err { OnErr result ((fs : List Function) → conf_of fs conf.new ≡ conf_of fs conf.old) }
{
    set(conf, inst.result, held)?;
    forget_all(&mut conf.top.ids, based, inst.result);
    Ok(Step::Moves)
}

/// OpAccessChain, OpInBoundsAccessChain: the result leads further than the base, by indexes that the type allows. Chains that are
/// based on it have nothing until they are set again; the function and the ids of these chains are given. There is an error only
/// for want of memory, and it leaves all as it was.
pub fn chain_step(
    site: &Site,
    locals: &Locals,
    based: &[u32],
    conf: &mut Conf,
) -> Result<Step, Memory>
    requires room { conf.old.top.at + 1 < 2 ^ 64 }
    requires here { function_at site.now.map.now.of.functions conf.old.top.function ≡ locals.now }
    requires based { (id : ℕ) → is_listed based.now id ≡ steps.is_based_on locals.now site.now.inst.now.result id }
    ensures step { ForEach site.now.map.now (λ s. IfOk result (IsStepOf steps.chain_step s conf.old conf.new site.now.inst.now)) }
    ensures err { OnErr result (IsStill site.now.map.now conf.old conf.new) }
{
    match target(site, locals, &conf.top)? {
        None => Ok(Step::Fails),
        Some(held) => lead(conf, site.inst, based, held),
    }
}

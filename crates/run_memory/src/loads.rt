// OpLoad.
ghost use Rattle.std.specs.Prelude.{◌≡◌, ◌+◌, ◌<◌, ◌^◌, List, Some, None, IfOk, OnErr};
ghost use Rattle.spv_module.specs.declared.inst.Function.{Function};
ghost use Rattle.spv_module.specs.declared.inst.Inst.{Inst as Instruction};
ghost use Rattle.few_law.specs.Few.{HasFewMembers};
ghost use Rattle.traces.specs.Events.{reading};
ghost use Rattle.group_items.specs.Events.{event_of, access_of};
ghost use Rattle.module_semantics.specs.Accesses as accesses;
ghost use Rattle.module_semantics.specs.State as state;
ghost use Rattle.module_semantics.specs.Steps as steps;
ghost use Rattle.memory_places.specs.Leaves.{places_with};
ghost use Rattle.run_acts.specs.About.{tree_of, told_of, IsWhole, setting_for, ForEach, root_of, conf_of, narrowed, IsStepOf, IsStill};
ghost use Rattle.run_acts.specs.Narrowed.{narrow_access};
ghost use Rattle.run_memory.specs.Outcomes.{loaded_from, IsLoaded, ReadsFew};

use crate::kept::part_kept;
use crate::operands::pointer_at;
use group_items::{Event, Invocation};
use memory_places::MemoryMap;
use run_acts::{Site, seen, set_result};
use run_state::{Conf, Held, Root};
use spv_module::{Inst, Shape, Value};
use spv_words::Memory;
use std::alloc::Global;
use step_run::Step;
use value_ops::copied;

/// Where a load reads: nowhere, where it has no meaning; along a path in a variable that no other invocation sees, or in one that
/// others see, a part of this shape.
#[derive(Drop)]
pub enum Source<'s> {
    Missing,
    Kept(Root, &'s [u32]),
    Seen(&'s Inst, &'s [u32], Shape),
}

/// What a load comes to: no meaning, a value, or words that are asked for.
#[derive(Drop)]
pub enum Loaded {
    Missing,
    Value(Value),
    Asked(Event),
}

/// Where a load reads along a path in a variable that others see.
fn source_in<'s>(
    alloc: Global,
    map: &MemoryMap<'_>,
    variable: &'s Inst,
    path: &'s [u32],
) -> Result<Source<'s>, Memory>
    ensures load { ForEach map.now (λ s. IfOk result (λ source. (c : state.Conf) (rest : List Instruction) (i : Instruction) (r : state.Root) → steps.load_from s c rest i (r, path.now) (Some variable.now) ≡ loaded_from s c rest i source)) }
    ensures few { IfOk result (λ source. ReadsFew source) }
{
    match map.shape_along(alloc, variable, path)? {
        None => Ok(Source::Missing),
        Some(shape) => Ok(Source::Seen(variable, path, shape)),
    }
}

/// The same in any variable.
fn source_at<'s>(
    alloc: Global,
    map: &'s MemoryMap<'_>,
    root: Root,
    path: &'s [u32],
) -> Result<Source<'s>, Memory>
    ensures load { ForEach map.now (λ s. IfOk result (λ source. (c : state.Conf) (rest : List Instruction) (i : Instruction) → steps.load_from s c rest i (root_of root, path.now) (accesses.seen s (root_of root)) ≡ loaded_from s c rest i source)) }
    ensures few { IfOk result (λ source. ReadsFew source) }
{
    match seen(map, root) {
        None => Ok(Source::Kept(root, path)),
        Some(variable) => source_in(alloc, map, variable, path),
    }
}

/// Where a load reads.
pub fn source_of<'s>(site: &Site<'s, '_>, conf: &'s Conf) -> Result<Source<'s>, Memory>
    ensures load { ForEach site.now.map.now (λ s. IfOk result (λ source. (fs : List Function) (rest : List Instruction) → steps.load_step s (conf_of fs conf.now) rest site.now.inst.now ≡ loaded_from s (conf_of fs conf.now) rest site.now.inst.now source)) }
    ensures few { IfOk result (λ source. ReadsFew source) }
{
    match pointer_at(site.map, &conf.top.ids, site.inst, 0) {
        None => Ok(Source::Missing),
        Some((root, path)) => source_at(site.alloc, site.map, root, path),
    }
}

/// The event whose words are asked for.
fn read_event(
    alloc: Global,
    map: &MemoryMap<'_>,
    variable: &Inst,
    path: &[u32],
    shape: &Shape,
) -> Result<Event, Memory>
    requires { HasFewMembers (tree_of shape.now) }
    ensures { ForEach map.now (λ s. IfOk result (λ e. access_of (event_of e) ≡ Some (narrow_access (reading (places_with s variable.now path.now (tree_of shape.now)))))) }
{
    let places = map.locations_in(alloc, variable, path, shape)?;
    Ok(Event::Read(places, Vec::new(alloc)))
}

/// What a load comes to that reads in a variable that no other invocation sees.
fn load_kept(
    alloc: Global,
    map: &MemoryMap<'_>,
    inv: &Invocation,
    conf: &Conf,
    root: Root,
    path: &[u32],
) -> Result<Loaded, Memory>
    requires { IsWhole inv.now }
    ensures { IfOk result (λ l. (fs : List Function) (rest : List Instruction) (i : Instruction) → IsLoaded (narrowed (steps.load_from (setting_for map.now (told_of inv.now)) (conf_of fs conf.now) rest i (root_of root, path.now) None)) (conf_of fs conf.now) rest i l) }
{
    match part_kept(map, inv, conf, root, path) {
        None => Ok(Loaded::Missing),
        Some(part) => Ok(Loaded::Value(copied(alloc, part)?)),
    }
}

/// What a load comes to.
fn load(site: &Site, inv: &Invocation, conf: &Conf) -> Result<Loaded, Memory>
    requires { IsWhole inv.now }
    ensures { IfOk result (λ l. (fs : List Function) (rest : List Instruction) → IsLoaded (narrowed (steps.load_step (setting_for site.now.map.now (told_of inv.now)) (conf_of fs conf.now) rest site.now.inst.now)) (conf_of fs conf.now) rest site.now.inst.now l) }
{
    match source_of(site, conf)? {
        Source::Missing => Ok(Loaded::Missing),
        Source::Kept(root, path) => load_kept(site.alloc, site.map, inv, conf, root, path),
        Source::Seen(variable, path, shape) => {
            Ok(Loaded::Asked(read_event(site.alloc, site.map, variable, path, &shape)?))
        }
    }
}

/// OpLoad. Of a variable that other invocations see the words are asked for: the event has none yet. There is an error only for
/// want of memory, and it leaves all as it was (SPIR-V 1.6, section "Memory
/// Instructions").
pub fn load_step(site: &Site, inv: &Invocation, conf: &mut Conf) -> Result<Step, Memory>
    requires told { IsWhole inv.now }
    requires room { conf.old.top.at + 1 < 2 ^ 64 }
    ensures step { IfOk result (IsStepOf steps.load_step (setting_for site.now.map.now (told_of inv.now)) conf.old conf.new site.now.inst.now) }
    ensures err { OnErr result (IsStill site.now.map.now conf.old conf.new) }
{
    match load(site, inv, conf)? {
        Loaded::Missing => Ok(Step::Fails),
        Loaded::Value(value) => set_result(conf, site.inst, Held::Value(value)),
        Loaded::Asked(event) => Ok(Step::Asks(event)),
    }
}

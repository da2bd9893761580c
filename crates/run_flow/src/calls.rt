// Calls that begin.
ghost use Rattle.std.specs.Prelude.{◌≡◌, ◌+◌, ◌<◌, ◌^◌, Some, IfOk, OnErr, length, option_map, slice_get};
ghost use Rattle.op_semantics.specs.Component.{each_one};
ghost use Rattle.module_semantics.specs.Steps as steps;
ghost use Rattle.run_state.specs.Confs.{left_in};
ghost use Rattle.run_acts.specs.About.{ForEach, held_of, ids_of, frame_of, IsStepOf, IsStill};
ghost use Rattle.run_flow.specs.Flow.{all_held, passed_by, call_to, first_of};

use crate::routine::Routine;
use crate::routines::Routines;
use crate::starts::first_variables;
use memory_places::MemoryMap;
use run_acts::Site;
use run_calls::{arguments, enter, passed};
use run_operands::held;
use run_state::{Conf, Frame, Held, Ids, phis_of};
use spv_index::behind_first;
use spv_module::Block;
use spv_words::Memory;
use std::alloc::Global;
use step_run::Step;

/// What an argument is in the call, where it has something.
fn argument(site: &Site, conf: &Conf, id: u32) -> Result<Option<Held>, Memory>
    ensures { IfOk result (λ h. option_map held_of h ≡ passed_by site.now.map.now (ids_of conf.now.top.ids) (length conf.now.below.items) id) }
{
    match held(site.map, &conf.top.ids, id) {
        None => Ok(None),
        Some(found) => Ok(Some(passed(site.alloc, found, conf.below.len())?)),
    }
}

/// What arguments are in the call, where each has something.
fn all_arguments(site: &Site, conf: &Conf, list: &[u32]) -> Result<Option<Vec<Held>>, Memory>
    ensures { IfOk result (λ all. option_map (λ v. all_held v.items) all ≡ each_one (passed_by site.now.map.now (ids_of conf.now.top.ids) (length conf.now.below.items)) list.now) }
{
    let mut all = Vec::with_capacity(site.alloc, list.len())?;
    for id in list {
        match argument(site, conf, *id)? {
            None => return Ok(None),
            Some(argument) => all.push(argument)?,
        }
    }
    Ok(Some(all))
}

/// How many phis the first block begins with.
fn first_place(blocks: &[Block]) -> usize
    ensures { left_in (slice_get blocks.now 0) result ≡ steps.first_insts blocks.now }
{
    match blocks.get(0) {
        None => 0,
        Some(block) => phis_of(block).len(),
    }
}

/// The first moment of a call of a function, whose ids have this. There is an error only for want of memory.
pub fn first_frame(
    alloc: Global,
    map: &MemoryMap<'_>,
    routine: &Routine<'_>,
    place: usize,
    ids: Ids,
) -> Result<Frame, Memory>
    requires here { slice_get map.now.of.functions place ≡ Some routine.now }
    ensures { ForEach map.now (λ s. IfOk result (λ frame. frame_of s.of.functions frame ≡ first_of s routine.now (ids_of ids))) }
{
    let blocks = routine.function().blocks.as_slice();
    Ok(Frame {
        function: place,
        block: 0,
        at: first_place(blocks),
        ids,
        variables: first_variables(alloc, map, routine.locals(), routine.variables())?,
    })
}

/// A call of a function at its place begins.
fn begin_call(
    site: &Site,
    routine: &Routine<'_>,
    place: usize,
    conf: &mut Conf,
) -> Result<Step, Memory>
    requires here { slice_get site.now.map.now.of.functions place ≡ Some routine.now }
    requires room { conf.old.top.at + 1 < 2 ^ 64 }
    ensures step { ForEach site.now.map.now (λ s. IfOk result (IsStepOf (call_to routine.now) s conf.old conf.new site.now.inst.now)) }
    ensures err { OnErr result (IsStill site.now.map.now conf.old conf.new) }
{
    match all_arguments(site, conf, behind_first(site.inst))? {
        None => Ok(Step::Fails),
        Some(list) => {
            let ids = arguments(site.alloc, routine.function().params.as_slice(), list)?;
            let frame = first_frame(site.alloc, site.map, routine, place, ids)?;
            enter(conf, frame, site.inst.result)?;
            Ok(Step::Moves)
        }
    }
}

/// OpFunctionCall (SPIR-V 1.6, section "Function Instructions"): the call begins with nothing but its parameters and variables, and
/// the present one waits. There is no meaning where there is no such function, or where an argument has nothing. There is an error
/// only for want of memory, which leaves all as it was.
pub fn call_step(site: &Site, routines: &Routines<'_>, conf: &mut Conf) -> Result<Step, Memory>
    requires functions { routines.now ≡ site.now.map.now.of.functions }
    requires room { conf.old.top.at + 1 < 2 ^ 64 }
    ensures step { ForEach site.now.map.now (λ s. IfOk result (IsStepOf steps.call_step s conf.old conf.new site.now.inst.now)) }
    ensures err { OnErr result (IsStill site.now.map.now conf.old conf.new) }
{
    match routines.called(site.inst.operand(0)) {
        None => Ok(Step::Fails),
        Some((place, routine)) => begin_call(site, routine, place, conf),
    }
}

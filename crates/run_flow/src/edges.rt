// Edges between blocks.
ghost use Rattle.std.specs.Prelude.{◌≡◌, List, Some, IfOk, OnErr, option_map, slice_get};
ghost use Rattle.spv_module.specs.declared.inst.Function.{Function};
ghost use Rattle.op_semantics.specs.Component.{each_one};
ghost use Rattle.run_acts.specs.About.{value_of, ForEach, ids_of, function_at, IsStepOf, IsStill};
ghost use Rattle.run_flow.specs.Flow.{values_of, phi_by, edge_to, edge_by, branch_by, IsMoveOf};

use crate::targets::target_label;
use memory_places::MemoryMap;
use run_acts::Site;
use run_operands::value;
use run_state::{Conf, Ids, go_to, phis_of, present_label, source_from};
use spv_index::Locals;
use spv_module::{Block, Inst, Value};
use spv_ops::Terminator;
use spv_words::Memory;
use std::alloc::Global;
use step_run::Step;
use value_ops::copied;

/// What a phi takes from the block with a label.
fn phi_value<'s>(map: &'s MemoryMap<'_>, ids: &'s Ids, from: u32, phi: &Inst) -> Option<&'s Value>
    ensures { option_map (λ v. value_of v.now) result ≡ phi_by map.now (ids_of ids.now) from phi.now }
{
    match source_from(from, phi.args.as_slice()) {
        None => None,
        Some(id) => value(map, ids, id),
    }
}

/// What phis take from the block with a label, where each takes something.
fn phi_values(
    alloc: Global,
    map: &MemoryMap<'_>,
    ids: &Ids,
    from: u32,
    phis: &[Inst],
) -> Result<Option<Vec<Value>>, Memory>
    ensures { IfOk result (λ all. option_map (λ v. values_of v.items) all ≡ each_one (phi_by map.now (ids_of ids.now) from) phis.now) }
{
    let mut all = Vec::with_capacity(alloc, phis.len())?;
    for phi in phis {
        match phi_value(map, ids, from, phi) {
            None => return Ok(None),
            Some(value) => all.push(copied(alloc, value)?)?,
        }
    }
    Ok(Some(all))
}

/// Control goes to a block at its place among those of the function.
fn enter_block(
    alloc: Global,
    map: &MemoryMap<'_>,
    blocks: &[Block],
    conf: &mut Conf,
    place: usize,
    block: &Block,
) -> Result<Step, Memory>
    ghost fs: { List Function }
    requires functions { fs ≡ map.now.of.functions }
    requires here { (function_at fs conf.old.top.function).blocks ≡ blocks.now }
    requires block { slice_get blocks.now place ≡ Some block.now }
    ensures step { ForEach map.now (λ s. IfOk result (IsMoveOf (edge_to place block.now) s conf.old conf.new)) }
    ensures err { OnErr result (IsStill map.now conf.old conf.new) }
{
    let from = present_label(blocks, conf.top.block);
    match phi_values(alloc, map, &conf.top.ids, from, phis_of(block))? {
        None => Ok(Step::Fails),
        Some(values) => {
            go_to(conf, place, block, values)?;
            Ok(Step::Moves)
        }
    }
}

/// Control goes to the block with a label, whose phis take their values from the present one. There is no meaning where there is no
/// such block, or where a phi takes nothing.
fn edge_step(
    alloc: Global,
    map: &MemoryMap<'_>,
    locals: &Locals<'_>,
    conf: &mut Conf,
    label: u32,
) -> Result<Step, Memory>
    requires here { function_at map.now.of.functions conf.old.top.function ≡ locals.now }
    ensures step { ForEach map.now (λ s. IfOk result (IsMoveOf (edge_by label) s conf.old conf.new)) }
    ensures err { OnErr result (IsStill map.now conf.old conf.new) }
{
    let blocks = locals.function().blocks.as_slice();
    match locals.block(label) {
        None => Ok(Step::Fails),
        Some(place) => match blocks.get(place) {
            None => Ok(Step::Fails),
            Some(block) => enter_block(alloc, map, blocks, conf, place, block),
        },
    }
}

/// OpBranch, OpBranchConditional, OpSwitch (SPIR-V 1.6, section "Control-Flow Instructions"): control goes to the block with the label
/// that is chosen. There is no meaning where none is chosen, and there is an error only for want of memory, which leaves all as it
/// was.
pub fn branch_step(
    site: &Site,
    locals: &Locals<'_>,
    end: Terminator,
    conf: &mut Conf,
) -> Result<Step, Memory>
    requires here { function_at site.now.map.now.of.functions conf.old.top.function ≡ locals.now }
    ensures step { ForEach site.now.map.now (λ s. IfOk result (IsStepOf (branch_by end) s conf.old conf.new site.now.inst.now)) }
    ensures err { OnErr result (IsStill site.now.map.now conf.old conf.new) }
{
    match target_label(site.map, &conf.top, end, site.inst) {
        None => Ok(Step::Fails),
        Some(label) => edge_step(site.alloc, site.map, locals, conf, label),
    }
}

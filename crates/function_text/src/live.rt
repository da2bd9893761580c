// What constants and structs are written for: the types of live instructions, and the ids that these mention.
ghost use Rattle.std.specs.Prelude.{◌≡◌, ◌++◌, true, false, flat_map, OnOk, slice_index_or};
ghost use Rattle.std.specs.List.{enumerate_from};
ghost use Rattle.hoist_plan.specs.Kept.{form_in, is_carried_in};
ghost use Rattle.function_text.specs.Live.{is_composite_type as is_composite_opcode, is_composite as is_composite_in, is_wanted as is_wanted_in, in_block, types_of, mentions_of, liveness_in, types_in, mentions_in};

use crate::heads::is_hoisted;
use function_plan::{FunctionPlan, is_captured, is_live};
use hoist_plan::Naming;
use spv_index::behind_first;
use spv_module::{Block, Id, Inst, Module};
use spv_ops::Op;
use spv_words::Memory;
use std::alloc::AllocError;
use text_items::Live;
use use_chains::add_mentions;

/// OpTypeArray, OpTypeRuntimeArray and OpTypeStruct.
fn is_composite_type(op: Op) -> bool
    ensures { result ≡ is_composite_opcode op }
{
    matches!(op, Op::TypeArray | Op::TypeRuntimeArray | Op::TypeStruct)
}

/// Whether a type is an array or a struct.
fn is_composite(module: &Module, ty: u32) -> bool
    ensures { result ≡ is_composite_in «module».now.globals ty }
{
    module
        .global(Id(ty))
        .map_or(false, |inst| is_composite_type(inst.op))
}

/// Whether this is something that a reached block needs of a block, be it reached or not: a chain, or a composite that is declared
/// at the top of the function.
fn is_wanted(module: &Module, naming: &Naming, inst: &Inst) -> bool
    ensures { result ≡ is_wanted_in «module».now.globals (form_in naming.now) (is_carried_in naming.now) inst.now }
{
    is_captured(naming, inst)
        || is_hoisted(naming.of(Id(inst.result))) && is_composite(module, inst.ty)
}

/// Adds the type of an instruction of a reached block, and what it mentions, where it is live.
fn add_reached(live: &mut Live, plan: &FunctionPlan, inst: &Inst) -> Result<(), AllocError>
    ensures types { OnOk result (live.new.types.items ≡ live.old.types.items ++ types_of (liveness_in plan.now) true inst.now) }
    ensures mentions { OnOk result (live.new.mentions.items ≡ live.old.mentions.items ++ mentions_of (liveness_in plan.now) true inst.now) }
{
    if is_live(&plan.naming, inst) {
        live.types.push(inst.ty)?;
        add_mentions(
            &mut live.mentions,
            &plan.locals,
            plan.reached.as_slice(),
            inst,
        )?;
    }
    Ok(())
}

/// Adds the type of an instruction of a block that is not reached, where a reached block needs it.
fn add_type(types: &mut Vec<u32>, plan: &FunctionPlan, inst: &Inst) -> Result<(), AllocError>
    ensures { OnOk result (types.new.items ≡ types.old.items ++ types_of (liveness_in plan.now) false inst.now) }
{
    if is_wanted(plan.source, &plan.naming, inst) {
        types.push(inst.ty)?;
    }
    Ok(())
}

/// Adds the indexes of a chain of a block that is not reached, where a reached block needs it.
fn add_indexes(mentions: &mut Vec<u32>, plan: &FunctionPlan, inst: &Inst) -> Result<(), AllocError>
    ensures { OnOk result (mentions.new.items ≡ mentions.old.items ++ mentions_of (liveness_in plan.now) false inst.now) }
{
    if is_captured(&plan.naming, inst) {
        mentions.extend_from_slice(behind_first(inst))?;
    }
    Ok(())
}

/// Adds the type of an instruction of a block, and what it mentions, where it is live.
fn add_inst(
    live: &mut Live,
    plan: &FunctionPlan,
    reached: bool,
    inst: &Inst,
) -> Result<(), AllocError>
    ensures types { OnOk result (live.new.types.items ≡ live.old.types.items ++ types_of (liveness_in plan.now) reached inst.now) }
    ensures mentions { OnOk result (live.new.mentions.items ≡ live.old.mentions.items ++ mentions_of (liveness_in plan.now) reached inst.now) }
{
    if reached {
        add_reached(live, plan, inst)?;
    } else {
        add_type(&mut live.types, plan, inst)?;
        add_indexes(&mut live.mentions, plan, inst)?;
    }
    Ok(())
}

/// Whether a block of a planned function is reached.
fn is_reached(plan: &FunctionPlan, index: usize) -> bool
    ensures { result ≡ slice_index_or plan.now.reached.items index false }
{
    plan.reached.get(index).copied().unwrap_or(false)
}

/// Adds the types of the live instructions of a block, and the ids that these mention.
fn add_block(
    live: &mut Live,
    plan: &FunctionPlan,
    index: usize,
    block: &Block,
) -> Result<(), AllocError>
    ensures types { OnOk result (live.new.types.items ≡ live.old.types.items ++ in_block types_of (liveness_in plan.now) (index, block.now)) }
    ensures mentions { OnOk result (live.new.mentions.items ≡ live.old.mentions.items ++ in_block mentions_of (liveness_in plan.now) (index, block.now)) }
{
    let reached = is_reached(plan, index);
    for inst in block.insts.as_slice() {
        add_inst(live, plan, reached, inst)?;
    }
    Ok(())
}

/// Adds the types of the live instructions of blocks, and the ids that these mention.
fn add_blocks(live: &mut Live, plan: &FunctionPlan, blocks: &[Block]) -> Result<(), AllocError>
    ensures types { OnOk result (live.new.types.items ≡ live.old.types.items ++ flat_map (in_block types_of (liveness_in plan.now)) (enumerate_from 0 blocks.now)) }
    ensures mentions { OnOk result (live.new.mentions.items ≡ live.old.mentions.items ++ flat_map (in_block mentions_of (liveness_in plan.now)) (enumerate_from 0 blocks.now)) }
{
    for (index, block) in blocks.iter().enumerate() {
        add_block(live, plan, index, block)?;
    }
    Ok(())
}

/// Adds the types of the live instructions of a function, and the ids that these mention. There is an error only for want of memory.
pub fn add_live(live: &mut Live, plan: &FunctionPlan) -> Result<(), Memory>
    ensures types { OnOk result (live.new.types.items ≡ live.old.types.items ++ types_in plan.now) }
    ensures mentions { OnOk result (live.new.mentions.items ≡ live.old.mentions.items ++ mentions_in plan.now) }
{
    add_blocks(live, plan, plan.function().blocks.as_slice())?;
    Ok(())
}

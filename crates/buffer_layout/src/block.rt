// The plan of a block variable.
ghost use Rattle.std.specs.Prelude.{◌≡◌, ◌↔◌, IfOk, IfErr, IsTrue, OnOk, OnErr, true, map};
ghost use Rattle.std.specs.Option.{option_copied};
ghost use Rattle.spv_types.specs.Types.{IsWithin};
ghost use Rattle.layout_rules.specs.Blocks.{first_kind as first_kind_of, kind_of_members, members_break, first_broken as first_broken_in, is_block_class as is_block_class_number, block_of as block_in, kind_at, IsBlockVariable, IsRightAt, IsRight};
ghost use Rattle.buffer_layout.specs.Members.{member_of};
ghost use Rattle.buffer_layout.specs.Plan.{IsPlanAt, IsPlanOf, IsWithinLimits, IsUnbroken};

use crate::layouts::plan;
use crate::members::{Member, first_broken, members_of};
use crate::plan::BlockPlan;
use crate::ruler::Ruler;
use layout_rules::Kind;
use spv_decor::Decor;
use spv_index::{is_uniform_struct, pointer};
use spv_module::{Id, Inst, Module};
use spv_ops::{Op, StorageClass};
use spv_types::shape;
use spv_words::{Fault, Memory, Refusal, Rule};
use std::alloc::Global;

/// Uniform, PushConstant and StorageBuffer (SPIR-V 1.6, section 3.7).
fn is_block_class(class: u32) -> bool
    ensures { result ≡ is_block_class_number class }
{
    class == StorageClass::Uniform.number()
        || class == StorageClass::PushConstant.number()
        || class == StorageClass::StorageBuffer.number()
}

/// The struct (OpTypeStruct) that a block variable points to, and `None` exactly where the
/// instruction is no OpVariable of class Uniform, PushConstant or StorageBuffer whose type is a
/// pointer to a struct (SPIR-V 1.6, sections 3.7 and 3.49.8).
pub fn block_of<'a>(module: &'a Module, inst: &Inst) -> Option<&'a Inst>
    ensures { option_copied result ≡ block_in «module».now.globals inst.now }
{
    if inst.op != Op::Variable || !is_block_class(inst.operand(0)) {
        return None;
    }
    let block = module.global(pointer(module, Id(inst.ty))?.pointee)?;
    if block.op == Op::TypeStruct {
        Some(block)
    } else {
        None
    }
}

/// The id is a block variable: an OpVariable of class Uniform, PushConstant or StorageBuffer that
/// points to a struct.
pub fn is_block_variable(module: &Module, id: Id) -> bool
    ensures { IsTrue result ↔ IsBlockVariable «module».now.globals id.0 }
{
    match module.global(id) {
        Some(inst) => block_of(module, inst).is_some(),
        None => false,
    }
}

/// The first layout that the block of a variable of this class with this struct may take.
fn first_kind(decor: &Decor, class: u32, id: Id) -> Kind
    ensures { result ≡ first_kind_of decor.now class id.0 }
{
    if is_uniform_struct(decor, class, id) {
        Kind::Std140
    } else {
        Kind::Std430
    }
}

/// The layout that a block with these members takes, or a rule that it breaks by the first.
#[tactic(auto, using(crate::proofs::Taken::found_rules))]
fn taken_kind(module: &Module, decor: &Decor, first: Kind, members: &[Member]) -> Result<Kind, Rule>
    ensures taken { IfOk result (λ kind. kind_of_members decor.now «module».now.globals first (map member_of members.now) ≡ Some kind) }
    ensures fits { IfOk result (λ kind. first_broken_in decor.now «module».now.globals kind (map member_of members.now) ≡ None) }
    ensures none { OnErr result (kind_of_members decor.now «module».now.globals first (map member_of members.now) ≡ None) }
    ensures broken { IfErr result (λ rule. members_break decor.now «module».now.globals first (map member_of members.now) rule ≡ true) }
{
    match first_broken(&Ruler::new(module, decor, first), members) {
        None => Ok(first),
        Some(rule) => match first_broken(&Ruler::new(module, decor, Kind::Std140), members) {
            None => Ok(Kind::Std140),
            Some(_) => Err(rule),
        },
    }
}

/// The layout that the block of a variable takes, and none where it breaks a rule by each, as `check_block` tells it of a block
/// variable, without its limits: for a module that was judged, whose types are within them. There is an error only for want of
/// memory.
pub fn kind_of(
    alloc: Global,
    module: &Module,
    decor: &Decor,
    variable: &Inst,
    block: &Inst,
) -> Result<Option<Kind>, Memory>
    ensures { IfOk result (λ kind. kind ≡ kind_at decor.now «module».now.globals variable.now block.now) }
{
    let members = members_of(alloc, module, decor, block)?;
    let first = first_kind(decor, variable.operand(0), Id(block.result));
    match taken_kind(module, decor, first, &members) {
        Ok(kind) => Ok(Some(kind)),
        Err(_) => Ok(None),
    }
}

/// The plan of a variable with this block, or why it is refused.
#[tactic(auto, using(crate::proofs::Taken::plan_rules))]
fn plan_of(
    alloc: Global,
    module: &Module,
    decor: &Decor,
    variable: &Inst,
    block: &Inst,
) -> Result<BlockPlan, Fault>
    ensures plan { IfOk result (IsPlanAt decor.now «module».now.globals variable.now block.now) }
    ensures within { OnOk result (IsWithin «module».now.globals block.now.result) }
    ensures refused { IfErr result (IsRightAt decor.now «module».now.globals variable.now block.now) }
{
    let _ = shape(alloc, module, Id(block.result))?;
    let members = members_of(alloc, module, decor, block)?;
    let first = first_kind(decor, variable.operand(0), Id(block.result));
    match taken_kind(module, decor, first, &members) {
        Ok(kind) => Ok(plan(alloc, &Ruler::new(module, decor, kind), &members)?),
        Err(rule) => Err(Fault::Refused(Refusal {
            rule,
            at: variable.at,
        })),
    }
}

/// The layout that a block variable takes, with the layouts of its members and their Offsets
/// (SPIR-V 1.6, section 2.16.2; GLSL 4.60, section 4.4.5): a uniform block std140, a storage block or
/// PushConstant block std430 where it fits, else std140. A member whose type has no shape, or does
/// not stand before the block, has a layout of zeros.
///
/// Where none fits it refuses, at the variable, by a rule that the block breaks by the first that it
/// may take. L1: a member lacks its Offset. L2: an ArrayStride is missing or not the layout's.
/// L3: there is a bool. L4: an Offset of the block is no multiple of its member's alignment. L5: one
/// is below the end of the member before. L6: an Offset in a struct inside is not the layout's. L7:
/// an end is past the last byte that 32 bits can number. It refuses by the limits on types only where
/// a type of the module passes one, and wherever that of the block does.
#[tactic(auto, using(crate::proofs::Taken::unbroken))]
pub fn check_block(
    alloc: Global,
    module: &Module,
    decor: &Decor,
    variable: Id,
) -> Result<BlockPlan, Fault>
    requires { IsBlockVariable «module».now.globals variable.0 }
    ensures plan { IfOk result (IsPlanOf decor.now «module».now.globals variable.0) }
    ensures within { OnOk result (IsWithinLimits «module».now.globals variable.0) }
    ensures passes { OnOk result (IsUnbroken decor.now «module».now.globals variable.0) }
    ensures refused { IfErr result (IsRight decor.now «module».now.globals variable.0) }
{
    let inst = module.global(variable).unwrap();
    let block = block_of(module, inst).unwrap();
    plan_of(alloc, module, decor, inst, block)
}

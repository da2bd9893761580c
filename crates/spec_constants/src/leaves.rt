// How many scalars the types of a module's values have, up to one past the limit.
ghost use Rattle.std.specs.Prelude.{◌≡◌, ◌≤◌, ◌+◌, ◌*◌, ◌==◌, ◌||◌, ◌&&◌, min, IfOk, IfErr, OnOk, sum_by};
ghost use Rattle.std.specs.Option.{option_map_or};
ghost use Rattle.spv_module.specs.Held.{global};
ghost use Rattle.spv_words.specs.Limit.{limit_number};
ghost use Rattle.spv_words.specs.declared.rule.Limit.TheVariants.{Leaves};
ghost use Rattle.spv_index.specs.Pointers.{pointee as pointee_of};
ghost use Rattle.profile_rules.specs.Leaves.{constant_length, leaves_step, type_leaves as leaves_of_type, is_composite as is_composite_type, may_be_composite as may_be_composite_op, is_own_variable as is_own_variable_of, inst_leaves as leaves_of_inst, function_leaves as leaves_of_function, leaves_of_module};
ghost use Rattle.spec_constants.specs.Counted.{cap, known, AreCounted, IsOver};

use spv_index::pointer;
use spv_module::{Block, Function, Id, Inst, Module};
use spv_ops::{Op, StorageClass};
use spv_words::{Fault, Limit, Memory};
use std::alloc::Global;
use std::collections::BTreeMap;

// One more than the limit.
const CAP: u64 = 262145;

/// The scalars of the types met so far, by id, up to the cap.
type Counts = BTreeMap<u32, u64>;

fn known_leaves(counts: &Counts, id: u32) -> u64
    ensures { result ≡ known counts.now id }
{
    counts.get(&id).copied().unwrap_or(0)
}

fn sum_of(counts: &Counts, ids: &[u32]) -> u64
    ensures { result ≡ min cap (sum_by (known counts.now) ids.now) }
{
    let mut sum: u64 = 0;
    for id in ids {
        sum = CAP.min(sum.saturating_add(known_leaves(counts, *id)));
    }
    sum
}

fn product(count: u32, leaves: u64) -> u64
    ensures { result ≡ min cap (count * leaves) }
{
    CAP.min(u64::from(count).saturating_mul(leaves))
}

/// The length of an array, where it is an OpConstant.
fn length_of(module: &Module, id: u32) -> u32
    ensures { result ≡ constant_length (global «module».now.globals id) }
{
    match module.global(Id(id)) {
        Some(inst) if inst.op == Op::Constant => inst.operand(0),
        Some(_) | None => 0,
    }
}

/// The scalars of the type that an instruction declares, from those of the types before it.
#[tactic(auto, unfolding(spv_types::specs::Types::kind))]
fn count(module: &Module, counts: &Counts, inst: &Inst) -> u64
    ensures { result ≡ min cap (leaves_step «module».now.globals (known counts.now) inst.now) }
{
    match inst.op {
        Op::TypeBool | Op::TypeInt => 1,
        Op::TypeVector => product(inst.operand(1), known_leaves(counts, inst.operand(0))),
        Op::TypeArray => product(
            length_of(module, inst.operand(1)),
            known_leaves(counts, inst.operand(0)),
        ),
        Op::TypeStruct => sum_of(counts, inst.args.as_slice()),
        _ => 0,
    }
}

/// The scalars of each type.
fn type_leaves(alloc: Global, module: &Module) -> Result<Counts, Memory>
    ensures { IfOk result (λ counts. AreCounted (known counts) (leaves_of_type «module».now.globals)) }
{
    let mut counts = BTreeMap::new(alloc);
    for inst in module.globals() {
        let leaves = count(module, &counts, inst);
        counts.insert(inst.result, leaves)?;
    }
    Ok(counts)
}

/// Whether a type is a vector, an array or a struct.
#[tactic(auto, unfolding(spv_types::specs::Types::kind))]
fn is_composite(module: &Module, ty: u32) -> bool
    ensures { result ≡ is_composite_type «module».now.globals ty }
{
    match module.global(Id(ty)) {
        None => false,
        Some(inst) => matches!(
            inst.op,
            Op::TypeVector | Op::TypeArray | Op::TypeRuntimeArray | Op::TypeStruct
        ),
    }
}

/// OpConstantComposite, OpConstantNull, OpSpecConstantComposite, OpSpecConstantOp, OpUndef.
#[inline(always)]
fn may_be_composite(op: Op) -> bool
    ensures { result ≡ may_be_composite_op op }
{
    matches!(
        op,
        Op::ConstantComposite
            | Op::ConstantNull
            | Op::SpecConstantComposite
            | Op::SpecConstantOp
            | Op::Undef
    )
}

/// OpVariable of class Private or Function.
fn is_own_variable(inst: &Inst) -> bool
    ensures { result ≡ is_own_variable_of inst.now }
{
    inst.op == Op::Variable
        && (inst.operand(0) == StorageClass::Private.number()
            || inst.operand(0) == StorageClass::Function.number())
}

/// The scalars of what a pointer type points to.
fn pointee_leaves(module: &Module, counts: &Counts, ty: u32) -> u64
    ensures { result ≡ option_map_or (known counts.now) (pointee_of «module».now.globals ty) 0 }
{
    match pointer(module, Id(ty)) {
        None => 0,
        Some(pointer) => known_leaves(counts, pointer.pointee.0),
    }
}

/// The scalars that an instruction counts.
#[inline(always)]
fn inst_leaves(module: &Module, counts: &Counts, inst: &Inst) -> u64
    ensures { result ≡ leaves_of_inst «module».now.globals (known counts.now) inst.now }
{
    if may_be_composite(inst.op) {
        if is_composite(module, inst.ty) {
            known_leaves(counts, inst.ty)
        } else {
            0
        }
    } else if is_own_variable(inst) {
        pointee_leaves(module, counts, inst.ty)
    } else if inst.op == Op::CopyLogical {
        known_leaves(counts, inst.ty)
    } else {
        0
    }
}

#[inline(always)]
fn insts_leaves(module: &Module, counts: &Counts, insts: &[Inst]) -> u64
    ensures { result ≡ min cap (sum_by (leaves_of_inst «module».now.globals (known counts.now)) insts.now) }
{
    let mut sum: u64 = 0;
    for inst in insts {
        sum = CAP.min(sum.saturating_add(inst_leaves(module, counts, inst)));
    }
    sum
}

fn function_leaves(module: &Module, counts: &Counts, function: &Function) -> u64
    ensures { result ≡ min cap (leaves_of_function «module».now.globals (known counts.now) function.now) }
{
    let mut sum: u64 = 0;
    for block in function.blocks.as_slice() {
        sum = CAP.min(sum.saturating_add(insts_leaves(module, counts, block.insts.as_slice())));
    }
    sum
}

fn functions_leaves(module: &Module, counts: &Counts) -> u64
    ensures { result ≡ min cap (sum_by (leaves_of_function «module».now.globals (known counts.now)) «module».now.functions) }
{
    let mut sum: u64 = 0;
    for function in module.functions() {
        sum = CAP.min(sum.saturating_add(function_leaves(module, counts, function)));
    }
    sum
}

#[tactic(auto, using(crate::proofs::Counts::module_same))]
fn total(module: &Module, counts: &Counts) -> u64
    requires { AreCounted (known counts.now) (leaves_of_type «module».now.globals) }
    ensures { result ≡ min cap (leaves_of_module «module».now) }
{
    CAP.min(insts_leaves(module, counts, module.globals()) + functions_leaves(module, counts))
}

/// The limit on leaves: the scalars of the types of all composite constants and undefined values,
/// of all Function and Private variables, and of all results of OpCopyLogical.
pub fn check_leaves(alloc: Global, module: &Module) -> Result<(), Fault>
    ensures passes { OnOk result (leaves_of_module «module».now ≤ limit_number Leaves) }
    ensures refused { IfErr result (IsOver «module».now) }
{
    let counts = type_leaves(alloc, module)?;
    if total(module, &counts) < CAP {
        Ok(())
    } else {
        Err(Fault::Limit(Limit::Leaves))
    }
}

// Questions about the mentions of a value.
ghost use Rattle.std.specs.Prelude.{◌≡◌, ◌+◌, slice_index};
ghost use Rattle.std.specs.Option.{option_copied};
ghost use Rattle.hoist_plan.specs.Plan.{user as user_of, mention_block as mention_block_of, is_elsewhere_by, is_elsewhere as is_elsewhere_in, has_type as has_type_in, is_value as is_value_in, is_always_named as is_always_named_opcode, is_named_other as is_named_other_opcode, is_by_component as is_by_component_opcode, is_repeating as is_repeating_opcode, is_vector_choice as is_vector_choice_of, repeats_operands as repeats_operands_of, wants_by as wants_by_of, wants_variable as wants_variable_in, is_vector as is_vector_type, is_absolute as is_absolute_inst, is_sabs as is_sabs_of};

use op_semantics::{Operation, Unary, extended_operation_of};
use spv_index::{Locals, type_in};
use spv_module::{Function, Id, Inst, Module};
use spv_ops::{Op, OpGroup};
use use_chains::{BASE, SlotPlace};

/// The instruction that mentions a value at a place.
pub fn user(f: &Function, at: SlotPlace) -> Option<&Inst>
    ensures { option_copied result ≡ user_of f.now at }
{
    let block = f.blocks.as_slice().get(at.block as usize)?;
    block.insts.as_slice().get(at.inst as usize)
}

/// The label that stands behind a value of an OpPhi, 0 where there is none.
fn label_behind(inst: &Inst, k: usize) -> u32
    ensures { result ≡ slice_index inst.now.args (k + 1) }
{
    let args = inst.args.as_slice();
    if k < args.len() {
        args.get(k + 1).copied().unwrap_or(0)
    } else {
        0
    }
}

/// The index of the block in which an instruction mentions a value: an OpPhi does so in the block from
/// which the value comes (SPIR-V 1.6, "Control-Flow Instructions").
fn mention_block(locals: &Locals, at: SlotPlace, inst: &Inst) -> usize
    ensures { result ≡ mention_block_of locals.now at inst.now }
{
    if inst.op == Op::Phi {
        locals
            .block(label_behind(inst, at.arg as usize))
            .unwrap_or(at.block as usize)
    } else {
        at.block as usize
    }
}

/// Whether an instruction mentions a value in another block than this.
pub fn stands_elsewhere(locals: &Locals, block: usize, at: SlotPlace, inst: &Inst) -> bool
    ensures { result ≡ is_elsewhere_by locals.now block at inst.now }
{
    mention_block(locals, at, inst) != block
}

/// Whether a value is mentioned at a place that stands in another block than this.
pub fn is_elsewhere(locals: &Locals, block: usize, at: SlotPlace) -> bool
    ensures { result ≡ is_elsewhere_in locals.now block at }
{
    match user(locals.function(), at) {
        Some(inst) => stands_elsewhere(locals, block, at, inst),
        None => false,
    }
}

/// Whether a type is declared by this opcode.
fn has_type(module: &Module, op: Op, ty: u32) -> bool
    ensures { result ≡ has_type_in «module».now.globals op ty }
{
    module.global(Id(ty)).map_or(false, |inst| inst.op == op)
}

/// Whether a result of a type is a value, and no pointer.
pub fn is_value(module: &Module, ty: u32) -> bool
    ensures { result ≡ is_value_in «module».now.globals ty }
{
    match module.global(Id(ty)) {
        Some(inst) => !(inst.op == Op::TypeVoid || inst.op == Op::TypePointer),
        None => true,
    }
}

/// Operations whose results have variables, beside the atomic instructions.
fn is_named_other(op: Op) -> bool
    ensures { result ≡ is_named_other_opcode op }
{
    matches!(
        op,
        Op::Phi | Op::Load | Op::FunctionCall | Op::VectorInsertDynamic | Op::CompositeInsert
    )
}

/// Operations whose results have variables wherever they are live.
pub fn is_always_named(op: Op) -> bool
    ensures { result ≡ is_always_named_opcode op }
{
    op.is_atomic() || is_named_other(op)
}

/// Operations that are written component by component on vectors.
fn is_by_component(op: Op) -> bool
    ensures { result ≡ is_by_component_opcode op }
{
    matches!(
        op.group(),
        OpGroup::Comparison
            | OpGroup::Logical
            | OpGroup::BitFieldInsert
            | OpGroup::BitFieldExtract
            | OpGroup::BitOperation
            | OpGroup::Extended
    )
}

/// Operations that write an operand more than once, on scalars too.
fn is_repeating(op: Op) -> bool
    ensures { result ≡ is_repeating_opcode op }
{
    matches!(
        op,
        Op::SDiv | Op::SRem | Op::SMod | Op::VectorShuffle | Op::CopyLogical
    )
}

fn is_vector(module: &Module, ty: u32) -> bool
    ensures { result ≡ is_vector_type «module».now.globals ty }
{
    has_type(module, Op::TypeVector, ty)
}

/// OpSelect by a vector of bools.
fn is_vector_choice(module: &Module, locals: &Locals, inst: &Inst) -> bool
    ensures { result ≡ is_vector_choice_of «module».now.globals locals.now inst.now }
{
    inst.op == Op::Select
        && match type_in(module, locals, inst.operand(0)) {
            Some(ty) => is_vector(module, ty),
            None => false,
        }
}

fn is_sabs(operation: Option<Operation>) -> bool
    ensures { result ≡ is_sabs_of operation }
{
    matches!(operation, Some(Operation::Unary(Unary::SAbs)))
}

/// SAbs of GLSL.std.450.
fn is_absolute(inst: &Inst) -> bool
    ensures { result ≡ is_absolute_inst inst.now }
{
    inst.op == Op::ExtInst && is_sabs(extended_operation_of(inst.operand(1)))
}

/// Whether operands stand more than once in the expression of an instruction.
fn repeats_operands(module: &Module, locals: &Locals, inst: &Inst) -> bool
    ensures { result ≡ repeats_operands_of «module».now.globals locals.now inst.now }
{
    is_repeating(inst.op)
        || is_absolute(inst)
        || is_vector(module, inst.ty)
            && (is_by_component(inst.op) || is_vector_choice(module, locals, inst))
}

/// Whether an instruction asks for a variable of what it mentions.
fn wants_by(module: &Module, locals: &Locals, block: usize, at: SlotPlace, inst: &Inst) -> bool
    ensures { result ≡ wants_by_of «module».now.globals locals.now block at inst.now }
{
    stands_elsewhere(locals, block, at, inst)
        || inst.op == Op::Phi
        || inst.op.is_chain() && at.arg != BASE
        || repeats_operands(module, locals, inst)
}

/// Whether the mention at a place asks for a variable.
pub fn wants_variable(module: &Module, locals: &Locals, block: usize, at: SlotPlace) -> bool
    ensures { result ≡ wants_variable_in «module».now.globals locals.now block at }
{
    match user(locals.function(), at) {
        Some(inst) => wants_by(module, locals, block, at, inst),
        None => false,
    }
}

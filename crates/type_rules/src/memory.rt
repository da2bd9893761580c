// The types of loads, stores and chains of indexes.
ghost use Rattle.std.specs.Prelude.{◌≡◌, option_and_then};
ghost use Rattle.profile_rules.specs.ValueRules.{breaks_t4, breaks_t5, breaks_t6, breaks_t7, further as further_by, chain_step as step_by, chain_part as part_by, member_by as member_with, chain_end as chain_end_of, leads_elsewhere as leads_to_other, is_other_pointer as is_another_pointer, is_block_variable as is_block, lacks_array as lacks_array_at, is_no_array_block as is_no_block, is_no_array_id as is_no_id, nth_member as nth_member_of};
ghost use Rattle.std.specs.Option.{option_copied};
ghost use Rattle.spv_index.specs.Pointers.{storage_class, pointee};
ghost use Rattle.profile_rules.specs.TypeRows.{type_row};
ghost use Rattle.type_rules.specs.Scopes.{types};

use crate::atomics::{is_no_content, points_to_other};
use crate::numbers::{behind, has_no_int, is_not};
use crate::scope::Scope;
use profile_rules::Reached;
use spv_module::Inst;
use spv_ops::{Op, StorageClass};

/// T4: OpLoad.
pub fn is_load_broken(scope: &Scope, inst: &Inst) -> bool
    ensures { result ≡ breaks_t4 scope.now.m.heads scope.now.m.globals (types scope.now) inst.now }
{
    scope.is_no_value_type(inst.ty) || points_to_other(scope, inst.operand(0), inst.ty)
}

/// T5: OpStore.
pub fn is_store_broken(scope: &Scope, inst: &Inst) -> bool
    ensures { result ≡ breaks_t5 scope.now.m.heads scope.now.m.globals (types scope.now) inst.now }
{
    let is_no_value = match scope.pointee_of(inst.operand(0)) {
        Some(ty) => scope.is_no_value_type(ty),
        None => false,
    };
    is_no_value || is_no_content(scope, inst.operand(0), inst.operand(1))
}

/// Member k of a struct.
pub fn nth_member(row: &Inst, k: u32) -> Reached
    ensures { result ≡ nth_member_of row.now k }
{
    if (k as usize) < row.args.len() {
        Reached::Part(row.operand(k as usize))
    } else {
        Reached::Nothing
    }
}

/// The member of a struct whose number is an OpConstant.
fn member_by(scope: &Scope, row: &Inst, id: u32) -> Reached
    ensures { result ≡ member_with scope.now.m.globals (types scope.now) row.now id }
{
    match scope.constant_word(id) {
        Some(k) => nth_member(row, k),
        None => match scope.type_of(id) {
            Some(_) => Reached::Nothing,
            None => Reached::Unknown,
        },
    }
}

/// The part of a type to which an index leads.
fn chain_part(scope: &Scope, row: &Inst, id: u32) -> Reached
    ensures { result ≡ part_by scope.now.m.globals (types scope.now) row.now id }
{
    if row.op == Op::TypeStruct {
        member_by(scope, row, id)
    } else if row.op == Op::TypeVector
        || row.op == Op::TypeArray
        || row.op == Op::TypeRuntimeArray
    {
        Reached::Part(row.operand(0))
    } else {
        Reached::Nothing
    }
}

/// What one more index leads to.
fn further(scope: &Scope, reached: Reached, id: u32) -> Reached
    ensures { result ≡ further_by (step_by scope.now.m.globals (types scope.now)) reached id }
{
    let Reached::Part(ty) = reached else {
        return reached;
    };
    match scope.type_row(ty) {
        Some(row) => chain_part(scope, row, id),
        None => Reached::Unknown,
    }
}

/// What a chain leads to.
fn chain_end(scope: &Scope, inst: &Inst) -> Reached
    ensures { result ≡ chain_end_of scope.now.m.globals (types scope.now) inst.now }
{
    let start = match scope.pointee_of(inst.operand(0)) {
        Some(ty) => Reached::Part(ty),
        None => Reached::Unknown,
    };
    behind(inst, 1)
        .iter()
        .fold(start, |reached, id| further(scope, reached, *id))
}

/// Whether a pointer type is of another storage class, or points to another type than the part.
fn is_other_pointer(scope: &Scope, ty: u32, class: Option<u32>, part: u32) -> bool
    ensures { result ≡ is_another_pointer scope.now.m.globals ty class part }
{
    scope.fails(Op::TypePointer, ty)
        || match class {
            Some(class) => is_not(class, scope.storage_class(ty)),
            None => false,
        }
        || match scope.pointee(ty) {
            Some(pointee) => scope.differ(part, pointee),
            None => false,
        }
}

/// Whether a pointer type does not point to what was reached.
fn leads_elsewhere(scope: &Scope, ty: u32, class: Option<u32>, reached: Reached) -> bool
    ensures { result ≡ leads_to_other scope.now.m.globals ty class reached }
{
    match reached {
        Reached::Part(part) => is_other_pointer(scope, ty, class, part),
        Reached::Nothing => true,
        Reached::Unknown => false,
    }
}

/// The storage class of the pointer with this id.
fn class_of(scope: &Scope, id: u32) -> Option<u32>
    ensures { result ≡ option_and_then (storage_class scope.now.m.globals) (types scope.now id) }
{
    scope.storage_class(scope.type_of(id)?)
}

/// T6: OpAccessChain, OpInBoundsAccessChain.
pub fn is_chain_broken(scope: &Scope, inst: &Inst) -> bool
    ensures { result ≡ breaks_t6 scope.now.m.globals (types scope.now) inst.now }
{
    let base = inst.operand(0);
    scope.value_fails(Op::TypePointer, base)
        || has_no_int(scope, behind(inst, 1))
        || leads_elsewhere(
            scope,
            inst.ty,
            class_of(scope, base),
            chain_end(scope, inst),
        )
}

/// Whether this is a variable of class Uniform, PushConstant or StorageBuffer.
fn is_block_variable(inst: &Inst) -> bool
    ensures { result ≡ is_block inst.now }
{
    inst.op == Op::Variable
        && (inst.operand(0) == StorageClass::Uniform.number()
            || inst.operand(0) == StorageClass::PushConstant.number()
            || inst.operand(0) == StorageClass::StorageBuffer.number())
}

/// Whether a type is no struct with a runtime array as this member.
fn lacks_array(scope: &Scope, member: u32, row: &Inst) -> bool
    ensures { result ≡ lacks_array_at scope.now.m.globals member row.now }
{
    row.op != Op::TypeStruct
        || member as usize >= row.args.len()
        || scope.fails(Op::TypeRuntimeArray, row.operand(member as usize))
}

/// The type to which a variable points.
fn pointee_row<'a>(scope: &Scope<'a, '_>, variable: &Inst) -> Option<&'a Inst>
    ensures { option_copied result ≡ option_and_then (type_row scope.now.m.globals) (pointee scope.now.m.globals variable.now.ty) }
{
    scope.type_row(scope.pointee(variable.ty)?)
}

/// Whether a global is no block variable with a runtime array as this member.
fn is_no_array_block(scope: &Scope, member: u32, global: &Inst) -> bool
    ensures { result ≡ is_no_block scope.now.m.globals member global.now }
{
    !is_block_variable(global)
        || match pointee_row(scope, global) {
            Some(row) => lacks_array(scope, member, row),
            None => false,
        }
}

/// Whether an id is of something else than such a global.
fn is_no_array_id(scope: &Scope, member: u32, id: u32) -> bool
    ensures { result ≡ is_no_id scope.now.m.globals member id }
{
    match scope.global(id) {
        Some(global) => is_no_array_block(scope, member, global),
        None => true,
    }
}

/// T7: OpArrayLength. An id of no known type breaks T1 alone.
pub fn is_array_length_broken(scope: &Scope, inst: &Inst) -> bool
    ensures { result ≡ breaks_t7 scope.now.m.globals (types scope.now) inst.now }
{
    let pointer = inst.operand(0);
    scope.is_no_uint(inst.ty)
        || scope.type_of(pointer).is_some() && is_no_array_id(scope, inst.operand(1), pointer)
}

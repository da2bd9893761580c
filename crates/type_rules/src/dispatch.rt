// Each instruction against the rule of its group.
ghost use Rattle.std.specs.Prelude.{◌≡◌, IfOk};
ghost use Rattle.profile_rules.specs.TypeRules.{rule_of as rule_in, rule_at_end as rule_at_end_of, breaks_t25, is_value_broken as is_value_at_fault, is_number_broken as is_number_at_fault};
ghost use Rattle.type_rules.specs.Scopes.{types};
ghost use Rattle.type_rules.specs.Matches.{AreKnown};

use crate::atomics::{
    is_atomic_exchange_broken, is_atomic_load_broken, is_atomic_store_broken,
    is_atomic_update_broken, is_barrier_broken,
};
use crate::composites::{
    is_composite_broken, is_constant_broken, is_construct_broken, is_copy_broken,
    is_number_broken as is_number_constant_broken, is_truth_broken, is_undef_broken,
};
use crate::matching::{Known, is_copy_logical_broken};
use crate::memory::{is_array_length_broken, is_chain_broken, is_load_broken, is_store_broken};
use crate::numbers::{
    is_any_or_all_broken, is_arithmetic_broken, is_bit_operation_broken, is_bitcast_broken,
    is_comparison_broken, is_extended_broken, is_logical_broken,
};
use crate::parts::{is_extract_broken, is_insert_broken};
use crate::scope::Scope;
use crate::select::is_select_broken;
use crate::vectors::{is_extract_dynamic_broken, is_insert_dynamic_broken, is_shuffle_broken};
use spv_module::Inst;
use spv_ops::{AtomicOp, OpGroup, Terminator};
use spv_words::{Memory, Rule};

/// The rule of a terminator.
fn rule_at_end(terminator: Terminator) -> Rule
    ensures { result ≡ rule_at_end_of terminator }
{
    match terminator {
        Terminator::BranchConditional | Terminator::Switch => Rule::T23,
        Terminator::Return | Terminator::ReturnValue => Rule::T24,
        Terminator::Branch | Terminator::Unreachable => Rule::T1,
    }
}

/// The rule of a group.
pub fn rule_of(group: OpGroup) -> Rule
    ensures { result ≡ rule_in group }
{
    match group {
        OpGroup::Truth | OpGroup::Number | OpGroup::Composite | OpGroup::AnyConstant => Rule::T2,
        OpGroup::Undef | OpGroup::CopyObject => Rule::T3,
        OpGroup::Load => Rule::T4,
        OpGroup::Store => Rule::T5,
        OpGroup::Chain => Rule::T6,
        OpGroup::ArrayLength => Rule::T7,
        OpGroup::VectorExtractDynamic | OpGroup::VectorInsertDynamic => Rule::T8,
        OpGroup::VectorShuffle => Rule::T9,
        OpGroup::CompositeConstruct => Rule::T10,
        OpGroup::CompositeExtract | OpGroup::CompositeInsert => Rule::T11,
        OpGroup::CopyLogical => Rule::T12,
        OpGroup::Arithmetic => Rule::T13,
        OpGroup::Comparison => Rule::T14,
        OpGroup::Logical => Rule::T15,
        OpGroup::AnyOrAll => Rule::T16,
        OpGroup::Select => Rule::T17,
        OpGroup::BitFieldInsert | OpGroup::BitFieldExtract | OpGroup::BitOperation => Rule::T18,
        OpGroup::Bitcast => Rule::T19,
        OpGroup::Extended => Rule::T20,
        OpGroup::Atomic(_) | OpGroup::ControlBarrier | OpGroup::MemoryBarrier => Rule::T25,
        OpGroup::Call => Rule::T21,
        OpGroup::Phi => Rule::T22,
        OpGroup::Terminator(terminator) => rule_at_end(terminator),
        // nothing is asked but that the operands are there
        OpGroup::Debug
        | OpGroup::Head
        | OpGroup::Type
        | OpGroup::Function
        | OpGroup::Variable
        | OpGroup::Merge => Rule::T1,
    }
}

/// T2 to T12.
#[inline(always)]
pub fn is_value_broken(
    known: &mut Known,
    scope: &Scope,
    inst: &Inst,
    group: OpGroup,
) -> Result<bool, Memory>
    requires { AreKnown scope.now.m.globals known.old }
    ensures value { IfOk result (λ b. b ≡ is_value_at_fault scope.now.m (types scope.now) inst.now group) }
    ensures known { AreKnown scope.now.m.globals known.new }
{
    match group {
        OpGroup::Truth => Ok(is_truth_broken(scope, inst)),
        OpGroup::Number => Ok(is_number_constant_broken(scope, inst)),
        OpGroup::Composite => Ok(is_composite_broken(scope, inst)),
        OpGroup::AnyConstant => Ok(is_constant_broken(scope, inst)),
        OpGroup::Undef => Ok(is_undef_broken(scope, inst)),
        OpGroup::CopyObject => Ok(is_copy_broken(scope, inst)),
        OpGroup::Load => Ok(is_load_broken(scope, inst)),
        OpGroup::Store => Ok(is_store_broken(scope, inst)),
        OpGroup::Chain => Ok(is_chain_broken(scope, inst)),
        OpGroup::ArrayLength => Ok(is_array_length_broken(scope, inst)),
        OpGroup::VectorExtractDynamic => Ok(is_extract_dynamic_broken(scope, inst)),
        OpGroup::VectorInsertDynamic => Ok(is_insert_dynamic_broken(scope, inst)),
        OpGroup::VectorShuffle => Ok(is_shuffle_broken(scope, inst)),
        OpGroup::CompositeConstruct => Ok(is_construct_broken(scope, inst)),
        OpGroup::CompositeExtract => Ok(is_extract_broken(scope, inst)),
        OpGroup::CompositeInsert => Ok(is_insert_broken(scope, inst)),
        OpGroup::CopyLogical => is_copy_logical_broken(known, scope, inst),
        _ => Ok(false),
    }
}

/// T25 of atomic instructions.
fn is_atomic_broken(scope: &Scope, inst: &Inst, op: AtomicOp) -> bool
    ensures { result ≡ breaks_t25 scope.now.m.globals (types scope.now) inst.now op }
{
    match op {
        AtomicOp::Load | AtomicOp::IIncrement | AtomicOp::IDecrement => {
            is_atomic_load_broken(scope, inst)
        }
        AtomicOp::Store => is_atomic_store_broken(scope, inst),
        AtomicOp::CompareExchange => is_atomic_exchange_broken(scope, inst),
        AtomicOp::Exchange
        | AtomicOp::IAdd
        | AtomicOp::ISub
        | AtomicOp::SMin
        | AtomicOp::UMin
        | AtomicOp::SMax
        | AtomicOp::UMax
        | AtomicOp::And
        | AtomicOp::Or
        | AtomicOp::Xor => is_atomic_update_broken(scope, inst),
    }
}

/// T13 to T20, and T25.
#[inline(always)]
pub fn is_number_broken(scope: &Scope, inst: &Inst, group: OpGroup) -> bool
    ensures { result ≡ is_number_at_fault scope.now.m.globals (types scope.now) inst.now group }
{
    match group {
        OpGroup::Arithmetic => is_arithmetic_broken(scope, inst),
        OpGroup::Comparison => is_comparison_broken(scope, inst),
        OpGroup::Logical => is_logical_broken(scope, inst),
        OpGroup::AnyOrAll => is_any_or_all_broken(scope, inst),
        OpGroup::Select => is_select_broken(scope, inst),
        OpGroup::BitFieldInsert => is_bit_operation_broken(scope, 2, inst),
        OpGroup::BitFieldExtract | OpGroup::BitOperation => is_bit_operation_broken(scope, 1, inst),
        OpGroup::Bitcast => is_bitcast_broken(scope, inst),
        OpGroup::Extended => is_extended_broken(scope, inst),
        OpGroup::Atomic(op) => is_atomic_broken(scope, inst, op),
        OpGroup::ControlBarrier | OpGroup::MemoryBarrier => is_barrier_broken(scope, inst),
        _ => false,
    }
}

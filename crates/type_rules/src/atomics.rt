// The types of atomics and barriers.
ghost use Rattle.std.specs.Prelude.{◌≡◌};
ghost use Rattle.profile_rules.specs.NumberRules.{points_to_other as points_elsewhere, is_no_content as is_other_content, breaks_t25_load, breaks_t25_store, breaks_t25_update, breaks_t25_exchange, breaks_t25_barrier};
ghost use Rattle.type_rules.specs.Scopes.{types};

use crate::numbers::{behind, front, has_no_int};
use crate::scope::Scope;
use spv_module::Inst;
use spv_ops::Op;

/// Whether a value does not point to this type.
#[inline(always)]
pub fn points_to_other(scope: &Scope, pointer: u32, ty: u32) -> bool
    ensures { result ≡ points_elsewhere scope.now.m.globals (types scope.now) pointer ty }
{
    scope.value_fails(Op::TypePointer, pointer)
        || match scope.pointee_of(pointer) {
            Some(pointee) => scope.differ(pointee, ty),
            None => false,
        }
}

/// Whether a value is not of the type to which a pointer points.
#[inline(always)]
#[tactic(auto, using(crate::proofs::Contents::content_rules))]
pub fn is_no_content(scope: &Scope, pointer: u32, id: u32) -> bool
    ensures { result ≡ is_other_content scope.now.m.globals (types scope.now) pointer id }
{
    match scope.type_of(id) {
        Some(ty) => points_to_other(scope, pointer, ty),
        None => scope.value_fails(Op::TypePointer, pointer),
    }
}

/// T25: OpAtomicLoad, OpAtomicIIncrement, OpAtomicIDecrement.
pub fn is_atomic_load_broken(scope: &Scope, inst: &Inst) -> bool
    ensures { result ≡ breaks_t25_load scope.now.m.globals (types scope.now) inst.now }
{
    points_to_other(scope, inst.operand(0), inst.ty) || has_no_int(scope, front(behind(inst, 1), 2))
}

/// T25: OpAtomicStore.
pub fn is_atomic_store_broken(scope: &Scope, inst: &Inst) -> bool
    ensures { result ≡ breaks_t25_store scope.now.m.globals (types scope.now) inst.now }
{
    is_no_content(scope, inst.operand(0), inst.operand(3))
        || has_no_int(scope, front(behind(inst, 1), 2))
}

/// T25: OpAtomicExchange, OpAtomicIAdd to OpAtomicXor.
pub fn is_atomic_update_broken(scope: &Scope, inst: &Inst) -> bool
    ensures { result ≡ breaks_t25_update scope.now.m.globals (types scope.now) inst.now }
{
    is_atomic_load_broken(scope, inst) || is_no_content(scope, inst.operand(0), inst.operand(3))
}

/// T25: OpAtomicCompareExchange.
pub fn is_atomic_exchange_broken(scope: &Scope, inst: &Inst) -> bool
    ensures { result ≡ breaks_t25_exchange scope.now.m.globals (types scope.now) inst.now }
{
    points_to_other(scope, inst.operand(0), inst.ty)
        || has_no_int(scope, front(behind(inst, 1), 3))
        || is_no_content(scope, inst.operand(0), inst.operand(4))
        || is_no_content(scope, inst.operand(0), inst.operand(5))
}

/// T25: OpControlBarrier, OpMemoryBarrier.
pub fn is_barrier_broken(scope: &Scope, inst: &Inst) -> bool
    ensures { result ≡ breaks_t25_barrier scope.now.m.globals (types scope.now) inst.now }
{
    has_no_int(scope, inst.args.as_slice())
}

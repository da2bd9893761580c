// The types of OpSelect.
ghost use Rattle.std.specs.Prelude.{◌≡◌};
ghost use Rattle.profile_rules.specs.NumberRules.{has_other_size as has_another_size, is_no_condition as is_none, breaks_t17};
ghost use Rattle.type_rules.specs.Scopes.{types};

use crate::numbers::is_not;
use crate::scope::{NO_SCALAR, Scope};
use spv_module::Inst;
use spv_ops::Op;

fn has_other_size(scope: &Scope, ty: u32, n: u32) -> bool
    ensures { result ≡ has_another_size scope.now.m.globals ty n }
{
    scope.fails(Op::TypeVector, ty) || is_not(n, scope.size(ty))
}

/// Whether a condition is neither a bool nor a vector of as many bools as the result has components.
fn is_no_condition(scope: &Scope, ty: u32, condition: u32) -> bool
    ensures { result ≡ is_none scope.now.m.globals ty condition }
{
    match scope.count(Op::TypeBool, condition) {
        Some(n) => n == NO_SCALAR
            || (scope.fails(Op::TypeBool, condition) && has_other_size(scope, ty, n)),
        None => false,
    }
}

/// T17: OpSelect.
pub fn is_select_broken(scope: &Scope, inst: &Inst) -> bool
    ensures { result ≡ breaks_t17 scope.now.m.globals (types scope.now) inst.now }
{
    scope.is_void(inst.ty)
        || scope.is_other(inst.ty, inst.operand(1))
        || scope.is_other(inst.ty, inst.operand(2))
        || match scope.type_of(inst.operand(0)) {
            Some(ty) => is_no_condition(scope, inst.ty, ty),
            None => false,
        }
}

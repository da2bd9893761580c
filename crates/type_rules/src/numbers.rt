// The types of operations on numbers and truth values.
ghost use Rattle.std.specs.Prelude.{◌≡◌, Some, take, drop};
ghost use Rattle.profile_rules.specs.TypeRows.{is_not as is_not_number};
ghost use Rattle.profile_rules.specs.NumberRules.{are_unlike_ints as are_unlike, breaks_t13, breaks_t14, breaks_t15, breaks_t16, breaks_t18, breaks_t19, breaks_t20, is_no_bool_vector as is_none, is_extended as is_extended_in, has_no_int as has_none_int};
ghost use Rattle.type_rules.specs.Scopes.{types, scalars, scalars_of};
ghost use Rattle.std.specs.List.{list_any};

use crate::scope::{NO_SCALAR, Scope};
use spv_module::Inst;
use spv_ops::Op;

/// Whether a number is known, and is not n.
pub fn is_not(n: u32, number: Option<u32>) -> bool
    ensures { result ≡ is_not_number n number }
{
    match number {
        Some(m) => m != n,
        None => false,
    }
}

/// The operand words from k on.
pub fn behind(inst: &Inst, k: usize) -> &[u32]
    ensures { result.now ≡ drop k inst.now.args }
{
    inst.args.as_slice().get(k..).unwrap_or(&[])
}

/// The first k of these words.
pub fn front(words: &[u32], k: usize) -> &[u32]
    ensures { result.now ≡ take k words.now }
{
    words.get(..k).unwrap_or(words)
}

/// Whether a value is not made of n scalars that this opcode declares.
fn has_other_count(scope: &Scope, op: Op, n: u32, ids: &[u32]) -> bool
    ensures { result ≡ list_any (λ id. is_not_number n (scalars_of op scope.now id)) ids.now }
{
    ids.iter().any(|id| is_not(n, scope.count_of(op, *id)))
}

/// Whether a value is not made of n scalars that this opcode declares, as those of a known type are.
fn is_other_count(scope: &Scope, op: Op, n: u32, like: u32, id: u32) -> bool
    requires { scalars op scope.now like ≡ Some n }
    ensures { result ≡ is_not_number n (scalars_of op scope.now id) }
{
    match scope.type_of(id) {
        Some(ty) => ty != like && is_not(n, scope.count(op, ty)),
        None => false,
    }
}

/// Whether one of these is not made of n scalars that this opcode declares, as those of a known type are.
#[inline(always)]
fn has_count_unlike(scope: &Scope, op: Op, n: u32, like: u32, ids: &[u32]) -> bool
    requires { scalars op scope.now like ≡ Some n }
    ensures { result ≡ list_any (λ id. is_not_number n (scalars_of op scope.now id)) ids.now }
{
    ids.iter().any(|id| is_other_count(scope, op, n, like, *id))
}

/// Whether a value is no int scalar.
pub fn has_no_int(scope: &Scope, ids: &[u32]) -> bool
    ensures { result ≡ has_none_int scope.now.m.globals (types scope.now) ids.now }
{
    ids.iter().any(|id| scope.value_fails(Op::TypeInt, *id))
}

/// Whether a result is no int, or a value is no int with as many components.
#[inline(always)]
fn are_unlike_ints(scope: &Scope, ty: u32, ids: &[u32]) -> bool
    ensures { result ≡ are_unlike scope.now.m.globals (types scope.now) ty ids.now }
{
    match scope.count(Op::TypeInt, ty) {
        Some(n) => n == NO_SCALAR || has_count_unlike(scope, Op::TypeInt, n, ty, ids),
        None => false,
    }
}

/// T13: arithmetic, shifts and bitwise operations.
pub fn is_arithmetic_broken(scope: &Scope, inst: &Inst) -> bool
    ensures { result ≡ breaks_t13 scope.now.m.globals (types scope.now) inst.now }
{
    are_unlike_ints(scope, inst.ty, inst.args.as_slice())
}

/// T14: comparisons.
pub fn is_comparison_broken(scope: &Scope, inst: &Inst) -> bool
    ensures { result ≡ breaks_t14 scope.now.m.globals (types scope.now) inst.now }
{
    match scope.count(Op::TypeBool, inst.ty) {
        Some(n) => n == NO_SCALAR || has_other_count(scope, Op::TypeInt, n, inst.args.as_slice()),
        None => false,
    }
}

/// T15: logical operations.
pub fn is_logical_broken(scope: &Scope, inst: &Inst) -> bool
    ensures { result ≡ breaks_t15 scope.now.m.globals (types scope.now) inst.now }
{
    match scope.count(Op::TypeBool, inst.ty) {
        Some(n) => n == NO_SCALAR
            || has_count_unlike(scope, Op::TypeBool, n, inst.ty, inst.args.as_slice()),
        None => false,
    }
}

fn is_no_bool_vector(scope: &Scope, id: u32) -> bool
    ensures { result ≡ is_none scope.now.m.globals (types scope.now) id }
{
    scope.value_fails(Op::TypeVector, id) || scope.count_of(Op::TypeBool, id) == Some(NO_SCALAR)
}

/// T16: OpAny and OpAll.
pub fn is_any_or_all_broken(scope: &Scope, inst: &Inst) -> bool
    ensures { result ≡ breaks_t16 scope.now.m.globals (types scope.now) inst.now }
{
    scope.fails(Op::TypeBool, inst.ty) || is_no_bool_vector(scope, inst.operand(0))
}

/// T18: bit operations, of which the first so many operands are like the result.
pub fn is_bit_operation_broken(scope: &Scope, numbers: usize, inst: &Inst) -> bool
    ensures { result ≡ breaks_t18 numbers scope.now.m.globals (types scope.now) inst.now }
{
    are_unlike_ints(scope, inst.ty, front(inst.args.as_slice(), numbers))
        || has_no_int(scope, behind(inst, numbers))
}

/// T19: OpBitcast.
pub fn is_bitcast_broken(scope: &Scope, inst: &Inst) -> bool
    ensures { result ≡ breaks_t19 scope.now.m.globals (types scope.now) inst.now }
{
    are_unlike_ints(scope, inst.ty, inst.args.as_slice())
}

// SAbs, SSign; UMin, SMin, UMax, SMax; UClamp, SClamp; FindILsb, FindSMsb, FindUMsb of
// GLSL.std.450, with how many operands each has.
static EXTENDED: [(u32, usize); 11] = [
    (5, 1),
    (7, 1),
    (38, 2),
    (39, 2),
    (41, 2),
    (42, 2),
    (44, 3),
    (45, 3),
    (73, 1),
    (74, 1),
    (75, 1),
];

fn is_extended(number: u32, count: usize) -> bool
    ensures { result ≡ is_extended_in number count }
{
    EXTENDED.iter().any(|row| row.0 == number && row.1 == count)
}

/// T20: OpExtInst.
pub fn is_extended_broken(scope: &Scope, inst: &Inst) -> bool
    ensures { result ≡ breaks_t20 scope.now.m.globals (types scope.now) inst.now }
{
    let operands = behind(inst, 2);
    !is_extended(inst.operand(1), operands.len()) || are_unlike_ints(scope, inst.ty, operands)
}

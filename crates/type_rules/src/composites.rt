// The types of constants and of composites' parts.
ghost use Rattle.std.specs.Prelude.{◌≡◌, ◌==◌, is_some, sum_by};
ghost use Rattle.std.specs.List.{list_any, list_all, zip};
ghost use Rattle.profile_rules.specs.ValueRules.{are_other_parts as are_others, are_other_members as are_others_of, misfit as is_misfit, breaks_t2, breaks_t2_truth, breaks_t2_number, breaks_t2_composite, breaks_t3_undef, breaks_t3_copy, breaks_t10, given as given_components, given_by as given_components_by, gives_none as gives_no_component, given_or_zero as given_or_none, is_other_count as are_not_as_many, is_misbuilt as is_misbuilt_of};
ghost use Rattle.profile_rules.specs.TypeRows.{is_other};
ghost use Rattle.type_rules.specs.Scopes.{types};

use crate::scope::Scope;
use spv_module::Inst;
use spv_ops::Op;

/// Whether one of these values is not of this type.
#[inline(always)]
pub fn has_other(scope: &Scope, ty: u32, ids: &[u32]) -> bool
    ensures { result ≡ list_any (is_other scope.now.m.globals (types scope.now) ty) ids.now }
{
    ids.iter().any(|id| scope.is_other(ty, *id))
}

/// Whether these are not n values of this type.
fn are_other_parts(scope: &Scope, n: u32, ty: u32, ids: &[u32]) -> bool
    ensures { result ≡ are_others scope.now.m.globals (types scope.now) n ty ids.now }
{
    ids.len() != n as usize || has_other(scope, ty, ids)
}

/// Whether one of these values is not of its type.
fn has_misfit(scope: &Scope, tys: &[u32], ids: &[u32]) -> bool
    ensures { result ≡ list_any (λ p. is_other scope.now.m.globals (types scope.now) p.0 p.1) (zip tys.now ids.now) }
{
    tys.iter().zip(ids).any(|(ty, id)| scope.is_other(*ty, *id))
}

/// Whether these are not values of these types, one of each.
#[inline(always)]
pub fn are_other_members(scope: &Scope, tys: &[u32], ids: &[u32]) -> bool
    ensures { result ≡ are_others_of scope.now.m.globals (types scope.now) tys.now ids.now }
{
    ids.len() != tys.len() || has_misfit(scope, tys, ids)
}

/// Whether these are not the parts of a composite of this type.
pub fn misfit(scope: &Scope, row: &Inst, ids: &[u32]) -> bool
    ensures { result ≡ is_misfit scope.now.m.globals (types scope.now) row.now ids.now }
{
    if row.op == Op::TypeVector {
        are_other_parts(scope, row.operand(1), row.operand(0), ids)
    } else if row.op == Op::TypeArray {
        match scope.constant_word(row.operand(1)) {
            Some(n) => are_other_parts(scope, n, row.operand(0), ids),
            None => false,
        }
    } else if row.op == Op::TypeStruct {
        are_other_members(scope, row.args.as_slice(), ids)
    } else {
        true
    }
}

/// T2: OpConstantTrue, OpConstantFalse, and their specialization constants.
pub fn is_truth_broken(scope: &Scope, inst: &Inst) -> bool
    ensures { result ≡ breaks_t2_truth scope.now.m.heads scope.now.m.globals inst.now }
{
    scope.is_no_value_type(inst.ty) || scope.fails(Op::TypeBool, inst.ty)
}

/// T2: OpConstant, OpSpecConstant.
pub fn is_number_broken(scope: &Scope, inst: &Inst) -> bool
    ensures { result ≡ breaks_t2_number scope.now.m.heads scope.now.m.globals inst.now }
{
    scope.is_no_value_type(inst.ty) || scope.fails(Op::TypeInt, inst.ty)
}

/// T2: OpConstantComposite, OpSpecConstantComposite.
pub fn is_composite_broken(scope: &Scope, inst: &Inst) -> bool
    ensures { result ≡ breaks_t2_composite scope.now.m.heads scope.now.m.globals (types scope.now) inst.now }
{
    scope.is_no_value_type(inst.ty)
        || match scope.type_row(inst.ty) {
            Some(row) => misfit(scope, row, inst.args.as_slice()),
            None => false,
        }
}

/// T2: OpConstantNull, OpSpecConstantOp.
pub fn is_constant_broken(scope: &Scope, inst: &Inst) -> bool
    ensures { result ≡ breaks_t2 scope.now.m.heads scope.now.m.globals inst.now }
{
    scope.is_no_value_type(inst.ty)
}

/// T3: OpUndef.
pub fn is_undef_broken(scope: &Scope, inst: &Inst) -> bool
    ensures { result ≡ breaks_t3_undef scope.now.m.heads scope.now.m.globals inst.now }
{
    scope.is_no_value_type(inst.ty)
}

/// T3: OpCopyObject.
pub fn is_copy_broken(scope: &Scope, inst: &Inst) -> bool
    ensures { result ≡ breaks_t3_copy scope.now.m.heads scope.now.m.globals (types scope.now) inst.now }
{
    scope.is_no_value_type(inst.ty) || scope.is_other(inst.ty, inst.operand(0))
}

/// How many components of a type a value gives: 0 where it is neither of that type nor a vector of
/// it.
fn given(scope: &Scope, component: u32, id: u32) -> Option<u32>
    ensures { result ≡ given_components scope.now.m.globals (types scope.now) component id }
{
    let ty = scope.type_of(id)?;
    let row = scope.type_row(ty)?;
    Some(given_by(scope, component, ty, row))
}

fn given_by(scope: &Scope, component: u32, ty: u32, row: &Inst) -> u32
    ensures { result ≡ given_components_by scope.now.m.globals component ty row.now }
{
    if row.op != Op::TypeVector {
        return if scope.differ(component, ty) { 0 } else { 1 };
    }
    if scope.differ(component, row.operand(0)) {
        0
    } else {
        row.operand(1)
    }
}

/// Whether a value is known to give no component of a type.
fn gives_none(scope: &Scope, component: u32, id: u32) -> bool
    ensures { result ≡ gives_no_component scope.now.m.globals (types scope.now) component id }
{
    given(scope, component, id) == Some(0)
}

fn has_none(scope: &Scope, component: u32, ids: &[u32]) -> bool
    ensures { result ≡ list_any (gives_no_component scope.now.m.globals (types scope.now) component) ids.now }
{
    ids.iter().any(|id| gives_none(scope, component, *id))
}

fn are_known(scope: &Scope, component: u32, ids: &[u32]) -> bool
    ensures { result ≡ list_all (λ id. is_some (given_components scope.now.m.globals (types scope.now) component id)) ids.now }
{
    ids.iter().all(|id| given(scope, component, *id).is_some())
}

fn given_or_zero(scope: &Scope, component: u32, id: u32) -> u32
    ensures { result ≡ given_or_none scope.now.m.globals (types scope.now) component id }
{
    given(scope, component, id).unwrap_or(0)
}

/// Whether the values give so many components together.
fn is_total(scope: &Scope, n: u32, component: u32, ids: &[u32]) -> bool
    ensures { result ≡ (sum_by (given_or_none scope.now.m.globals (types scope.now) component) ids.now == n) }
{
    let mut left = n;
    for id in ids {
        let number = given_or_zero(scope, component, *id);
        if number > left {
            return false;
        }
        left -= number;
    }
    left == 0
}

/// Whether these values do not give a vector of n components of a type.
fn is_other_count(scope: &Scope, n: u32, component: u32, ids: &[u32]) -> bool
    ensures { result ≡ are_not_as_many scope.now.m.globals (types scope.now) n component ids.now }
{
    has_none(scope, component, ids)
        || (are_known(scope, component, ids) && !is_total(scope, n, component, ids))
}

/// Whether these values do not make a composite of this type.
fn is_misbuilt(scope: &Scope, row: &Inst, ids: &[u32]) -> bool
    ensures { result ≡ is_misbuilt_of scope.now.m.globals (types scope.now) ids.now row.now }
{
    if row.op == Op::TypeVector {
        is_other_count(scope, row.operand(1), row.operand(0), ids)
    } else {
        misfit(scope, row, ids)
    }
}

/// T10: OpCompositeConstruct.
pub fn is_construct_broken(scope: &Scope, inst: &Inst) -> bool
    ensures { result ≡ breaks_t10 scope.now.m.globals (types scope.now) inst.now }
{
    match scope.type_row(inst.ty) {
        Some(row) => is_misbuilt(scope, row, inst.args.as_slice()),
        None => false,
    }
}

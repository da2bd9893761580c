// The types of the parts that literal indexes lead to.
ghost use Rattle.std.specs.Prelude.{◌≡◌};
ghost use Rattle.profile_rules.specs.ValueRules.{breaks_t11_extract, breaks_t11_insert, one_of as one_of_parts, literal_part as literal_part_of, literal_step as step_by, further as further_by, part_of as part_in, is_elsewhere as is_other_type, is_value_elsewhere as is_other_value};
ghost use Rattle.type_rules.specs.Scopes.{types};

use crate::memory::nth_member;
use crate::numbers::behind;
use crate::scope::Scope;
use profile_rules::Reached;
use spv_module::Inst;
use spv_ops::Op;

/// Component or element k of n.
fn one_of(n: u32, row: &Inst, k: u32) -> Reached
    ensures { result ≡ one_of_parts n row.now k }
{
    if k < n {
        Reached::Part(row.operand(0))
    } else {
        Reached::Nothing
    }
}

/// Part k of a type.
fn literal_part(scope: &Scope, row: &Inst, k: u32) -> Reached
    ensures { result ≡ literal_part_of scope.now.m.globals row.now k }
{
    if row.op == Op::TypeVector {
        one_of(row.operand(1), row, k)
    } else if row.op == Op::TypeArray {
        match scope.constant_word(row.operand(1)) {
            Some(n) => one_of(n, row, k),
            None => Reached::Unknown,
        }
    } else if row.op == Op::TypeRuntimeArray {
        Reached::Part(row.operand(0))
    } else if row.op == Op::TypeStruct {
        nth_member(row, k)
    } else {
        Reached::Nothing
    }
}

/// What one more index leads to.
fn further(scope: &Scope, reached: Reached, k: u32) -> Reached
    ensures { result ≡ further_by (step_by scope.now.m.globals) reached k }
{
    let Reached::Part(ty) = reached else {
        return reached;
    };
    match scope.type_row(ty) {
        Some(row) => literal_part(scope, row, k),
        None => Reached::Unknown,
    }
}

/// What indexes lead to in a composite, if its type is known.
#[inline(always)]
fn part_of(scope: &Scope, ty: Option<u32>, indexes: &[u32]) -> Reached
    ensures { result ≡ part_in scope.now.m.globals ty indexes.now }
{
    let start = match ty {
        Some(ty) => Reached::Part(ty),
        None => Reached::Unknown,
    };
    indexes
        .iter()
        .fold(start, |reached, k| further(scope, reached, *k))
}

/// Whether nothing was reached, or something of another type.
fn is_elsewhere(scope: &Scope, ty: u32, reached: Reached) -> bool
    ensures { result ≡ is_other_type scope.now.m.globals ty reached }
{
    match reached {
        Reached::Part(part) => scope.differ(ty, part),
        Reached::Nothing => true,
        Reached::Unknown => false,
    }
}

/// Whether nothing was reached, or something of another type than a value.
fn is_value_elsewhere(scope: &Scope, id: u32, reached: Reached) -> bool
    ensures { result ≡ is_other_value scope.now.m.globals (types scope.now) id reached }
{
    match reached {
        Reached::Part(part) => scope.is_other(part, id),
        Reached::Nothing => true,
        Reached::Unknown => false,
    }
}

/// T11: OpCompositeExtract.
pub fn is_extract_broken(scope: &Scope, inst: &Inst) -> bool
    ensures { result ≡ breaks_t11_extract scope.now.m.globals (types scope.now) inst.now }
{
    inst.args.len() <= 1
        || is_elsewhere(
            scope,
            inst.ty,
            part_of(scope, scope.type_of(inst.operand(0)), behind(inst, 1)),
        )
}

/// T11: OpCompositeInsert.
pub fn is_insert_broken(scope: &Scope, inst: &Inst) -> bool
    ensures { result ≡ breaks_t11_insert scope.now.m.globals (types scope.now) inst.now }
{
    inst.args.len() <= 2
        || scope.is_other(inst.ty, inst.operand(1))
        || is_value_elsewhere(
            scope,
            inst.operand(0),
            part_of(scope, scope.type_of(inst.operand(1)), behind(inst, 2)),
        )
}

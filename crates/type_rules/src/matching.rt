// Whether two types match part by part.
ghost use Rattle.std.specs.Prelude.{◌≡◌, ◌==◌, length, IfOk};
ghost use Rattle.std.specs.Option.{option_copied};
ghost use Rattle.std.specs.List.{list_all, zip};
ghost use Rattle.spv_types.specs.Types.{earlier};
ghost use Rattle.profile_rules.specs.ValueRules.{is_same_length as is_length_same, do_parts_match, match_before, match_at, do_match as do_types_match, breaks_t12};
ghost use Rattle.type_rules.specs.Scopes.{types};
ghost use Rattle.type_rules.specs.Matches.{AreKnown};

use crate::numbers::is_not;
use crate::scope::Scope;
use spv_module::Inst;
use spv_ops::Op;
use spv_words::Memory;
use std::alloc::AllocError;
use std::collections::BTreeMap;

/// The answers for the pairs of types that were compared, so that none is compared twice.
pub type Known = BTreeMap<(u32, u32), bool>;

/// Whether two array lengths are equal, as far as they are known.
fn is_same_length(scope: &Scope, a: u32, b: u32) -> bool
    ensures { result ≡ is_length_same scope.now.m.globals a b }
{
    match scope.constant_word(a) {
        Some(n) => !is_not(n, scope.constant_word(b)),
        None => true,
    }
}

/// The global with this id, where it stands before a word.
fn find_earlier<'a>(scope: &Scope<'a, '_>, before: u32, id: u32) -> Option<&'a Inst>
    ensures { option_copied result ≡ earlier scope.now.m.globals before id }
{
    let inst = scope.global(id)?;
    if inst.at < before { Some(inst) } else { None }
}

/// Whether a type that stands before a word matches another; one that is not known matches any.
#[cycle(matching)]
#[tactic(auto, using(crate::proofs::Matched::part_rules))]
fn match_part(
    scope: &Scope,
    before: u32,
    a: u32,
    b: u32,
    known: &mut Known,
) -> Result<bool, AllocError>
    requires { AreKnown scope.now.m.globals known.old }
    ensures value { IfOk result (λ r. r ≡ match_before scope.now.m.globals before a b) }
    ensures known { AreKnown scope.now.m.globals known.new }
{
    let Some(row) = find_earlier(scope, before, a) else {
        return Ok(true);
    };
    if let Some(answer) = known.get(&(a, b)).copied() {
        return Ok(answer);
    }
    let answer = match_row(scope, row, b, known)?;
    known.insert((a, b), answer)?;
    Ok(answer)
}

/// Whether the type that this declares matches another.
#[cycle(matching)]
fn match_row(scope: &Scope, row: &Inst, b: u32, known: &mut Known) -> Result<bool, AllocError>
    requires { AreKnown scope.now.m.globals known.old }
    ensures value { IfOk result (λ r. r ≡ match_at scope.now.m.globals row.now b) }
    ensures known { AreKnown scope.now.m.globals known.new }
{
    let Some(other) = scope.type_row(b) else {
        return Ok(true);
    };
    if row.result == b && row.op != Op::TypeVoid {
        return Ok(true);
    }
    match_parts(scope, row, other, known)
}

/// Whether the parts of two arrays or structs match.
#[cycle(matching)]
fn match_parts(
    scope: &Scope,
    row: &Inst,
    other: &Inst,
    known: &mut Known,
) -> Result<bool, AllocError>
    requires { AreKnown scope.now.m.globals known.old }
    ensures value { IfOk result (λ r. r ≡ do_parts_match scope.now.m.globals (match_before scope.now.m.globals row.now.at) row.now other.now) }
    ensures known { AreKnown scope.now.m.globals known.new }
{
    if row.op != other.op {
        return Ok(false);
    }
    if row.op == Op::TypeArray {
        if !is_same_length(scope, row.operand(1), other.operand(1)) {
            return Ok(false);
        }
        return match_part(scope, row.at, row.operand(0), other.operand(0), known);
    }
    if row.op != Op::TypeStruct || row.args.len() != other.args.len() {
        return Ok(false);
    }
    match_all(
        scope,
        row.at,
        row.args.as_slice(),
        other.args.as_slice(),
        known,
    )
}

/// Whether the members of two structs match.
#[cycle(matching)]
#[tactic(auto, using(crate::proofs::Matched::member_rules))]
fn match_all(
    scope: &Scope,
    before: u32,
    members: &[u32],
    others: &[u32],
    known: &mut Known,
) -> Result<bool, AllocError>
    requires same_number { length members.now ≡ length others.now }
    requires known { AreKnown scope.now.m.globals known.old }
    ensures value { IfOk result (λ r. r ≡ list_all (λ p. match_before scope.now.m.globals before p.0 p.1) (zip members.now others.now)) }
    ensures known { AreKnown scope.now.m.globals known.new }
{
    for (k, member) in members.iter().enumerate() {
        if !match_part(scope, before, *member, others[k], known)? {
            return Ok(false);
        }
    }
    Ok(true)
}

/// Whether two types match part by part.
fn do_match(scope: &Scope, a: u32, b: u32, known: &mut Known) -> Result<bool, AllocError>
    requires { AreKnown scope.now.m.globals known.old }
    ensures value { IfOk result (λ r. r ≡ do_types_match scope.now.m.globals a b) }
    ensures known { AreKnown scope.now.m.globals known.new }
{
    match scope.type_row(a) {
        Some(row) => match_row(scope, row, b, known),
        None => Ok(true),
    }
}

/// T12: OpCopyLogical.
pub fn is_copy_logical_broken(known: &mut Known, scope: &Scope, inst: &Inst) -> Result<bool, Memory>
    requires { AreKnown scope.now.m.globals known.old }
    ensures value { IfOk result (λ b. b ≡ breaks_t12 scope.now.m.globals (types scope.now) inst.now) }
    ensures known { AreKnown scope.now.m.globals known.new }
{
    match scope.type_of(inst.operand(0)) {
        Some(ty) => Ok(!do_match(scope, ty, inst.ty, known)?),
        None => Ok(false),
    }
}

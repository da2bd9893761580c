// What the operand ids of an instruction have to be, and where they have to stand.
ghost use Rattle.std.specs.Prelude.{◌≡◌, ◌&&◌, not, nat_lt, ℕ, false, is_some, take, IfSome};
ghost use Rattle.std.specs.Option.{option_map_or};
ghost use Rattle.std.specs.List.{list_any, enumerate_from};
ghost use Rattle.spv_ops.specs.Operands.{has_id, is_id};
ghost use Rattle.spv_module.specs.Inst.{has_type as has_type_by};
ghost use Rattle.spv_index.specs.Locals.{typed, inst_in};
ghost use Rattle.profile_rules.specs.Operands.{need as need_by, type_need as type_need_by, suits as suits_need, is_global as is_global_before, is_local as is_local_value, is_there_in as is_there_in_function, lacks_operand as lacks_operand_by, lacks};
ghost use Rattle.type_rules.specs.Scopes.{there};
ghost use Rattle.type_rules.specs.Needed.{AreNeeds, AreBelow, needs_of as needs_by, lacks_of as lacks_those};

use crate::scope::Scope;
use profile_rules::Need;
use spv_index::Locals;
use spv_module::Inst;
use spv_ops::{IdWords, Op, Takes, id_words};

/// What the first operand id of an opcode has to be, and the others; of OpPhi values and labels
/// alternate.
#[inline(always)]
#[tactic(auto, unfolding(crate::specs::Needed::needs_of))]
fn needs_of(op: Op) -> Option<(Need, Need)>
    ensures { result ≡ needs_by op }
{
    match op.takes() {
        Takes::Values => Some((Need::Value, Need::Value)),
        Takes::Types => Some((Need::AnyType, Need::AnyType)),
        Takes::TypeAndConstants => Some((Need::AnyType, Need::Constant)),
        Takes::Constants => Some((Need::Constant, Need::Constant)),
        Takes::Labels => Some((Need::Label, Need::Label)),
        Takes::ValueAndLabels => Some((Need::Value, Need::Label)),
        Takes::ValuesWithLabels => None,
        Takes::ImportAndValues => Some((Need::Import, Need::Value)),
        Takes::FunctionAndValues => Some((Need::Callee, Need::Value)),
    }
}

/// What operand k has to be where it is an id.
#[tactic(auto, using(crate::proofs::Needed::need_first, crate::proofs::Needed::need_other, crate::proofs::Needed::need_alternates))]
fn need(op: Op, k: usize) -> Need
    ensures { result ≡ need_by op k }
{
    match needs_of(op) {
        Some(needs) => if k == 0 { needs.0 } else { needs.1 },
        None => if k % 2 == 0 {
            Need::PhiValue
        } else {
            Need::Label
        },
    }
}

/// What the result type has to be: of OpVariable a pointer.
fn type_need(op: Op) -> Need
    ensures { result ≡ type_need_by op }
{
    match op {
        Op::Variable => Need::PointerType,
        _ => Need::AnyType,
    }
}

/// Whether instructions with an opcode have a result type.
fn has_type(op: Op) -> bool
    ensures { result ≡ has_type_by op }
{
    op.shape().has_type
}

/// Whether an instruction has a result type.
fn is_typed(inst: &Inst) -> bool
    ensures { result ≡ is_some (typed inst.now) }
{
    inst.ty != 0
}

/// Whether a global is what is needed.
#[inline(always)]
fn suits(need: Need, inst: &Inst) -> bool
    ensures { result ≡ suits_need need inst.now }
{
    match need {
        Need::AnyType => inst.op.is_type(),
        Need::PointerType => inst.op == Op::TypePointer,
        Need::FunctionType => inst.op == Op::TypeFunction,
        Need::Constant => inst.op.is_constant(),
        Need::Value | Need::PhiValue => is_typed(inst),
        Need::Label | Need::Callee | Need::Import => false,
    }
}

/// Whether a global before a word is what is needed.
#[inline(always)]
pub fn is_global(scope: &Scope, before: u32, need: Need, id: u32) -> bool
    ensures { result ≡ is_global_before scope.now.m.globals before need id }
{
    match scope.global(id) {
        Some(inst) => inst.at < before && suits(need, inst),
        None => false,
    }
}

/// Whether a parameter or an instruction of the function is a value.
#[inline(always)]
fn is_local(locals: &Locals, id: u32) -> bool
    ensures { result ≡ is_local_value locals.now id }
{
    match locals.parameter(id) {
        Some(_) => true,
        None => match locals.inst(id) {
            Some(inst) => is_typed(inst),
            None => false,
        },
    }
}

/// Whether an instruction of the function before a word is a value.
fn is_result_before(locals: &Locals, before: u32, id: u32) -> bool
    ensures { result ≡ option_map_or (λ i. is_some (typed i) && nat_lt i.at before) (inst_in locals.now id) false }
{
    match locals.inst(id) {
        Some(inst) => is_typed(inst) && inst.at < before,
        None => false,
    }
}

/// Whether a value is there before a word. Most are results of instructions, so these are asked first.
#[inline(always)]
#[tactic(auto, using(crate::proofs::Needed::in_any_order))]
fn is_value_before(scope: &Scope, locals: &Locals, before: u32, id: u32) -> bool
    ensures { result ≡ is_there_in_function scope.now.m locals.now before Need.Value id }
{
    is_result_before(locals, before, id)
        || is_global(scope, before, Need::Value, id)
        || locals.parameter(id).is_some()
}

/// Whether there is, for an instruction of a function at a word, what is needed.
#[inline(always)]
#[tactic(auto, using(crate::proofs::Needed::none_suits))]
fn is_there_in(scope: &Scope, locals: &Locals, before: u32, need: Need, id: u32) -> bool
    ensures { result ≡ is_there_in_function scope.now.m locals.now before need id }
{
    match need {
        Need::Value => is_value_before(scope, locals, before, id),
        Need::PhiValue => is_global(scope, before, need, id) || is_local(locals, id),
        Need::Label => locals.block(id).is_some(),
        Need::Callee => scope.index().has_function(id),
        Need::Import => scope.index().is_import(before, id),
        Need::AnyType | Need::PointerType | Need::FunctionType | Need::Constant => {
            is_global(scope, before, need, id)
        }
    }
}

/// Whether what is needed is there.
#[inline(always)]
fn is_there(scope: &Scope, before: u32, need: Need, id: u32) -> bool
    ensures { result ≡ there scope.now before need id }
{
    match scope.locals() {
        Some(locals) => is_there_in(scope, locals, before, need, id),
        None => is_global(scope, before, need, id),
    }
}

/// Whether operand k is an id of what is not there.
fn lacks_operand(scope: &Scope, inst: &Inst, ids: IdWords, k: usize, id: u32) -> bool
    requires { (j : ℕ) → has_id ids j ≡ is_id inst.now.op inst.now.args j }
    ensures { result ≡ lacks_operand_by (there scope.now inst.now.at) inst.now (k, id) }
{
    ids.has(k) && !is_there(scope, inst.at, need(inst.op, k), id)
}

/// Whether one of these operands is not there.
#[inline(always)]
fn lacks_some(scope: &Scope, inst: &Inst, ids: IdWords, args: &[u32]) -> bool
    requires { (j : ℕ) → has_id ids j ≡ is_id inst.now.op inst.now.args j }
    ensures { result ≡ list_any (lacks_operand_by (there scope.now inst.now.at) inst.now) (enumerate_from 0 args.now) }
{
    args.iter()
        .enumerate()
        .any(|(k, id)| lacks_operand(scope, inst, ids, k, *id))
}

/// Whether one of these is not there before a word.
fn lacks_each(scope: &Scope, before: u32, need: Need, ids: &[u32]) -> bool
    ensures { result ≡ list_any (λ id. not (there scope.now before need id)) ids.now }
{
    ids.iter().any(|id| !is_there(scope, before, need, *id))
}

/// Whether one of these is not there before a word, where the first is needed as one thing, and the
/// others as another.
fn lacks_of(scope: &Scope, before: u32, needs: (Need, Need), ids: &[u32]) -> bool
    ensures { result ≡ lacks_those (there scope.now before) needs ids.now }
{
    match ids {
        [] => false,
        [id, rest @ ..] => {
            !is_there(scope, before, needs.0, *id) || lacks_each(scope, before, needs.1, rest)
        }
    }
}

/// How many operands are ids, where these stand before all literals.
#[tactic(auto, using(crate::proofs::Needed::range_below, crate::proofs::Needed::from_first))]
fn count_ids(ids: IdWords, many: usize) -> Option<usize>
    ensures { IfSome result (AreBelow ids many) }
{
    match ids {
        IdWords::Range(from, end) => if from == 0 { Some(end) } else { None },
        IdWords::OneAndFrom(_, from) => if from == 0 { Some(many) } else { None },
        IdWords::Alternate => None,
    }
}

/// The first so many of these, or all.
fn first(ids: &[u32], n: usize) -> &[u32]
    ensures { result.now ≡ take n ids.now }
{
    &ids[..n.min(ids.len())]
}

/// Whether an operand is not there, where the first has to be one thing, and the others another. Of
/// most instructions the ids stand before all literals.
fn lacks_by(scope: &Scope, inst: &Inst, needs: (Need, Need), ids: IdWords) -> bool
    requires ids { (j : ℕ) → has_id ids j ≡ is_id inst.now.op inst.now.args j }
    requires needs { AreNeeds inst.now.op needs }
    ensures { result ≡ list_any (lacks_operand_by (there scope.now inst.now.at) inst.now) (enumerate_from 0 inst.now.args) }
{
    let args = inst.args.as_slice();
    match count_ids(ids, args.len()) {
        Some(n) => lacks_of(scope, inst.at, needs, first(args, n)),
        None => lacks_some(scope, inst, ids, args),
    }
}

/// Whether an operand is not there.
#[tactic(auto, using(crate::proofs::Needed::needs_are))]
fn lacks_operands(scope: &Scope, inst: &Inst) -> bool
    ensures { result ≡ list_any (lacks_operand_by (there scope.now inst.now.at) inst.now) (enumerate_from 0 inst.now.args) }
{
    let args = inst.args.as_slice();
    let ids = id_words(inst.op, args);
    match needs_of(inst.op) {
        Some(needs) => lacks_by(scope, inst, needs, ids),
        None => lacks_some(scope, inst, ids, args),
    }
}

/// T1: whether the result type or an operand of an instruction is not there.
#[inline(always)]
pub fn is_lacking(scope: &Scope, inst: &Inst) -> bool
    ensures { result ≡ lacks (there scope.now inst.now.at) inst.now }
{
    (has_type(inst.op) && !is_there(scope, inst.at, type_need(inst.op), inst.ty))
        || lacks_operands(scope, inst)
}

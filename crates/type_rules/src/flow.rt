// The types of calls, phis, branches and returns.
ghost use Rattle.std.specs.Prelude.{◌≡◌, ◌==◌, ◌||◌, ℕ, IfOk, OnOk, not, nat_le, count_by, option_and_then};
ghost use Rattle.std.specs.List.{list_any, zip};
ghost use Rattle.std.specs.Option.{option_copied};
ghost use Rattle.spv_decor.specs.Rows.{word as word_of};
ghost use Rattle.profile_rules.specs.TypeRows.{differ, is_other};
ghost use Rattle.std.specs.BTreeSet.{contains};
ghost use Rattle.std.specs.Ordering.{nat_cmp};
ghost use Rattle.type_rules.specs.Edges.{is_source as is_source_label, are_not_sources as are_other_labels};
ghost use Rattle.profile_rules.specs.FlowRules.{callee, is_from_elsewhere as is_elsewhere, function_type as function_type_of, is_miscalled as is_call_other, is_misdeclared as is_function_other, are_no_predecessors as are_others, are_labels as are_all_labels, every_second as every_second_of, has_repeat as has_a_repeat, breaks_t21, breaks_t21_of, breaks_t22, breaks_t23_branch, breaks_t23_switch, breaks_t24_return, breaks_t24_value};
ghost use Rattle.type_rules.specs.Scopes.{types, inside};
ghost use Rattle.profile_rules.specs.TypeRules.{is_broken_in as is_at_fault_in, is_end_broken as is_end_at_fault};

use crate::composites::{are_other_members, has_other};
use crate::edges::{Edges, Source};
use crate::judge::{InBlock, Judge};
use crate::numbers::behind;
use crate::scope::Scope;
use spv_index::Locals;
use spv_module::{Function, Id, Inst};
use spv_ops::{Op, OpGroup, Terminator};
use spv_words::Memory;
use std::alloc::{AllocError, Global};
use std::collections::BTreeSet;

/// The OpTypeFunction of a function.
fn function_type<'a>(scope: &Scope<'a, '_>, function: &Function) -> Option<&'a Inst>
    ensures { option_copied result ≡ function_type_of scope.now.m.globals function.now }
{
    let row = scope.global(function.ty.0)?;
    if row.op == Op::TypeFunction {
        Some(row)
    } else {
        None
    }
}

/// Whether a call does not match a function type.
fn is_miscalled(scope: &Scope, inst: &Inst, row: &Inst) -> bool
    ensures { result ≡ is_call_other scope.now.m.globals (types scope.now) inst.now row.now }
{
    scope.differ(row.operand(0), inst.ty)
        || are_other_members(scope, behind(row, 1), behind(inst, 1))
}

/// The function type of the function that is called.
fn callee_type<'a>(scope: &Scope<'a, '_>, inst: &Inst) -> Option<&'a Inst>
    ensures { option_copied result ≡ option_and_then (function_type_of scope.now.m.globals) (callee scope.now.m.functions (word_of inst.now 0)) }
{
    function_type(scope, scope.index().callee(inst.operand(0))?)
}

/// T21: OpFunctionCall.
fn is_call_broken(scope: &Scope, inst: &Inst) -> bool
    ensures { result ≡ breaks_t21 scope.now.m.functions scope.now.m.globals (types scope.now) inst.now }
{
    match callee_type(scope, inst) {
        Some(row) => is_miscalled(scope, inst, row),
        None => false,
    }
}

/// Whether a parameter is not of its type in the function type.
fn has_other_parameter(scope: &Scope, tys: &[u32], params: &[(Id, Id)]) -> bool
    ensures { result ≡ list_any (λ p. differ scope.now.m.globals p.0 p.1.1.0) (zip tys.now params.now) }
{
    tys.iter()
        .zip(params)
        .any(|(ty, param)| scope.differ(*ty, param.1.0))
}

/// Whether a function does not match a function type.
fn is_misdeclared(scope: &Scope, function: &Function, row: &Inst) -> bool
    ensures { result ≡ is_function_other scope.now.m.globals function.now row.now }
{
    let tys = behind(row, 1);
    scope.differ(row.operand(0), function.result.0)
        || function.params.len() != tys.len()
        || has_other_parameter(scope, tys, function.params.as_slice())
}

/// T21: a function and its function type.
pub fn is_function_broken(scope: &Scope, function: &Function) -> bool
    ensures { result ≡ breaks_t21_of scope.now.m.globals function.now }
{
    match function_type(scope, function) {
        Some(row) => is_misdeclared(scope, function, row),
        None => false,
    }
}

/// Every second word, from the first (0) or the second (1) on.
#[inline(always)]
fn every_second(alloc: Global, from: usize, words: &[u32]) -> Result<Vec<u32>, AllocError>
    ensures { IfOk result (λ v. v.items ≡ every_second_of from words.now) }
{
    words
        .iter()
        .enumerate()
        .filter(|(k, _)| *k % 2 == from)
        .map(|(_, word)| *word)
        .collect(alloc)
}

/// So many words are sought in a list one by one.
const FEW: usize = 8;

/// Whether a word stands at least twice in a list.
fn stands_twice(words: &[u32], word: u32) -> bool
    ensures { result ≡ nat_le 2 (count_by (λ x. x == word) words.now) }
{
    words.iter().filter(|other| **other == word).count() >= 2
}

/// Whether a word stands twice in a list of few.
fn has_repeat_among_few(words: &[u32]) -> bool
    ensures { result ≡ has_a_repeat words.now }
{
    words.iter().any(|word| stands_twice(words, *word))
}

/// Whether a word stands twice in a list of many.
fn has_repeat_among_many(alloc: Global, words: &[u32]) -> Result<bool, AllocError>
    ensures { IfOk result (λ b. b ≡ has_a_repeat words.now) }
{
    let mut seen = BTreeSet::new(alloc);
    for word in words {
        if seen.contains(word) {
            return Ok(true);
        }
        seen.insert(*word)?;
    }
    Ok(false)
}

/// Whether a word stands twice in a list.
#[inline(always)]
fn has_repeat(alloc: Global, words: &[u32]) -> Result<bool, AllocError>
    ensures { IfOk result (λ b. b ≡ has_a_repeat words.now) }
{
    if words.len() > FEW {
        return has_repeat_among_many(alloc, words);
    }
    Ok(has_repeat_among_few(words))
}

/// Whether these are all labels of the function.
fn are_labels(locals: &Locals, labels: &[u32]) -> bool
    ensures { result ≡ are_all_labels locals.now labels.now }
{
    labels.iter().all(|label| locals.block(*label).is_some())
}

/// Whether one of these blocks has this label.
fn is_source(sources: &[Source], label: u32) -> bool
    ensures { result ≡ is_source_label sources.now label }
{
    sources.iter().any(|source| source.label == label)
}

/// Whether one of these few labels is that of none of these blocks.
fn has_other_among_few(sources: &[Source], labels: &[u32]) -> bool
    ensures { result ≡ list_any (λ l. not (is_source_label sources.now l)) labels.now }
{
    labels.iter().any(|label| !is_source(sources, *label))
}

/// Adds the label of a block to a set.
fn add_label(labels: &mut BTreeSet<u32>, source: &Source) -> Result<(), AllocError>
    ensures { OnOk result ((x : ℕ) → contains nat_cmp labels.new x ≡ (contains nat_cmp labels.old x || (source.now.label == x))) }
{
    labels.insert(source.label)?;
    Ok(())
}

/// The labels of these blocks.
fn labels_of(alloc: Global, sources: &[Source]) -> Result<BTreeSet<u32>, AllocError>
    ensures { IfOk result (λ labels. (l : ℕ) → contains nat_cmp labels l ≡ is_source_label sources.now l) }
{
    let mut labels = BTreeSet::new(alloc);
    for source in sources {
        add_label(&mut labels, source)?;
    }
    Ok(labels)
}

/// Whether one of these many labels is that of none of these blocks.
fn has_other_among_many(
    alloc: Global,
    sources: &[Source],
    labels: &[u32],
) -> Result<bool, AllocError>
    ensures { IfOk result (λ b. b ≡ list_any (λ l. not (is_source_label sources.now l)) labels.now) }
{
    let known = labels_of(alloc, sources)?;
    Ok(labels.iter().any(|label| !known.contains(label)))
}

/// Whether one of these labels is that of none of these blocks.
fn has_other_label(alloc: Global, sources: &[Source], labels: &[u32]) -> Result<bool, AllocError>
    ensures { IfOk result (λ b. b ≡ list_any (λ l. not (is_source_label sources.now l)) labels.now) }
{
    if labels.len() > FEW {
        return has_other_among_many(alloc, sources, labels);
    }
    Ok(has_other_among_few(sources, labels))
}

/// Whether these are not the labels of these blocks, each once.
fn are_not_sources(alloc: Global, sources: &[Source], labels: &[u32]) -> Result<bool, AllocError>
    ensures { IfOk result (λ b. b ≡ are_other_labels sources.now labels.now) }
{
    if labels.len() != sources.len() {
        return Ok(true);
    }
    Ok(has_repeat(alloc, labels)? || has_other_label(alloc, sources, labels)?)
}

/// Whether these are not the predecessors of a block, each once.
#[tactic(auto, using(crate::proofs::Sources::asked_of_sources))]
fn are_no_predecessors(
    alloc: Global,
    here: &InBlock,
    edges: &Edges,
    labels: &[u32],
) -> Result<bool, AllocError>
    requires { edges.now ≡ here.now.function }
    ensures { IfOk result (λ b. b ≡ are_others here.now.function here.now.block.label.0 labels.now) }
{
    let label = here.block().label.0;
    are_not_sources(alloc, edges.sources(here.locals(), label), labels)
}

/// Whether the labels of a phi are labels, but not the predecessors of its block, each once.
fn is_from_elsewhere(
    alloc: Global,
    here: &InBlock,
    edges: &Edges,
    inst: &Inst,
) -> Result<bool, AllocError>
    requires { edges.now ≡ here.now.function }
    ensures { IfOk result (λ b. b ≡ is_elsewhere here.now.function here.now.block.label.0 inst.now) }
{
    let labels = every_second(alloc, 1, inst.args.as_slice())?;
    if !are_labels(here.locals(), &labels) {
        return Ok(false);
    }
    are_no_predecessors(alloc, here, edges, &labels)
}

/// Whether a value of a phi is of another type.
fn has_other_value(alloc: Global, scope: &Scope, inst: &Inst) -> Result<bool, AllocError>
    ensures { IfOk result (λ b. b ≡ list_any (is_other scope.now.m.globals (types scope.now) inst.now.ty) (every_second_of 0 inst.now.args)) }
{
    let values = every_second(alloc, 0, inst.args.as_slice())?;
    Ok(has_other(scope, inst.ty, &values))
}

/// T22: OpPhi.
fn is_phi_broken<'b>(
    judge: &mut Judge<'_, 'b>,
    here: &InBlock<'_, 'b>,
    inst: &Inst,
) -> Result<bool, Memory>
    requires { judge.old ≡ inside judge.old.m here.now.function }
    ensures value { IfOk result (λ b. b ≡ breaks_t22 judge.old.m.heads judge.old.m.globals (types judge.old) here.now.function here.now.block inst.now) }
    ensures same { judge.new ≡ judge.old }
{
    if judge.scope().is_no_value_type(inst.ty) {
        return Ok(true);
    }
    if has_other_value(judge.alloc(), judge.scope(), inst)? {
        return Ok(true);
    }
    let edges = judge.take_edges(here.locals())?;
    let answer = is_from_elsewhere(judge.alloc(), here, &edges, inst);
    judge.put_edges(edges);
    Ok(answer?)
}

/// T23: OpBranchConditional.
fn is_branch_broken(scope: &Scope, inst: &Inst) -> bool
    ensures { result ≡ breaks_t23_branch scope.now.m.globals (types scope.now) inst.now }
{
    scope.value_fails(Op::TypeBool, inst.operand(0))
}

/// T23: OpSwitch.
fn is_switch_broken(alloc: Global, scope: &Scope, inst: &Inst) -> Result<bool, Memory>
    ensures { IfOk result (λ b. b ≡ breaks_t23_switch scope.now.m.globals (types scope.now) inst.now) }
{
    if scope.value_fails(Op::TypeInt, inst.operand(0)) {
        return Ok(true);
    }
    let literals = every_second(alloc, 0, behind(inst, 2))?;
    Ok(has_repeat(alloc, &literals)?)
}

/// T24: OpReturn.
fn is_return_broken(scope: &Scope, function: &Function) -> bool
    ensures { result ≡ breaks_t24_return scope.now.m.globals function.now }
{
    scope.fails(Op::TypeVoid, function.result.0)
}

/// T24: OpReturnValue.
fn is_return_value_broken(scope: &Scope, function: &Function, inst: &Inst) -> bool
    ensures { result ≡ breaks_t24_value scope.now.m.globals (types scope.now) function.now inst.now }
{
    scope.is_void(function.result.0) || scope.is_other(function.result.0, inst.operand(0))
}

/// T23 and T24, of terminators.
fn is_end_broken(
    alloc: Global,
    scope: &Scope,
    function: &Function,
    inst: &Inst,
    terminator: Terminator,
) -> Result<bool, Memory>
    requires { scope.now ≡ inside scope.now.m function.now }
    ensures { IfOk result (λ b. b ≡ is_end_at_fault scope.now.m function.now inst.now terminator) }
{
    match terminator {
        Terminator::BranchConditional => Ok(is_branch_broken(scope, inst)),
        Terminator::Switch => is_switch_broken(alloc, scope, inst),
        Terminator::Return => Ok(is_return_broken(scope, function)),
        Terminator::ReturnValue => Ok(is_return_value_broken(scope, function, inst)),
        Terminator::Branch | Terminator::Unreachable => Ok(false),
    }
}

/// Whether an instruction of a block, of this group, is at fault: by T21 to T24, or as one outside functions.
#[tactic(auto, using(crate::proofs::Refused::flow_rules))]
pub fn is_broken_in<'b>(
    judge: &mut Judge<'_, 'b>,
    here: &InBlock<'_, 'b>,
    inst: &Inst,
    group: OpGroup,
) -> Result<bool, Memory>
    requires { judge.old ≡ inside judge.old.m here.now.function }
    ensures value { IfOk result (λ b. b ≡ is_at_fault_in judge.old.m here.now.function here.now.block inst.now group) }
    ensures same { judge.new ≡ judge.old }
{
    let scope = judge.scope();
    let function = here.locals().function();
    match group {
        OpGroup::Call => Ok(is_call_broken(scope, inst)),
        OpGroup::Phi => is_phi_broken(judge, here, inst),
        OpGroup::Terminator(terminator) => {
            is_end_broken(judge.alloc(), scope, function, inst, terminator)
        }
        _ => judge.is_broken(inst, group),
    }
}

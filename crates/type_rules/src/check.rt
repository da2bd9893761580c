// The instructions and functions of a module, one by one.
ghost use Rattle.std.specs.Prelude.{◌≡◌, [], IfOk, IfErr, OnOk, flat_map, map};
ghost use Rattle.std.specs.List.{list_any};
ghost use Rattle.spv_words.specs.Breaks.{NoRuleBroken};
ghost use Rattle.profile_rules.specs.Operands.{lacks_type, breaks_t1_of};
ghost use Rattle.profile_rules.specs.TypeRules.{Broken, type_rules, broken_if, broken_as, broken_inside, broken_by_global, broken_by_local, broken_by_block, broken_by_function, broken, is_sound, AreWithin, IsRefusedBy, IsRight, inner as inner_of};
ghost use Rattle.type_rules.specs.Scopes.{outside, inside};

use crate::dispatch::rule_of;
use crate::flow::{is_broken_in, is_function_broken};
use crate::index::ModuleIndex;
use crate::judge::{InBlock, Judge};
use crate::numbers::behind;
use crate::operands::{is_global, is_lacking};
use crate::scope::Scope;
use profile_rules::Need;
use spv_index::Locals;
use spv_module::{Args, Function, Inst, Module};
use spv_ops::Op;
use spv_types::check_limits;
use spv_words::{Fault, Memory, Refusal, Rule};
use std::alloc::{AllocError, Global};

/// Refuses by a rule at a word where it is broken.
fn refuse_if(is_broken: bool, rule: Rule, at: u32) -> Result<(), Fault>
    ensures passes { OnOk result (broken_if is_broken rule at ≡ []) }
    ensures refused { IfErr result (IsRefusedBy (broken_if is_broken rule at)) }
{
    if is_broken {
        return Err(Fault::Refused(Refusal { rule, at }));
    }
    Ok(())
}

/// Checks an instruction outside functions, judged as one with this opcode.
fn check_as(judge: &mut Judge, inst: &Inst, op: Op) -> Result<(), Fault>
    requires { judge.old ≡ outside judge.old.m }
    ensures passes { OnOk result (broken_as judge.old.m inst.now op ≡ []) }
    ensures refused { IfErr result (IsRefusedBy (broken_as judge.old.m inst.now op)) }
    ensures same { judge.new ≡ judge.old }
{
    let group = op.group();
    let is_broken = judge.is_broken(inst, group)?;
    refuse_if(is_broken, rule_of(group), inst.at)
}

/// An OpSpecConstantOp without the opcode inside.
fn inner(alloc: Global, inst: &Inst) -> Result<Inst, AllocError>
    ensures { IfOk result (λ i. i ≡ inner_of inst.now) }
{
    Ok(Inst {
        op: inst.op,
        at: inst.at,
        ty: inst.ty,
        result: inst.result,
        args: Args::of(alloc, behind(inst, 1))?,
    })
}

/// Checks the instruction inside an OpSpecConstantOp.
fn check_inside(judge: &mut Judge, inst: &Inst) -> Result<(), Fault>
    requires { judge.old ≡ outside judge.old.m }
    ensures passes { OnOk result (broken_inside judge.old.m inst.now ≡ []) }
    ensures refused { IfErr result (IsRefusedBy (broken_inside judge.old.m inst.now)) }
    ensures same { judge.new ≡ judge.old }
{
    if inst.op != Op::SpecConstantOp {
        return Ok(());
    }
    let Some(op) = Op::of_word(inst.operand(0)) else {
        return Ok(());
    };
    let inside = inner(judge.alloc(), inst)?;
    check_as(judge, &inside, op)
}

/// Checks an instruction outside functions.
#[tactic(auto, using(crate::proofs::Refused::list_rules))]
fn check_global(judge: &mut Judge, inst: &Inst) -> Result<(), Fault>
    requires { judge.old ≡ outside judge.old.m }
    ensures passes { OnOk result (broken_by_global judge.old.m inst.now ≡ []) }
    ensures refused { IfErr result (IsRefusedBy (broken_by_global judge.old.m inst.now)) }
    ensures same { judge.new ≡ judge.old }
{
    refuse_if(is_lacking(judge.scope(), inst), Rule::T1, inst.at)?;
    check_as(judge, inst, inst.op)?;
    check_inside(judge, inst)
}

/// Whether an instruction outside functions breaks no rule on types.
#[tactic(auto, using(crate::proofs::Refused::sound_rules))]
fn is_global_sound(judge: &mut Judge, inst: &Inst) -> Result<bool, Memory>
    requires { judge.old ≡ outside judge.old.m }
    ensures value { IfOk result (λ sound. sound ≡ is_sound judge.old.m inst.now) }
    ensures same { judge.new ≡ judge.old }
{
    match check_global(judge, inst) {
        Ok(()) => Ok(true),
        Err(Fault::Refused(_)) => Ok(false),
        Err(Fault::Limit(_) | Fault::Memory) => Err(Memory),
    }
}

/// Which instructions outside functions break no rule on types, with what is looked up.
fn sound_among<'a>(
    alloc: Global,
    index: &'a ModuleIndex<'a>,
    globals: &[Inst],
) -> Result<Vec<bool>, Memory>
    ensures { IfOk result (λ sound. sound.items ≡ map (is_sound index.now) globals.now) }
{
    let mut judge = Judge::of(alloc, index);
    let mut sound = Vec::with_capacity(alloc, globals.len())?;
    for inst in globals {
        sound.push(is_global_sound(&mut judge, inst)?)?;
    }
    Ok(sound)
}

/// Which instructions outside functions break no rule on types, T1 to T25 (SPIR-V 1.6, the section
/// "Instructions"), in the order of the module. There is an error only for want of memory.
pub fn sound_globals(alloc: Global, module: &Module) -> Result<Vec<bool>, Memory>
    ensures { IfOk result (λ sound. sound.items ≡ map (is_sound «module».now) «module».now.globals) }
{
    let index = ModuleIndex::of(alloc, module)?;
    sound_among(alloc, &index, module.globals())
}

/// Checks the instructions outside functions.
fn check_globals(judge: &mut Judge, globals: &[Inst]) -> Result<(), Fault>
    requires { judge.old ≡ outside judge.old.m }
    ensures passes { OnOk result (flat_map (broken_by_global judge.old.m) globals.now ≡ []) }
    ensures refused { IfErr result (IsRefusedBy (flat_map (broken_by_global judge.old.m) globals.now)) }
    ensures same { judge.new ≡ judge.old }
{
    for inst in globals {
        check_global(judge, inst)?;
    }
    Ok(())
}

/// Checks an instruction of a block.
#[tactic(auto, using(crate::proofs::Refused::list_rules))]
fn check_local<'b>(
    judge: &mut Judge<'_, 'b>,
    here: &InBlock<'_, 'b>,
    inst: &Inst,
) -> Result<(), Fault>
    requires { judge.old ≡ inside judge.old.m here.now.function }
    ensures passes { OnOk result (broken_by_local judge.old.m here.now.function here.now.block inst.now ≡ []) }
    ensures refused { IfErr result (IsRefusedBy (broken_by_local judge.old.m here.now.function here.now.block inst.now)) }
    ensures same { judge.new ≡ judge.old }
{
    refuse_if(is_lacking(judge.scope(), inst), Rule::T1, inst.at)?;
    let group = inst.op.group();
    let is_broken = is_broken_in(judge, here, inst, group)?;
    refuse_if(is_broken, rule_of(group), inst.at)
}

/// Checks the instructions of a block.
fn check_block<'b>(judge: &mut Judge<'_, 'b>, here: &InBlock<'_, 'b>) -> Result<(), Fault>
    requires { judge.old ≡ inside judge.old.m here.now.function }
    ensures passes { OnOk result (broken_by_block judge.old.m here.now.function here.now.block ≡ []) }
    ensures refused { IfErr result (IsRefusedBy (broken_by_block judge.old.m here.now.function here.now.block)) }
    ensures same { judge.new ≡ judge.old }
{
    for inst in here.block().insts.as_slice() {
        check_local(judge, here, inst)?;
    }
    Ok(())
}

/// Checks the blocks of a function.
fn check_blocks<'b>(judge: &mut Judge<'_, 'b>, locals: &Locals<'b>) -> Result<(), Fault>
    requires { judge.old ≡ inside judge.old.m locals.now }
    ensures passes { OnOk result (flat_map (broken_by_block judge.old.m locals.now) locals.now.blocks ≡ []) }
    ensures refused { IfErr result (IsRefusedBy (flat_map (broken_by_block judge.old.m locals.now) locals.now.blocks)) }
    ensures same { judge.new ≡ judge.old }
{
    for block in locals.function().blocks.as_slice() {
        check_block(judge, &InBlock::of(locals, block))?;
    }
    Ok(())
}

/// Whether the type of a parameter is not there.
fn lacks_parameter(scope: &Scope, function: &Function) -> bool
    ensures { result ≡ list_any (lacks_type scope.now.m.globals function.now.at) function.now.params }
{
    function.params.as_slice().iter().any(|param| !is_global(
        scope,
        function.at,
        Need::AnyType,
        param.1.0,
    ))
}

/// T1: whether a type of a function is not there.
fn is_lacking_type(scope: &Scope, function: &Function) -> bool
    ensures { result ≡ breaks_t1_of scope.now.m.globals function.now }
{
    !is_global(scope, function.at, Need::AnyType, function.result.0)
        || !is_global(scope, function.at, Need::FunctionType, function.ty.0)
        || lacks_parameter(scope, function)
}

/// Checks a function and its blocks.
#[tactic(auto, using(crate::proofs::Refused::list_rules))]
fn check_in_function<'b>(judge: &mut Judge<'_, 'b>, locals: &Locals<'b>) -> Result<(), Fault>
    requires { judge.old ≡ inside judge.old.m locals.now }
    ensures passes { OnOk result (broken_by_function judge.old.m locals.now ≡ []) }
    ensures refused { IfErr result (IsRefusedBy (broken_by_function judge.old.m locals.now)) }
    ensures same { judge.new ≡ judge.old }
{
    let function = locals.function();
    refuse_if(
        is_lacking_type(judge.scope(), function),
        Rule::T1,
        function.at,
    )?;
    refuse_if(
        is_function_broken(judge.scope(), function),
        Rule::T21,
        function.at,
    )?;
    check_blocks(judge, locals)
}

/// Checks a function.
fn check_function<'a, 'b>(judge: &mut Judge<'a, 'b>, locals: &'a Locals<'b>) -> Result<(), Fault>
    ensures passes { OnOk result (broken_by_function judge.old.m locals.now ≡ []) }
    ensures refused { IfErr result (IsRefusedBy (broken_by_function judge.old.m locals.now)) }
    ensures same { judge.new.m ≡ judge.old.m }
{
    judge.enter(locals);
    check_in_function(judge, locals)
}

/// Checks the functions.
fn check_functions<'a, 'b>(
    judge: &mut Judge<'a, 'b>,
    functions: &'a [Locals<'b>],
) -> Result<(), Fault>
    ensures passes { OnOk result (flat_map (broken_by_function judge.old.m) functions.now ≡ []) }
    ensures refused { IfErr result (IsRefusedBy (flat_map (broken_by_function judge.old.m) functions.now)) }
    ensures same { judge.new.m ≡ judge.old.m }
{
    for function in functions {
        check_function(judge, function)?;
    }
    Ok(())
}

/// Checks the rules on types, with what is looked up.
#[tactic(auto, using(crate::proofs::Refused::list_rules))]
fn check_with_index<'a, 'b>(
    alloc: Global,
    index: &'a ModuleIndex<'a>,
    functions: &'a [Locals<'b>],
) -> Result<(), Fault>
    requires { functions.now ≡ index.now.functions }
    ensures passes { OnOk result (broken index.now ≡ []) }
    ensures refused { IfErr result (IsRefusedBy (broken index.now)) }
{
    let mut judge = Judge::of(alloc, index);
    check_globals(&mut judge, index.module().globals())?;
    check_functions(&mut judge, functions)
}

/// Checks the rules on types.
fn check_rules(alloc: Global, module: &Module, functions: &[Locals]) -> Result<(), Fault>
    requires { functions.now ≡ «module».now.functions }
    ensures passes { OnOk result (broken «module».now ≡ []) }
    ensures refused { IfErr result (IsRefusedBy (broken «module».now)) }
{
    let index = ModuleIndex::of(alloc, module)?;
    check_with_index(alloc, &index, functions)
}

/// Checks the types of a module: of its constants, variables and functions, also those that nothing
/// uses, and of the operands and results of instructions (SPIR-V 1.6, the section "Instructions").
///
/// It refuses by T1 to T25 where one is broken, at the word where it is, and by `Limit::Types` and
/// `Limit::Parts` where a type passes them; where several hold, by any. Otherwise there is an error
/// only for want of memory. `functions` has what each function of the module defines.
#[tactic(auto, using(crate::proofs::Refused::checked_rules))]
pub fn check_types(alloc: Global, module: &Module, functions: &[Locals]) -> Result<(), Fault>
    requires { functions.now ≡ «module».now.functions }
    ensures passes { OnOk result (NoRuleBroken (Broken «module».now) type_rules) }
    ensures within { OnOk result (AreWithin «module».now) }
    ensures unbroken { OnOk result (broken «module».now ≡ []) }
    ensures refused { IfErr result (IsRight «module».now) }
{
    check_limits(alloc, module)?;
    check_rules(alloc, module, functions)
}

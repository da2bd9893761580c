// The rules on the chosen entry point: its function, and the modes that give its size.
ghost use Rattle.std.specs.Prelude.{◌≡◌, ◌==◌, ◌&&◌, ◌||◌, not, true, false, drop, nat_lt, find, count_by};
ghost use Rattle.std.specs.Option.{option_copied, option_map_or};
ghost use Rattle.std.specs.List.{list_any, list_all};
ghost use Rattle.spv_module.specs.Held.{global};
ghost use Rattle.spv_words.specs.declared.rule.Rule.TheVariants.{P8, P9};
ghost use Rattle.profile_rules.specs.Entry.{is_result, is_called as is_called_row, function_of as function_in_list, is_no_kernel as is_no_kernel_row, is_mode_of as is_mode_of_row, is_local_size as is_local_size_row, is_local_size_id as is_local_size_id_row, is_other_mode as is_other_mode_row, is_bad_mode as is_bad_mode_row, is_size_composite as is_size_composite_row, has_no_size as has_no_size_in, p8_of, p9_of};
ghost use Rattle.declaration_check.specs.Checked.{IsChecked};
ghost use Rattle.declaration_check.specs.SizeModes.{gives_size as gives_size_row};

use crate::context::Context;
use crate::refusal::{refuse_at, refuse_if};
use spv_module::{Function, Inst};
use spv_ops::{BuiltIn, Decoration, ExecutionMode, ExecutionModel, Op};
use spv_words::{Fault, Rule};

/// Whether a function's result is of another type than void.
fn has_result(context: &Context, function: &Function) -> bool
    ensures { result ≡ option_map_or is_result (global context.now.globals function.now.result.0) false }
{
    context
        .global(function.result.0)
        .map_or(false, |inst| inst.op.is_type() && inst.op != Op::TypeVoid)
}

/// Whether a function has parameters or a result.
fn is_called(context: &Context, function: &Function) -> bool
    ensures { result ≡ is_called_row context.now.globals function.now }
{
    !function.params.is_empty() || has_result(context, function)
}

fn function_of<'a>(context: &Context<'a>, id: u32) -> Option<&'a Function>
    ensures { option_copied result ≡ function_in_list context.now.functions id }
{
    context
        .functions()
        .iter()
        .find(|function| function.id.0 == id)
}

/// Whether an id is that of no function without parameters and without a result.
fn is_no_entry(context: &Context, id: u32) -> bool
    ensures { result ≡ option_map_or (is_called_row context.now.globals) (function_in_list context.now.functions id) true }
{
    match function_of(context, id) {
        None => true,
        Some(function) => is_called(context, function),
    }
}

/// Whether an entry point is not of model GLCompute with a function of no parameters and no result.
fn is_no_kernel(context: &Context, entry: &Inst) -> bool
    ensures { result ≡ is_no_kernel_row context.now entry.now }
{
    entry.operand(0) != ExecutionModel::GLCompute.number() || is_no_entry(context, entry.operand(1))
}

/// P8: the entry point is of another execution model than GLCompute, or its function is none or has
/// parameters or a result (SPIR-V 1.6, section 3.3).
pub fn check_kernel(context: &Context, entry: &Inst) -> Result<(), Fault>
    ensures { IsChecked P8 (p8_of context.now entry.now) result }
{
    refuse_if(Rule::P8, is_no_kernel(context, entry), entry.at)
}

/// OpExecutionMode or OpExecutionModeId of a function.
fn is_mode_of(function: u32, inst: &Inst) -> bool
    ensures { result ≡ is_mode_of_row function inst.now }
{
    (inst.op == Op::ExecutionMode || inst.op == Op::ExecutionModeId) && inst.operand(0) == function
}

/// OpExecutionMode LocalSize of a function.
fn is_local_size(function: u32, inst: &Inst) -> bool
    ensures { result ≡ is_local_size_row function inst.now }
{
    inst.op == Op::ExecutionMode
        && inst.operand(0) == function
        && inst.operand(1) == ExecutionMode::LocalSize.number()
}

/// OpExecutionModeId LocalSizeId of a function.
pub fn is_local_size_id(function: u32, inst: &Inst) -> bool
    ensures { result ≡ is_local_size_id_row function inst.now }
{
    inst.op == Op::ExecutionModeId
        && inst.operand(0) == function
        && inst.operand(1) == ExecutionMode::LocalSizeId.number()
}

/// The operands of a mode.
pub fn mode_operands(inst: &Inst) -> &[u32]
    ensures { result.now ≡ drop 2 inst.now.args }
{
    inst.args.as_slice().get(2..).unwrap_or(&[])
}

fn are_above_zero(literals: &[u32]) -> bool
    ensures { result ≡ list_all (nat_lt 0) literals.now }
{
    literals.iter().all(|literal| 0 < *literal)
}

/// LocalSize of a function with literals above 0, or LocalSizeId of it.
fn is_size(function: u32, inst: &Inst) -> bool
    ensures { result ≡ (is_local_size_id_row function inst.now || (is_local_size_row function inst.now && list_all (nat_lt 0) (drop 2 inst.now.args))) }
{
    is_local_size_id(function, inst)
        || is_local_size(function, inst) && are_above_zero(mode_operands(inst))
}

/// Whether a mode of a function is neither LocalSize with three literals above 0 nor LocalSizeId with
/// three ids.
fn is_other_mode(function: u32, inst: &Inst) -> bool
    ensures { result ≡ is_other_mode_row function inst.now }
{
    is_mode_of(function, inst) && !(inst.args.len() == 5 && is_size(function, inst))
}

/// Whether a mode of a function is another, or one that is there twice.
#[tactic(auto, unfolding(profile_rules::specs::Entry::is_bad_mode))]
fn is_bad_mode(literals: usize, ids: usize, function: u32, inst: &Inst) -> bool
    ensures { result ≡ is_bad_mode_row literals ids function inst.now }
{
    is_other_mode(function, inst)
        || is_local_size(function, inst) && literals >= 2
        || is_local_size_id(function, inst) && ids >= 2
}

/// The modes that give the size of workgroups: by literals, or by the ids of constants.
#[derive(Clone, Copy)]
pub enum SizeMode {
    Literals,
    Ids,
}

/// Whether this is such a mode of a function.
fn gives_size(mode: SizeMode, function: u32, inst: &Inst) -> bool
    ensures { result ≡ gives_size_row mode function inst.now }
{
    match mode {
        SizeMode::Literals => is_local_size(function, inst),
        SizeMode::Ids => is_local_size_id(function, inst),
    }
}

fn count_modes(context: &Context, mode: SizeMode, function: u32) -> usize
    ensures { result ≡ count_by (gives_size_row mode function) context.now.heads }
{
    context
        .heads()
        .iter()
        .filter(|inst| gives_size(mode, function, *inst))
        .count()
}

/// The first such mode of a function.
pub fn first_mode<'a>(context: &Context<'a>, mode: SizeMode, function: u32) -> Option<&'a Inst>
    ensures { option_copied result ≡ find (gives_size_row mode function) context.now.heads }
{
    context
        .heads()
        .iter()
        .find(|inst| gives_size(mode, function, *inst))
}

fn first_bad_mode<'a>(
    context: &Context<'a>,
    literals: usize,
    ids: usize,
    function: u32,
) -> Option<&'a Inst>
    ensures { option_copied result ≡ find (is_bad_mode_row literals ids function) context.now.heads }
{
    context
        .heads()
        .iter()
        .find(|inst| is_bad_mode(literals, ids, function, *inst))
}

/// OpConstantComposite or OpSpecConstantComposite, decorated WorkgroupSize.
pub fn is_size_composite(context: &Context, inst: &Inst) -> bool
    ensures { result ≡ is_size_composite_row context.now.heads inst.now }
{
    (inst.op == Op::ConstantComposite || inst.op == Op::SpecConstantComposite)
        && context.value(inst.result, Decoration::BuiltIn.number())
            == Some(BuiltIn::WorkgroupSize.number())
}

fn has_size_mode(context: &Context, function: u32) -> bool
    ensures { result ≡ list_any (λ i. is_local_size_row function i || is_local_size_id_row function i) context.now.heads }
{
    context.heads().iter().any(|inst| is_local_size(function, inst)
        || is_local_size_id(function, inst))
}

fn has_size_composite(context: &Context) -> bool
    ensures { result ≡ list_any (is_size_composite_row context.now.heads) context.now.globals }
{
    context
        .globals()
        .iter()
        .any(|inst| is_size_composite(context, inst))
}

/// Whether nothing gives the size of the workgroups of a function.
fn has_no_size(context: &Context, function: u32) -> bool
    ensures { result ≡ has_no_size_in context.now function }
{
    !has_size_mode(context, function) && !has_size_composite(context)
}

/// The first mode of a function that is another, or there twice.
fn mode_fault<'a>(context: &Context<'a>, function: u32) -> Option<&'a Inst>
    ensures { option_copied result ≡ find (is_bad_mode_row (count_by (is_local_size_row function) context.now.heads) (count_by (is_local_size_id_row function) context.now.heads) function) context.now.heads }
{
    let literals = count_modes(context, SizeMode::Literals, function);
    let ids = count_modes(context, SizeMode::Ids, function);
    first_bad_mode(context, literals, ids, function)
}

/// P9: a mode of the entry point is neither LocalSize with three literals above 0 nor LocalSizeId with
/// three ids, or is there twice; or nothing gives the size (SPIR-V 1.6, section 3.6).
pub fn check_modes(context: &Context, entry: &Inst) -> Result<(), Fault>
    ensures { IsChecked P9 (p9_of context.now entry.now) result }
{
    let function = entry.operand(1);
    refuse_at(Rule::P9, mode_fault(context, function))?;
    refuse_if(Rule::P9, has_no_size(context, function), entry.at)
}

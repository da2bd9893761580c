// The size of the workgroups, and the rule on what gives it.
ghost use Rattle.std.specs.Prelude.{◌≡◌, ◌||◌, not, true, false, find, map, count_by, IfOk};
ghost use Rattle.std.specs.Option.{option_copied, option_map_or};
ghost use Rattle.spv_module.specs.Held.{global};
ghost use Rattle.spv_ops.specs.Enumerants.{decoration_number};
ghost use Rattle.spv_ops.specs.declared.Decoration.TheVariants as decoration;
ghost use Rattle.spv_decor.specs.Rows.{value_of};
ghost use Rattle.spv_words.specs.declared.rule.Rule.TheVariants.{P10};
ghost use Rattle.profile_rules.specs.declared.size.SizePart.TheVariants.{Fixed};
ghost use Rattle.profile_rules.specs.TypeRows.{type_row};
ghost use Rattle.profile_rules.specs.Places.{is_defined_elsewhere};
ghost use Rattle.profile_rules.specs.Entry.{is_same_spec as is_same_spec_in, is_no_uint as is_no_uint_in, is_no_uvec3 as is_no_uvec3_in, is_no_size as is_no_size_in, is_no_part as is_no_part_in, are_no_sizes as are_no_sizes_in, is_bad_composite as is_bad_composite_in, is_bad_size as is_bad_size_in, is_bad_size_id as is_bad_size_id_in, is_size_composite as is_size_composite_row, size_part as size_part_in, group_size as group_size_in, p10_of};
ghost use Rattle.declaration_check.specs.Checked.{IsChecked};

use crate::context::Context;
use crate::kernel::{SizeMode, first_mode, is_local_size_id, is_size_composite, mode_operands};
use crate::refusal::refuse_at;
use profile_rules::SizePart;
use spv_module::Inst;
use spv_ops::{Decoration, Op};
use spv_words::{Fault, Memory, Rule};
use std::alloc::{AllocError, Global};

/// The SpecId of a constant.
fn spec_id(context: &Context, id: u32) -> Option<u32>
    ensures { result ≡ value_of context.now.heads id (decoration_number decoration.SpecId) }
{
    context.value(id, Decoration::SpecId.number())
}

/// Whether two ids have the same SpecId.
fn is_same_spec(context: &Context, a: u32, b: u32) -> bool
    ensures { result ≡ is_same_spec_in context.now.heads a b }
{
    match (spec_id(context, a), spec_id(context, b)) {
        (Some(first), Some(second)) => first == second,
        _ => false,
    }
}

/// Whether an id is that of another type than uint.
fn is_no_uint(context: &Context, id: u32) -> bool
    ensures { result ≡ is_no_uint_in context.now.globals id }
{
    context.type_row(id).map_or(false, |inst| !inst.is_uint())
}

/// Whether a type is no vector of three uints.
pub fn is_no_uvec3(context: &Context, inst: &Inst) -> bool
    ensures { result ≡ is_no_uvec3_in context.now.globals inst.now }
{
    !inst.is_vector_of(3) || is_no_uint(context, inst.operand(0))
}

/// Whether a global instruction is no OpConstant or OpSpecConstant of a uint above 0.
fn is_no_size(context: &Context, inst: &Inst) -> bool
    ensures { result ≡ is_no_size_in context.now.globals inst.now }
{
    let is_number = inst.op == Op::Constant || inst.op == Op::SpecConstant;
    let extent = inst.operand(0);
    !(is_number && 0 < extent) || is_no_uint(context, inst.ty)
}

/// Whether an id is that of no such constant, where `missing` says so of one that nothing global has.
fn is_no_part(context: &Context, missing: bool, id: u32) -> bool
    ensures { result ≡ option_map_or (is_no_size_in context.now.globals) (global context.now.globals id) missing }
{
    match context.global(id) {
        None => missing,
        Some(inst) => is_no_size(context, inst),
    }
}

/// Whether an id is no part of a composite, where that is asked, or of LocalSizeId.
fn is_no_part_of(context: &Context, in_composite: bool, id: u32) -> bool
    ensures { result ≡ is_no_part_in context.now (λ other. not in_composite || is_defined_elsewhere context.now other) id }
{
    is_no_part(
        context,
        !in_composite || context.is_defined_elsewhere(id),
        id,
    )
}

/// Whether two of three ids have the same SpecId.
fn are_shared(context: &Context, a: u32, b: u32, c: u32) -> bool
    ensures { result ≡ (is_same_spec_in context.now.heads a b || is_same_spec_in context.now.heads a c || is_same_spec_in context.now.heads b c) }
{
    is_same_spec(context, a, b) || is_same_spec(context, a, c) || is_same_spec(context, b, c)
}

/// Whether these are not the ids of three such constants, or two have the same SpecId.
fn are_no_sizes(context: &Context, in_composite: bool, ids: &[u32]) -> bool
    ensures { result ≡ are_no_sizes_in context.now (λ other. not in_composite || is_defined_elsewhere context.now other) ids.now }
{
    match ids {
        [a, b, c] => {
            is_no_part_of(context, in_composite, *a)
                || is_no_part_of(context, in_composite, *b)
                || is_no_part_of(context, in_composite, *c)
                || are_shared(context, *a, *b, *c)
        }
        _ => true,
    }
}

/// Whether a composite is no uvec3 of three such constants.
fn is_bad_composite(context: &Context, inst: &Inst) -> bool
    ensures { result ≡ is_bad_composite_in context.now inst.now }
{
    is_no_uvec3_of(context, inst.ty) || are_no_sizes(context, true, inst.args.as_slice())
}

/// Whether an id is that of a type that is no uvec3.
fn is_no_uvec3_of(context: &Context, id: u32) -> bool
    ensures { result ≡ option_map_or (is_no_uvec3_in context.now.globals) (type_row context.now.globals id) false }
{
    match context.type_row(id) {
        None => false,
        Some(inst) => is_no_uvec3(context, inst),
    }
}

/// Whether a composite decorated WorkgroupSize is bad, or one of several.
#[tactic(auto, unfolding(profile_rules::specs::Entry::is_bad_size))]
fn is_bad_size(context: &Context, count: usize, inst: &Inst) -> bool
    ensures { result ≡ is_bad_size_in context.now count inst.now }
{
    is_size_composite(context, inst) && (count >= 2 || is_bad_composite(context, inst))
}

/// The first composite decorated WorkgroupSize that is bad, or one of several.
fn composite_fault<'a>(context: &Context<'a>) -> Option<&'a Inst>
    ensures { option_copied result ≡ find (is_bad_size_in context.now (count_by (is_size_composite_row context.now.heads) context.now.globals)) context.now.globals }
{
    let globals = context.globals();
    let count = globals
        .iter()
        .filter(|i| is_size_composite(context, *i))
        .count();
    globals.iter().find(|i| is_bad_size(context, count, *i))
}

/// OpExecutionModeId LocalSizeId of a function, not with three such constants.
fn is_bad_size_id(context: &Context, function: u32, inst: &Inst) -> bool
    ensures { result ≡ is_bad_size_id_in context.now function inst.now }
{
    is_local_size_id(function, inst) && are_no_sizes(context, false, mode_operands(inst))
}

fn first_bad_size_id<'a>(context: &Context<'a>, function: u32) -> Option<&'a Inst>
    ensures { option_copied result ≡ find (is_bad_size_id_in context.now function) context.now.heads }
{
    context
        .heads()
        .iter()
        .find(|inst| is_bad_size_id(context, function, *inst))
}

/// P10: two constants are decorated WorkgroupSize; or one is no uvec3; or it or LocalSizeId does not
/// have three parts that are uint constants above 0; or two of the parts have the same SpecId (SPIR-V
/// 1.6, "BuiltIn" WorkgroupSize, and "Execution Mode" LocalSizeId).
pub fn check_size(context: &Context, entry: &Inst) -> Result<(), Fault>
    ensures { IsChecked P10 (p10_of context.now entry.now) result }
{
    refuse_at(Rule::P10, composite_fault(context))?;
    refuse_at(Rule::P10, first_bad_size_id(context, entry.operand(1)))
}

/// A part of the size, by the constant with this id.
fn size_part(context: &Context, id: u32) -> SizePart
    ensures { result ≡ size_part_in context.now id }
{
    let default = context.global(id).map_or(0, |inst| inst.operand(0));
    match spec_id(context, id) {
        None => SizePart::Fixed(default),
        Some(id) => SizePart::Spec { id, default },
    }
}

fn parts_by_ids(alloc: Global, context: &Context, ids: &[u32]) -> Result<Vec<SizePart>, AllocError>
    ensures { IfOk result (λ parts. parts.items ≡ map (size_part_in context.now) ids.now) }
{
    ids.iter().map(|id| size_part(context, *id)).collect(alloc)
}

fn parts_by_literals(alloc: Global, literals: &[u32]) -> Result<Vec<SizePart>, AllocError>
    ensures { IfOk result (λ parts. parts.items ≡ map Fixed literals.now) }
{
    literals
        .iter()
        .map(|literal| SizePart::Fixed(*literal))
        .collect(alloc)
}

fn size_composite<'a>(context: &Context<'a>) -> Option<&'a Inst>
    ensures { option_copied result ≡ find (is_size_composite_row context.now.heads) context.now.globals }
{
    context
        .globals()
        .iter()
        .find(|inst| is_size_composite(context, *inst))
}

/// The parts of the size of a function's workgroups: by the composite decorated WorkgroupSize, else by
/// LocalSizeId, else by LocalSize (SPIR-V 1.6, "BuiltIn" WorkgroupSize).
pub fn group_size(alloc: Global, context: &Context, function: u32) -> Result<Vec<SizePart>, Memory>
    ensures { IfOk result (λ parts. parts.items ≡ group_size_in context.now function) }
{
    if let Some(composite) = size_composite(context) {
        return Ok(parts_by_ids(alloc, context, composite.args.as_slice())?);
    }
    if let Some(mode) = first_mode(context, SizeMode::Ids, function) {
        return Ok(parts_by_ids(alloc, context, mode_operands(mode))?);
    }
    match first_mode(context, SizeMode::Literals, function) {
        None => Ok(Vec::new(alloc)),
        Some(mode) => Ok(parts_by_literals(alloc, mode_operands(mode))?),
    }
}

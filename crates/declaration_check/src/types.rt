// The rules on types, and on specialization constants.
ghost use Rattle.std.specs.Prelude.{◌≡◌, ◌==◌, ◌||◌, not, false, find, drop};
ghost use Rattle.std.specs.Option.{option_copied, option_map_or};
ghost use Rattle.std.specs.List.{list_any};
ghost use Rattle.id_map.specs.Entries.{is_in};
ghost use Rattle.spv_module.specs.Held.{global};
ghost use Rattle.spv_words.specs.declared.rule.Rule.TheVariants.{P17, P18, P19};
ghost use Rattle.profile_rules.specs.TypeForm.{is_misused as is_misused_in, is_other_int as is_other_int_row, is_no_scalar as is_no_scalar_in, is_vector_size as is_vector_size_in, is_other_vector as is_other_vector_in, is_signed as is_signed_in, is_above_zero as is_above_zero_in, is_no_int as is_no_int_in, is_workgroup_length as is_workgroup_length_in, is_length as is_length_in, is_other_array as is_other_array_in, is_empty_struct as is_empty_struct_row, is_no_data as is_no_data_in, parts_of as parts_in, is_misformed as is_misformed_in, is_other_pointer as is_other_pointer_in, is_no_variable as is_no_variable_in, is_other_parameter as is_other_parameter_in, is_other_result as is_other_result_in, is_other_function as is_other_function_in, p17, p18, p19};
ghost use Rattle.profile_rules.specs.Places.{is_defined_elsewhere};
ghost use Rattle.declaration_check.specs.Checked.{IsChecked};
ghost use Rattle.declaration_check.specs.Classes.{AreMisuses};

use crate::context::Context;
use crate::holders::Holders;
use crate::refusal::refuse_at;
use crate::uses::{Misuses, find_misuses, parts_of};
use spv_index::behind_first;
use spv_module::Inst;
use spv_ops::{Op, StorageClass};
use spv_words::{Fault, Rule};
use std::alloc::Global;

/// Whether this is a struct decorated Block or BufferBlock, or OpTypeRuntimeArray, that is used otherwise.
fn is_misused(context: &Context, uses: &Misuses, inst: &Inst) -> bool
    requires { AreMisuses context.now (is_in uses.now.blocks) (is_in uses.now.runtimes) }
    ensures { result ≡ is_misused_in context.now inst.now }
{
    inst.op == Op::TypeStruct && context.is_block(inst.result) && uses.blocks.has(inst.result)
        || inst.op == Op::TypeRuntimeArray && uses.runtimes.has(inst.result)
}

fn first_misused<'a>(context: &Context<'a>, uses: &Misuses) -> Option<&'a Inst>
    requires { AreMisuses context.now (is_in uses.now.blocks) (is_in uses.now.runtimes) }
    ensures { option_copied result ≡ find (is_misused_in context.now) context.now.globals }
{
    context
        .globals()
        .iter()
        .find(|inst| is_misused(context, uses, *inst))
}

/// P17: a struct decorated Block or BufferBlock is anything but what a block variable points to; or one
/// with BufferBlock is what a variable of another class than Uniform points to; or a runtime array is
/// anything but the last member of a storage block's struct (SPIR-V 1.6, section 3.20, and
/// "Type-Declaration Instructions", OpTypeRuntimeArray).
pub fn check_uses(alloc: Global, context: &Context) -> Result<(), Fault>
    ensures { IsChecked P17 (p17 context.now) result }
{
    let uses = find_misuses(alloc, context)?;
    refuse_at(Rule::P17, first_misused(context, &uses))
}

/// OpTypeInt that is not 32 bits wide, or of a signedness above 1.
fn is_other_int(inst: &Inst) -> bool
    ensures { result ≡ is_other_int_row inst.now }
{
    inst.op == Op::TypeInt && !(inst.is_uint() || inst.is_sint())
}

/// Whether an id is that of something else than OpTypeBool or OpTypeInt.
fn is_no_scalar(context: &Context, id: u32) -> bool
    ensures { result ≡ is_no_scalar_in context.now id }
{
    match context.global(id) {
        None => context.is_defined_elsewhere(id),
        Some(inst) => !(inst.op == Op::TypeBool || inst.op == Op::TypeInt),
    }
}

/// Whether a vector may have so many components.
fn is_vector_size(n: u32) -> bool
    ensures { result ≡ is_vector_size_in n }
{
    2 <= n && n <= 4
}

/// OpTypeVector without two to four bool or int components.
fn is_other_vector(context: &Context, inst: &Inst) -> bool
    ensures { result ≡ is_other_vector_in context.now inst.now }
{
    inst.op == Op::TypeVector
        && (!is_vector_size(inst.operand(1)) || is_no_scalar(context, inst.operand(0)))
}

/// Whether a type is OpTypeInt with a sign.
fn is_signed(context: &Context, id: u32) -> bool
    ensures { result ≡ is_signed_in context.now.globals id }
{
    context.global(id).map_or(false, |inst| inst.has_sign())
}

// The word of the least int: this one and all above are negative.
const LEAST_INT: u32 = 0x8000_0000;

/// Whether OpConstant is above 0.
fn is_above_zero(context: &Context, constant: &Inst) -> bool
    ensures { result ≡ is_above_zero_in context.now.globals constant.now }
{
    let word = constant.operand(0);
    0 < word && !(is_signed(context, constant.ty) && LEAST_INT <= word)
}

/// Whether a constant is of another type than int and uint.
fn is_no_int(context: &Context, constant: &Inst) -> bool
    ensures { result ≡ is_no_int_in context.now.globals constant.now }
{
    context
        .global(constant.ty)
        .map_or(false, |inst| inst.op != Op::TypeInt)
}

/// Whether a specialization constant may be the length of an array: it is an int, a Workgroup variable
/// is or holds the array, and nothing else does.
fn is_workgroup_length(holders: &Holders, constant: &Inst, array: u32) -> bool
    ensures { result ≡ is_workgroup_length_in holders.now constant.now array }
{
    !is_no_int(holders.context(), constant) && holders.is_of_workgroup_alone(array)
}

/// Whether a global instruction may be the length of an array.
fn is_length(holders: &Holders, array: u32, constant: &Inst) -> bool
    ensures { result ≡ is_length_in holders.now array constant.now }
{
    if constant.op == Op::Constant {
        is_above_zero(holders.context(), constant)
    } else {
        constant.op.is_specialization() && is_workgroup_length(holders, constant, array)
    }
}

/// Whether an id is that of no length of an array.
fn is_no_length(holders: &Holders, array: u32, id: u32) -> bool
    ensures { result ≡ option_map_or (λ c. not (is_length_in holders.now array c)) (global holders.now.globals id) (is_defined_elsewhere holders.now id) }
{
    match holders.context().global(id) {
        None => holders.context().is_defined_elsewhere(id),
        Some(inst) => !is_length(holders, array, inst),
    }
}

/// OpTypeArray of another length.
fn is_other_array(holders: &Holders, inst: &Inst) -> bool
    ensures { result ≡ is_other_array_in holders.now inst.now }
{
    inst.op == Op::TypeArray && is_no_length(holders, inst.result, inst.operand(1))
}

/// OpTypeStruct without members.
fn is_empty_struct(inst: &Inst) -> bool
    ensures { result ≡ is_empty_struct_row inst.now }
{
    inst.op == Op::TypeStruct && inst.args.is_empty()
}

/// Whether a type is void, a pointer or a function.
fn is_no_data(context: &Context, id: u32) -> bool
    ensures { result ≡ is_no_data_in context.now.globals id }
{
    match context.global(id) {
        None => false,
        Some(inst) => inst.op == Op::TypeVoid
            || inst.op == Op::TypePointer
            || inst.op == Op::TypeFunction,
    }
}

/// Whether a part of an array or struct is void, a pointer or a function.
fn holds_no_data(context: &Context, inst: &Inst) -> bool
    ensures { result ≡ list_any (is_no_data_in context.now.globals) (parts_in inst.now) }
{
    parts_of(inst).iter().any(|id| is_no_data(context, *id))
}

/// Whether an int, vector, array or struct is not formed as it has to be.
fn is_misformed(holders: &Holders, inst: &Inst) -> bool
    ensures { result ≡ is_misformed_in holders.now inst.now }
{
    let context = holders.context();
    is_other_int(inst)
        || is_other_vector(context, inst)
        || is_other_array(holders, inst)
        || is_empty_struct(inst)
        || holds_no_data(context, inst)
}

fn first_misformed<'a>(holders: &Holders<'_, 'a>) -> Option<&'a Inst>
    ensures { option_copied result ≡ find (is_misformed_in holders.now) holders.now.globals }
{
    let context = holders.context();
    context
        .globals()
        .iter()
        .find(|inst| is_misformed(holders, *inst))
}

/// P18: an int is not 32 bits wide or its signedness is above 1; a vector has not two to four bool or
/// int components; the length of an array is neither an OpConstant above 0 nor a specialization
/// constant that may be one; a struct has no member; or a part of an array or struct is void, a pointer
/// or a function (SPIR-V 1.6, "Type-Declaration Instructions").
pub fn check_form(alloc: Global, context: &Context) -> Result<(), Fault>
    ensures { IsChecked P18 (p18 context.now) result }
{
    let holders = Holders::of(alloc, context)?;
    refuse_at(Rule::P18, first_misformed(&holders))
}

/// OpTypePointer to a pointer, void or a function.
fn is_other_pointer(context: &Context, inst: &Inst) -> bool
    ensures { result ≡ is_other_pointer_in context.now.globals inst.now }
{
    inst.op == Op::TypePointer && is_no_data(context, inst.operand(1))
}

/// Whether a pointer type is of another class than Function, or to no value type.
fn is_no_variable(context: &Context, inst: &Inst) -> bool
    ensures { result ≡ is_no_variable_in context.now.heads context.now.globals inst.now }
{
    inst.operand(0) != StorageClass::Function.number() || context.is_no_value_type(inst.operand(1))
}

/// Whether a parameter is neither of a value type nor a Function pointer to one.
fn is_other_parameter(context: &Context, id: u32) -> bool
    ensures { result ≡ is_other_parameter_in context.now.heads context.now.globals id }
{
    match context.global(id) {
        None => false,
        Some(inst) => {
            if inst.op == Op::TypePointer {
                is_no_variable(context, inst)
            } else {
                context.is_no_value_type(id)
            }
        }
    }
}

/// Whether a result is neither void nor of a value type.
fn is_other_result(context: &Context, id: u32) -> bool
    ensures { result ≡ is_other_result_in context.now.heads context.now.globals id }
{
    match context.global(id) {
        None => false,
        Some(inst) => inst.op != Op::TypeVoid && context.is_no_value_type(id),
    }
}

fn has_other_parameter(context: &Context, inst: &Inst) -> bool
    ensures { result ≡ list_any (is_other_parameter_in context.now.heads context.now.globals) (drop 1 inst.now.args) }
{
    behind_first(inst)
        .iter()
        .any(|id| is_other_parameter(context, *id))
}

/// OpTypeFunction with another result or another parameter.
fn is_other_function(context: &Context, inst: &Inst) -> bool
    ensures { result ≡ is_other_function_in context.now.heads context.now.globals inst.now }
{
    inst.op == Op::TypeFunction
        && (is_other_result(context, inst.operand(0)) || has_other_parameter(context, inst))
}

fn first_other_signature<'a>(context: &Context<'a>) -> Option<&'a Inst>
    ensures { option_copied result ≡ find (λ t. is_other_pointer_in context.now.globals t || is_other_function_in context.now.heads context.now.globals t) context.now.globals }
{
    context.globals().iter().find(|inst| is_other_pointer(context, *inst)
        || is_other_function(context, *inst))
}

/// P19: a pointer points to a pointer, void or a function; or a function type has a parameter that is
/// neither of a value type nor a Function pointer to one, or a result that is neither void nor of a
/// value type (SPIR-V 1.6, "Type-Declaration Instructions").
pub fn check_signatures(context: &Context) -> Result<(), Fault>
    ensures { IsChecked P19 (p19 context.now) result }
{
    refuse_at(Rule::P19, first_other_signature(context))
}

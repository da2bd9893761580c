// The rules on variables.
ghost use Rattle.std.specs.Prelude.{◌≡◌, ◌==◌, ◌||◌, not, false, true, is_some, find, map, count_by};
ghost use Rattle.std.specs.Option.{option_copied, option_map_or};
ghost use Rattle.spv_index.specs.Pointers.{storage_class};
ghost use Rattle.spv_decor.specs.Rows.{value_of, word};
ghost use Rattle.spv_ops.specs.Enumerants.{decoration_number};
ghost use Rattle.spv_ops.specs.declared.Decoration.TheVariants as decoration;
ghost use Rattle.spv_words.specs.declared.rule.Rule.TheVariants.{P13, P14, P15, P16};
ghost use Rattle.profile_rules.specs.Places.{is_among, is_variable as is_variable_row};
ghost use Rattle.profile_rules.specs.Variables.{classes, is_other_class as is_other_class_in, is_misclassed as is_misclassed_in, is_pointee, pointed_type as pointed_type_in, inputs, is_other_input_type as is_other_input_type_in, is_other_input as is_other_input_in, is_buffer as is_buffer_row, is_push as is_push_row, is_no_block as is_no_block_in, is_unbound as is_unbound_in, is_other_block as is_other_block_in, is_of_other_type as is_of_other_type_in, is_other_value as is_other_value_in, is_other_initializer as is_other_initializer_in, p13, p14, p15, p16};
ghost use Rattle.declaration_check.specs.Checked.{IsChecked};
ghost use Rattle.declaration_check.specs.Kept.{variables_of};
ghost use Rattle.declaration_check.specs.Flaws.{has_flaw as has_flaw_in};

use crate::context::Context;
use crate::refusal::refuse_at;
use crate::size::is_no_uvec3;
use spv_module::Inst;
use spv_ops::{BuiltIn, Decoration, Op, StorageClass};
use spv_words::{Fault, Rule};

/// OpVariable.
pub fn is_variable(inst: &Inst) -> bool
    ensures { result ≡ is_variable_row inst.now }
{
    inst.op == Op::Variable
}

/// Input, Uniform, Workgroup, Private, Function, PushConstant and StorageBuffer (SPIR-V 1.6, section
/// 3.7).
fn is_class(class: u32) -> bool
    ensures { result ≡ is_among classes class }
{
    StorageClass::of(class).is_some()
}

/// Whether a type is a pointer of another class.
fn is_of_other_class(context: &Context, ty: u32, class: u32) -> bool
    ensures { result ≡ option_map_or (λ c. not (c == class)) (storage_class context.now.globals ty) false }
{
    context
        .storage_class(ty)
        .map_or(false, |other| other != class)
}

/// Whether the class of a variable is none of the profile's, or not its pointer's.
fn is_other_class(context: &Context, variable: &Inst) -> bool
    ensures { result ≡ is_other_class_in context.now.globals variable.now }
{
    !is_class(variable.operand(0)) || is_of_other_class(context, variable.ty, variable.operand(0))
}

/// Whether a variable is of such a class, or of class Function where it stands outside a function, or
/// of another class in one.
fn is_misclassed(context: &Context, inside: bool, inst: &Inst) -> bool
    ensures { result ≡ is_misclassed_in inside context.now.globals inst.now }
{
    let is_function = inst.operand(0) == StorageClass::Function.number();
    is_variable(inst)
        && (is_other_class(context, inst) || if inside { !is_function } else { is_function })
}

fn first_misclassed_outside<'a>(context: &Context<'a>) -> Option<&'a Inst>
    ensures { option_copied result ≡ find (is_misclassed_in false context.now.globals) context.now.globals }
{
    context
        .globals()
        .iter()
        .find(|inst| is_misclassed(context, false, *inst))
}

/// P13: the storage class of a variable is none of the profile's, or not its pointer's, or is Function
/// exactly where the variable stands outside a function (SPIR-V 1.6, section 3.7).
pub fn check_classes(context: &Context) -> Result<(), Fault>
    ensures { IsChecked P13 (p13 context.now) result }
{
    refuse_at(Rule::P13, first_misclassed_outside(context))?;
    refuse_at(
        Rule::P13,
        first_flawed(context, context.local_variables(), Flaw::Misclassed),
    )
}

/// NumWorkgroups, WorkgroupId, LocalInvocationId, GlobalInvocationId and LocalInvocationIndex (SPIR-V
/// 1.6, section 3.21).
fn is_input(built_in: u32) -> bool
    ensures { result ≡ is_among inputs built_in }
{
    match BuiltIn::of(built_in) {
        None | Some(BuiltIn::WorkgroupSize) => false,
        Some(_) => true,
    }
}

/// Whether a type is no uvec3, or for LocalInvocationIndex no uint.
fn is_other_input_type(context: &Context, built_in: u32, inst: &Inst) -> bool
    ensures { result ≡ is_other_input_type_in context.now.globals built_in inst.now }
{
    if built_in == BuiltIn::LocalInvocationIndex.number() {
        !inst.is_uint()
    } else {
        is_no_uvec3(context, inst)
    }
}

/// The type that a pointer type points to.
fn pointed_type<'a>(context: &Context<'a>, ty: u32) -> Option<&'a Inst>
    ensures { option_copied result ≡ pointed_type_in context.now.globals ty }
{
    context.type_row(context.pointee(ty)?)
}

/// Whether an Input variable of a built-in points to another type.
fn is_mistyped_input(context: &Context, built_in: u32, variable: &Inst) -> bool
    ensures { result ≡ is_pointee context.now.globals (is_other_input_type_in context.now.globals built_in) variable.now }
{
    match pointed_type(context, variable.ty) {
        None => false,
        Some(inst) => is_other_input_type(context, built_in, inst),
    }
}

/// Whether an Input variable is of none of these built-ins.
fn is_no_input(context: &Context, variable: &Inst) -> bool
    ensures { result ≡ option_map_or (λ b. not (is_among inputs b) || is_pointee context.now.globals (is_other_input_type_in context.now.globals b) variable.now) (value_of context.now.heads variable.now.result (decoration_number decoration.BuiltIn)) true }
{
    match context.value(variable.result, Decoration::BuiltIn.number()) {
        None => true,
        Some(built_in) => !is_input(built_in) || is_mistyped_input(context, built_in, variable),
    }
}

/// Whether this is an Input variable without a built-in, or of another type.
fn is_other_input(context: &Context, inst: &Inst) -> bool
    ensures { result ≡ is_other_input_in context.now.heads context.now.globals inst.now }
{
    is_variable(inst)
        && inst.operand(0) == StorageClass::Input.number()
        && is_no_input(context, inst)
}

/// P14: an Input variable lacks a BuiltIn of the profile other than WorkgroupSize, or its type is not
/// uvec3, or uint for LocalInvocationIndex (SPIR-V 1.6, section 3.21).
pub fn check_inputs(context: &Context) -> Result<(), Fault>
    ensures { IsChecked P14 (p14 context.now) result }
{
    refuse_at(
        Rule::P14,
        first_flawed(context, context.variables(), Flaw::OtherInput),
    )
}

/// Whether a variable is of class Uniform or StorageBuffer.
fn is_buffer(variable: &Inst) -> bool
    ensures { result ≡ is_buffer_row variable.now }
{
    variable.operand(0) == StorageClass::Uniform.number()
        || variable.operand(0) == StorageClass::StorageBuffer.number()
}

/// A variable of class PushConstant.
fn is_push(inst: &Inst) -> bool
    ensures { result ≡ is_push_row inst.now }
{
    is_variable(inst) && inst.operand(0) == StorageClass::PushConstant.number()
}

/// Whether a type is no struct that makes a block of a variable of this class.
fn is_no_block(context: &Context, class: u32, inst: &Inst) -> bool
    ensures { result ≡ is_no_block_in context.now.heads class inst.now }
{
    !(inst.op == Op::TypeStruct && context.is_block_struct(class, inst.result))
}

/// Whether a variable points to such a type.
fn points_to_no_block(context: &Context, variable: &Inst) -> bool
    ensures { result ≡ is_pointee context.now.globals (is_no_block_in context.now.heads (word variable.now 0)) variable.now }
{
    match pointed_type(context, variable.ty) {
        None => false,
        Some(inst) => is_no_block(context, variable.operand(0), inst),
    }
}

fn has_decoration(context: &Context, variable: &Inst, wanted: Decoration) -> bool
    ensures { result ≡ is_some (value_of context.now.heads variable.now.result (decoration_number wanted)) }
{
    context.value(variable.result, wanted.number()).is_some()
}

/// Whether a variable lacks DescriptorSet or Binding.
fn is_unbound(context: &Context, variable: &Inst) -> bool
    ensures { result ≡ is_unbound_in context.now.heads variable.now }
{
    !(has_decoration(context, variable, Decoration::DescriptorSet)
        && has_decoration(context, variable, Decoration::Binding))
}

/// Whether this is a variable of class Uniform, StorageBuffer or PushConstant that is no block, or lacks
/// a set or binding, or is one of several PushConstant variables.
#[tactic(auto, unfolding(profile_rules::specs::Variables::is_other_block))]
fn is_other_block(context: &Context, pushes: usize, inst: &Inst) -> bool
    ensures { result ≡ is_other_block_in context.now.heads context.now.globals pushes inst.now }
{
    is_variable(inst)
        && ((is_buffer(inst) || is_push(inst)) && points_to_no_block(context, inst)
            || is_buffer(inst) && is_unbound(context, inst)
            || is_push(inst) && pushes >= 2)
}

/// How many PushConstant variables there are.
#[tactic(auto, using(crate::proofs::Finds::count_rules))]
fn count_pushes(context: &Context) -> usize
    ensures { result ≡ count_by is_push_row (variables_of context.now) }
{
    let mut count = 0;
    for inst in context.variables() {
        if is_push(*inst) {
            count += 1;
        }
    }
    count
}

fn block_fault<'a>(context: &Context<'a>) -> Option<&'a Inst>
    ensures { option_copied result ≡ find (is_other_block_in context.now.heads context.now.globals (count_by is_push_row (variables_of context.now))) (variables_of context.now) }
{
    let pushes = count_pushes(context);
    first_flawed(context, context.variables(), Flaw::OtherBlock(pushes))
}

/// P15: a StorageBuffer or PushConstant variable does not point to a struct decorated Block; or a
/// Uniform variable does not point to one decorated Block or BufferBlock; or a Uniform or StorageBuffer
/// variable lacks DescriptorSet or Binding; or there are two PushConstant variables (SPIR-V 1.6,
/// section 3.20).
pub fn check_blocks(context: &Context) -> Result<(), Fault>
    ensures { IsChecked P15 (p15 context.now) result }
{
    refuse_at(Rule::P15, block_fault(context))
}

/// Whether a constant is of another type than a variable points to.
fn is_of_other_type(context: &Context, variable: &Inst, constant: &Inst) -> bool
    ensures { result ≡ is_of_other_type_in context.now.globals variable.now constant.now }
{
    context
        .pointee(variable.ty)
        .map_or(false, |ty| constant.ty != ty)
}

/// Whether an initializer is no constant, or of another type.
fn is_other_value(context: &Context, variable: &Inst, id: u32) -> bool
    ensures { result ≡ is_other_value_in context.now variable.now id }
{
    match context.global(id) {
        None => context.is_defined_elsewhere(id),
        Some(inst) => !inst.op.is_constant() || is_of_other_type(context, variable, inst),
    }
}

/// Whether this is a variable with an initializer that is another value, or stands on another class
/// than Function or Private.
fn is_other_initializer(context: &Context, inst: &Inst) -> bool
    ensures { result ≡ is_other_initializer_in context.now inst.now }
{
    is_variable(inst)
        && 1 < inst.args.len()
        && (!(inst.operand(0) == StorageClass::Function.number()
            || inst.operand(0) == StorageClass::Private.number())
            || is_other_value(context, inst, inst.operand(1)))
}

/// P16: an initializer stands on another class than Function or Private, or is no constant of the type
/// that the variable points to (SPIR-V 1.6, "Memory Instructions", OpVariable).
pub fn check_initializers(context: &Context) -> Result<(), Fault>
    ensures { IsChecked P16 (p16 context.now) result }
{
    refuse_at(
        Rule::P16,
        first_flawed(context, context.variables(), Flaw::OtherInitializer),
    )
}

/// What a variable may not be.
#[derive(Clone, Copy)]
enum Flaw {
    /// A variable of a function whose class is not Function, or not its pointer's.
    Misclassed,
    /// An Input variable that is none of the profile's.
    OtherInput,
    /// A block that is none of the profile's, where there are so many PushConstant variables.
    OtherBlock(usize),
    /// A variable whose initializer is not of the profile.
    OtherInitializer,
}

fn has_flaw(context: &Context, flaw: Flaw, variable: &Inst) -> bool
    ensures { result ≡ has_flaw_in context.now flaw variable.now }
{
    match flaw {
        Flaw::Misclassed => is_misclassed(context, true, variable),
        Flaw::OtherInput => is_other_input(context, variable),
        Flaw::OtherBlock(pushes) => is_other_block(context, pushes, variable),
        Flaw::OtherInitializer => is_other_initializer(context, variable),
    }
}

/// The first of these variables that is what it may not be.
#[tactic(auto, using(crate::proofs::Finds::behind_rules))]
fn first_flawed<'a>(context: &Context<'a>, variables: &[&'a Inst], flaw: Flaw) -> Option<&'a Inst>
    ensures { option_copied result ≡ find (has_flaw_in context.now flaw) (map (λ i. i.now) variables.now) }
{
    for inst in variables {
        if has_flaw(context, flaw, *inst) {
            return Some(*inst);
        }
    }
    None
}

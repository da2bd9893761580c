// The rules on capabilities, imports and the memory model.
ghost use Rattle.std.specs.Prelude.{◌≡◌, ◌==◌, not, find, IfOk};
ghost use Rattle.std.specs.Option.{option_copied};
ghost use Rattle.spv_words.specs.declared.rule.Rule.TheVariants.{P5, P6, P7};
ghost use Rattle.profile_rules.specs.Heads.{is_other_capability as is_other_capability_row, is_known_set as is_known_name, is_other_import as is_other_import_row, is_memory_model as is_memory_model_row, is_other_model as is_other_model_row, has_memory_model as has_one, p5, p6, p7};
ghost use Rattle.declaration_check.specs.Checked.{IsChecked};

use crate::context::Context;
use crate::refusal::{refuse_at, refuse_if};
use spv_decor::text_of;
use spv_module::Inst;
use spv_ops::{AddressingModel, Capability, MemoryModel, Op};
use spv_words::{Fault, Rule};
use std::alloc::{AllocError, Global};

/// OpCapability of another capability than Matrix and Shader.
fn is_other_capability(inst: &Inst) -> bool
    ensures { result ≡ is_other_capability_row inst.now }
{
    inst.op == Op::Capability
        && !(inst.operand(0) == Capability::Matrix.number()
            || inst.operand(0) == Capability::Shader.number())
}

fn first_other_capability<'a>(context: &Context<'a>) -> Option<&'a Inst>
    ensures { option_copied result ≡ find is_other_capability_row context.now.heads }
{
    context
        .heads()
        .iter()
        .find(|inst| is_other_capability(*inst))
}

/// P5: a capability other than Matrix and Shader (SPIR-V 1.6, section 3.31).
pub fn check_capabilities(context: &Context) -> Result<(), Fault>
    ensures { IsChecked P5 (p5 context.now.heads) result }
{
    refuse_at(Rule::P5, first_other_capability(context))
}

#[tactic(auto, unfolding(profile_rules::specs::Heads::is_known_set))]
fn is_known_set(name: &[u8]) -> bool
    ensures { result ≡ is_known_name name.now }
{
    name == b"GLSL.std.450".as_slice() || name.starts_with(b"NonSemantic.".as_slice())
}

/// OpExtInstImport of a set that is neither GLSL.std.450 nor non-semantic.
fn is_other_import(alloc: Global, inst: &Inst) -> Result<bool, AllocError>
    ensures { IfOk result (λ other. other ≡ is_other_import_row inst.now) }
{
    if inst.op != Op::ExtInstImport {
        return Ok(false);
    }
    let name = text_of(alloc, inst.args.as_slice())?;
    Ok(!is_known_set(&name))
}

#[tactic(auto, using(crate::proofs::Finds::find_rules))]
fn first_other_import<'a>(
    alloc: Global,
    context: &Context<'a>,
) -> Result<Option<&'a Inst>, AllocError>
    ensures { IfOk result (λ found. option_copied found ≡ find is_other_import_row context.now.heads) }
{
    for inst in context.heads() {
        if is_other_import(alloc, inst)? {
            return Ok(Some(inst));
        }
    }
    Ok(None)
}

/// P6: an import that is neither `GLSL.std.450` nor begins with `NonSemantic.` (SPIR-V 1.6, "Extension
/// Instructions", OpExtInstImport).
pub fn check_imports(alloc: Global, context: &Context) -> Result<(), Fault>
    ensures { IsChecked P6 (p6 context.now.heads) result }
{
    let found = first_other_import(alloc, context)?;
    refuse_at(Rule::P6, found)
}

fn is_memory_model(inst: &Inst) -> bool
    ensures { result ≡ is_memory_model_row inst.now }
{
    inst.op == Op::MemoryModel
}

fn is_other_model(inst: &Inst) -> bool
    ensures { result ≡ is_other_model_row inst.now }
{
    is_memory_model(inst)
        && !(inst.operand(0) == AddressingModel::Logical.number()
            && inst.operand(1) == MemoryModel::GLSL450.number())
}

fn has_memory_model(context: &Context) -> bool
    ensures { result ≡ has_one context.now.heads }
{
    context
        .heads()
        .iter()
        .filter(|inst| is_memory_model(*inst))
        .count()
        == 1
}

fn first_other_model<'a>(context: &Context<'a>) -> Option<&'a Inst>
    ensures { option_copied result ≡ find is_other_model_row context.now.heads }
{
    context.heads().iter().find(|inst| is_other_model(*inst))
}

/// P7: not exactly one memory model, or one that is not Logical GLSL450 (SPIR-V 1.6, section 3.5).
pub fn check_memory_model(context: &Context) -> Result<(), Fault>
    ensures { IsChecked P7 (p7 context.now.heads) result }
{
    refuse_if(Rule::P7, !has_memory_model(context), 0)?;
    refuse_at(Rule::P7, first_other_model(context))
}

// The rules on what a module declares.
ghost use Rattle.std.specs.Prelude.{◌≡◌, ◌∷◌, [], option_map, IfOk, IfErr, OnOk, IsSomeAnd};
ghost use Rattle.spv_words.specs.Breaks.{NoRuleBroken};
ghost use Rattle.spv_words.specs.declared.rule.Rule.TheVariants.{P5, P6, P7, P8, P9, P10, P13, P14, P15, P16, P17, P18, P19, P20};
ghost use Rattle.spv_decor.specs.Rows.{word as word_of};
ghost use Rattle.profile_rules.specs.Entry.{chosen, group_size as group_size_in};
ghost use Rattle.profile_rules.specs.DataRules.{Broken, IsRight, data_rules, form_rules};
ghost use Rattle.spv_module.specs.declared.inst.Inst.{Inst};
ghost use Rattle.declaration_check.specs.Grouped.{AreChecked, AreUnbroken, IsBroken};

use crate::choice::chosen_entry;
use crate::context::Context;
use crate::heads::{check_capabilities, check_imports, check_memory_model};
use crate::kernel::{check_kernel, check_modes};
use crate::size::{check_size, group_size};
use crate::spec_ids::check_spec_ids;
use crate::types::{check_form, check_signatures, check_uses};
use crate::variables::{check_blocks, check_classes, check_initializers, check_inputs};
use profile_rules::SizePart;
use spv_decor::Decor;
use spv_module::{Id, Inst, Module};
use spv_words::Fault;
use std::alloc::Global;

/// The chosen entry point: its function, and the parts of the size of its workgroups in x, y and z.
#[derive(Drop)]
pub struct Entry {
    pub function: Id,
    pub size: Vec<SizePart>,
}

/// The rules on the head.
fn check_head(alloc: Global, context: &Context, entry: &Inst) -> Result<(), Fault>
    ensures { AreChecked context.now entry.now (P5 ∷ P6 ∷ P7 ∷ P8 ∷ P9 ∷ P10 ∷ []) result }
{
    check_capabilities(context)?;
    check_imports(alloc, context)?;
    check_memory_model(context)?;
    check_kernel(context, entry)?;
    check_modes(context, entry)?;
    check_size(context, entry)?;
    Ok(())
}

/// The rules on variables.
fn check_variables(context: &Context) -> Result<(), Fault>
    ensures { (entry : Inst) → AreChecked context.now entry (P13 ∷ P14 ∷ P15 ∷ P16 ∷ []) result }
{
    check_classes(context)?;
    check_inputs(context)?;
    check_blocks(context)?;
    check_initializers(context)?;
    Ok(())
}

/// The rules on types and specialization constants.
fn check_types(alloc: Global, context: &Context) -> Result<(), Fault>
    ensures { (entry : Inst) → AreChecked context.now entry (P17 ∷ P18 ∷ P19 ∷ P20 ∷ []) result }
{
    check_uses(alloc, context)?;
    check_form(alloc, context)?;
    check_signatures(context)?;
    check_spec_ids(alloc, context)?;
    Ok(())
}

/// The rules on the head, variables and types, where an entry point is chosen.
fn check_all(alloc: Global, context: &Context, entry: &Inst) -> Result<(), Fault>
    ensures passes { OnOk result (AreUnbroken context.now entry.now form_rules) }
    ensures refused { IfErr result (IsBroken context.now entry.now) }
{
    check_head(alloc, context, entry)?;
    check_variables(context)?;
    check_types(alloc, context)?;
    Ok(())
}

/// Judges what a module declares, and finds the entry point: the one of a name, or the only one where
/// none is given.
///
/// It refuses by X1 or X2 where not exactly one entry point can be chosen; and where one can by P5 to
/// P10 and P13 to P20: the head, the entry point and the size of its workgroups, variables and types
/// (SPIR-V 1.6, sections 2.4 and 3). A rule is named only where it is broken at that word. The only other
/// error is want of memory.
#[tactic(auto, using(crate::proofs::Judged::judged_rules))]
pub fn check_declarations(
    alloc: Global,
    module: &Module,
    decor: &Decor,
    entry: Option<&str>,
) -> Result<Entry, Fault>
    requires { decor.now ≡ «module».now.heads }
    ensures passes { OnOk result (NoRuleBroken (Broken «module».now (option_map (λ n. n.now) entry.entry)) data_rules) }
    ensures chosen { IfOk result (λ e. IsSomeAnd (chosen (option_map (λ n. n.now) entry.entry) «module».now.heads) (λ i. e.function.0 ≡ word_of i 1)) }
    ensures size { IfOk result (λ e. e.size.items ≡ group_size_in «module».now e.function.0) }
    ensures refused { IfErr result (IsRight «module».now (option_map (λ n. n.now) entry.entry)) }
{
    let context = Context::of(alloc, module, decor)?;
    let inst = chosen_entry(alloc, &context, entry)?;
    check_all(alloc, &context, inst)?;
    let function = inst.operand(1);
    Ok(Entry {
        function: Id(function),
        size: group_size(alloc, &context, function)?,
    })
}

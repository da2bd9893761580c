// The layouts of a module's block variables, where no plan of them is asked for.
ghost use Rattle.std.specs.Prelude.{◌≡◌, ℕ, IfErr, IfSome, OnOk};
ghost use Rattle.std.specs.BTreeSet.{contains};
ghost use Rattle.std.specs.Ordering.{nat_cmp};
ghost use Rattle.spv_words.specs.declared.rule.Rule.{Rule};
ghost use Rattle.layout_rules.specs.Blocks.{Broken as BreaksLayout};
ghost use Rattle.profile_check.specs.Data.{IsLayoutRight};
ghost use Rattle.profile_check.specs.Layouts.{struct_in, IsLaidOut, AreJudged, AreLaidOut};

use buffer_layout::{block_of, check_block};
use spv_decor::Decor;
use spv_index::pointer;
use spv_module::{Id, Module};
use spv_ops::StorageClass;
use spv_words::Fault;
use std::alloc::Global;
use std::collections::BTreeSet;

/// The struct that a block variable of a storage class points to.
fn struct_of(module: &Module, id: Id, class: u32) -> Option<u32>
    ensures { result ≡ struct_in «module».now.globals class id.0 }
{
    let variable = module.global(id)?;
    if variable.operand(0) != class || block_of(module, variable).is_none() {
        return None;
    }
    Some(pointer(module, Id(variable.ty))?.pointee.0)
}

/// Judges the block of a variable, where the variable has this storage class and its struct was not
/// judged for it before.
#[tactic(auto, using(crate::proofs::Laid::judge_rules, crate::proofs::Causes::block_cause))]
fn judge(
    alloc: Global,
    module: &Module,
    decor: &Decor,
    class: u32,
    id: Id,
    judged: &mut BTreeSet<u32>,
) -> Result<(), Fault>
    requires heads { decor.now ≡ «module».now.heads }
    requires before { AreJudged «module».now class (contains nat_cmp judged.old) }
    ensures laid_out { OnOk result (IfSome (struct_in «module».now.globals class id.0) (IsLaidOut «module».now class)) }
    ensures judged { OnOk result (AreJudged «module».now class (contains nat_cmp judged.new)) }
    ensures refused { IfErr result (IsLayoutRight «module».now) }
{
    let Some(block) = struct_of(module, id, class) else {
        return Ok(());
    };
    if judged.contains(&block) {
        return Ok(());
    }
    let _ = check_block(alloc, module, decor, id)?;
    judged.insert(block)?;
    Ok(())
}

/// Judges the blocks of the variables of a storage class, each struct once.
fn check_class(alloc: Global, module: &Module, decor: &Decor, class: u32) -> Result<(), Fault>
    requires { decor.now ≡ «module».now.heads }
    ensures passes { OnOk result (AreLaidOut «module».now class «module».now.globals) }
    ensures refused { IfErr result (IsLayoutRight «module».now) }
{
    let mut judged = BTreeSet::new(alloc);
    for inst in module.globals() {
        judge(alloc, module, decor, class, Id(inst.result), &mut judged)?;
    }
    Ok(())
}

/// Judges the layouts of all block variables. It refuses by a rule on layout that one of them breaks,
/// and by a limit that a type of the module passes.
pub fn check_layouts(alloc: Global, module: &Module, decor: &Decor) -> Result<(), Fault>
    requires { decor.now ≡ «module».now.heads }
    ensures laid_out { OnOk result ((rule : Rule) (at : ℕ) → BreaksLayout «module».now rule at → ⊥) }
    ensures refused { IfErr result (IsLayoutRight «module».now) }
{
    check_class(alloc, module, decor, StorageClass::Uniform.number())?;
    check_class(alloc, module, decor, StorageClass::PushConstant.number())?;
    check_class(alloc, module, decor, StorageClass::StorageBuffer.number())?;
    Ok(())
}

// The plans of a module's block variables.
ghost use Rattle.std.specs.Prelude.{◌≡◌, IfOk, IfErr};
ghost use Rattle.profile_check.specs.Data.{block_variables, ArePlans, IsLayoutRight};

use buffer_layout::{BlockPlan, check_block, is_block_variable};
use spv_decor::Decor;
use spv_module::{Id, Module};
use spv_words::Fault;
use std::alloc::Global;

/// The plans of the block variables, in the order of the module. It refuses by a rule on layout that
/// one of them breaks, and by a limit that a type of the module passes.
#[tactic(auto, using(crate::proofs::Plans::plan_rules, crate::proofs::Causes::block_cause))]
pub fn plans(alloc: Global, module: &Module, decor: &Decor) -> Result<Vec<BlockPlan>, Fault>
    requires { decor.now ≡ «module».now.heads }
    ensures plans { IfOk result (λ plans. ArePlans «module».now (block_variables «module».now.globals) plans.items) }
    ensures refused { IfErr result (IsLayoutRight «module».now) }
{
    let mut plans = Vec::new(alloc);
    for inst in module.globals() {
        let id = Id(inst.result);
        if is_block_variable(module, id) {
            plans.push(check_block(alloc, module, decor, id)?)?;
        }
    }
    Ok(plans)
}

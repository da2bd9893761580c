// The claims of flags, captured indexes and spares, and all claims.
ghost use Rattle.std.specs.Prelude.{◌≡◌, ◌++◌, IfOk, OnOk, flat_map, map};
ghost use Rattle.std.specs.List.{All, enumerate_from};
ghost use Rattle.text_rules.specs.Claims.{label as label_of, claim_captured as claims_of_captured, claim_spares as claims_of_spares, claim_flow as claims_of_flow, claim_function as claims_of_function, claims as all_claims};
ghost use Rattle.text_items.specs.Claimed.{claim_flows as claims_of_flows};
ghost use Rattle.few_law.specs.Short.{HasFewArgs, IsShortBlock, IsShort};
ghost use Rattle.text_items.specs.View.{claims_of};

use crate::Written;
use crate::functions::Claimant;
use crate::list::ClaimList;
use name_alloc::{Claim, Key};
use spv_module::{Block, Function, Id, Inst};
use spv_words::Memory;
use std::alloc::Global;
use text_rules::FunctionClaims;

/// The label of the block with an index, 0 where there is none.
fn label(function: &Function, block: usize) -> Id
    ensures { result.0 ≡ label_of function.now block }
{
    match function.blocks.as_slice().get(block) {
        None => Id(0),
        Some(block) => block.label,
    }
}

impl ClaimList {
    fn claim_captured<P: FunctionClaims>(&mut self, plan: &P, inst: &Inst) -> Result<(), Memory>
        requires { HasFewArgs inst.now }
        ensures { OnOk result (self.new ≡ self.old ++ claims_of_captured (P.plan plan.now) inst.now) }
    {
        if !plan.has_captured(inst) {
            return Ok(());
        }
        let numbers = plan.captured(self.alloc(), inst)?;
        for number in &numbers {
            self.add_flag(true, Key::Captured(Id(inst.result), *number))?;
        }
        Ok(())
    }

    fn claim_indexes<P: FunctionClaims>(&mut self, plan: &P, insts: &[Inst]) -> Result<(), Memory>
        requires { All HasFewArgs insts.now }
        ensures { OnOk result (self.new ≡ self.old ++ flat_map (claims_of_captured (P.plan plan.now)) insts.now) }
    {
        for inst in insts {
            self.claim_captured(plan, inst)?;
        }
        Ok(())
    }

    fn claim_spares<P: FunctionClaims>(
        &mut self,
        plan: &P,
        from: usize,
        to: usize,
    ) -> Result<(), Memory>
        ensures { OnOk result (self.new ≡ self.old ++ claims_of_spares (P.plan plan.now) from to) }
    {
        let source = label(plan.function(), from);
        let target = label(plan.function(), to);
        for number in 0..plan.spares(from, to) {
            self.add_flag(true, Key::Spare(source, target, number))?;
        }
        Ok(())
    }

    fn claim_edges<P: FunctionClaims>(
        &mut self,
        plan: &P,
        from: usize,
        targets: &[usize],
    ) -> Result<(), Memory>
        ensures { OnOk result (self.new ≡ self.old ++ flat_map (claims_of_spares (P.plan plan.now) from) targets.now) }
    {
        for target in targets {
            self.claim_spares(plan, from, *target)?;
        }
        Ok(())
    }

    /// Adds the spares of the edges that leave a block.
    fn claim_own_spares<P: FunctionClaims>(&mut self, plan: &P, from: usize) -> Result<(), Memory>
        ensures { OnOk result (self.new ≡ self.old ++ flat_map (claims_of_spares (P.plan plan.now) from) ((P.plan plan.now).targets from)) }
    {
        if !plan.has_spares(from) {
            return Ok(());
        }
        let targets = plan.targets(self.alloc(), from)?;
        self.claim_edges(plan, from, &targets)?;
        Ok(())
    }

    /// Adds what a block claims besides: flags, captured indexes, and the spares of the edges that leave it.
    fn claim_flow<P: FunctionClaims>(
        &mut self,
        plan: &P,
        index: usize,
        block: &Block,
    ) -> Result<(), Memory>
        requires { IsShortBlock block.now }
        ensures { OnOk result (self.new ≡ self.old ++ claims_of_flow (P.plan plan.now) (index, block.now)) }
    {
        self.add_flag(plan.again(index), Key::Again(block.label))?;
        self.add_flag(plan.leave(index), Key::Leave(block.label))?;
        self.add_flag(plan.fell(index), Key::Fell(block.label))?;
        self.claim_indexes(plan, block.insts.as_slice())?;
        self.claim_own_spares(plan, index)?;
        Ok(())
    }

    fn claim_flows<P: FunctionClaims>(&mut self, plan: &P, blocks: &[Block]) -> Result<(), Memory>
        requires { All IsShortBlock blocks.now }
        ensures { OnOk result (self.new ≡ self.old ++ flat_map (claims_of_flow (P.plan plan.now)) (enumerate_from 0 blocks.now)) }
    {
        for (index, block) in blocks.iter().enumerate() {
            self.claim_flow(plan, index, block)?;
        }
        Ok(())
    }

    fn claim_own_flows<P: FunctionClaims>(
        &mut self,
        plan: &P,
        function: &Function,
    ) -> Result<(), Memory>
        requires function { function.now ≡ (P.plan plan.now).function }
        requires short { IsShort function.now }
        ensures { OnOk result (self.new ≡ self.old ++ claims_of_flows (P.plan plan.now)) }
    {
        self.claim_flows(plan, function.blocks.as_slice())?;
        Ok(())
    }

    fn claim_functions<P: FunctionClaims>(
        &mut self,
        written: &Written,
        plans: &[P],
    ) -> Result<(), Memory>
        ensures { OnOk result (self.new ≡ self.old ++ flat_map (claims_of_function written.now.source) (map P.plan plans.now)) }
    {
        for plan in plans {
            let claimant = Claimant { written, plan };
            claimant.claim(self)?;
        }
        Ok(())
    }

    fn claim_all_flows<P: FunctionClaims>(&mut self, plans: &[P]) -> Result<(), Memory>
        ensures { OnOk result (self.new ≡ self.old ++ flat_map claims_of_flows (map P.plan plans.now)) }
    {
        for plan in plans {
            self.claim_own_flows(plan, plan.function())?;
        }
        Ok(())
    }
}

/// The claims of all names of a text in their order, where these are the plans of the functions that are written, in the order
/// of the module: `main`; the globals that are written; the functions with their parameters and variables; flags, captured indexes
/// and spares. There is an error only for want of memory.
pub fn claims<P: FunctionClaims>(
    alloc: Global,
    written: &Written,
    plans: &[P],
) -> Result<Vec<Claim>, Memory>
    requires { All HasFewArgs written.now.source.of.globals }
    ensures { IfOk result (λ claims. claims_of claims.items ≡ all_claims written.now.source written.now.reached (map P.plan plans.now)) }
{
    let mut claims = ClaimList::with_capacity(alloc, written.inst_count())?;
    claims.add_flag(true, Key::Main)?;
    claims.claim_globals(written)?;
    claims.claim_functions(written, plans)?;
    claims.claim_all_flows(plans)?;
    Ok(claims.into_claims())
}

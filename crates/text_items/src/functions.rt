// The claims of the names of functions, their parameters and their variables.
ghost use Rattle.std.specs.Prelude.{◌≡◌, ◌++◌, OnOk, flat_map};
ghost use Rattle.text_rules.specs.Claims.{claim_function as claims_of_function};
ghost use Rattle.text_items.specs.Claimed.{claim_own as claim_of_own, claim_param, claim_result, claim_all};

use crate::Written;
use crate::list::ClaimList;
use spv_module::{Block, Function, Id, Inst};
use spv_words::Memory;
use text_rules::FunctionClaims;

/// A function that is written, by its plan, and what of its module is written.
#[derive(Clone, Copy)]
pub struct Claimant<'w, 'a, 'b, P: FunctionClaims> {
    pub written: &'w Written<'a, 'b>,
    pub plan: &'w P,
}

impl<P: FunctionClaims> Claimant<'_, '_, '_, P> {
    /// Adds the claim of the function's own name, but for the entry, which is `main`.
    fn claim_own(&self, id: Id, claims: &mut ClaimList) -> Result<(), Memory>
        ensures { OnOk result (claims.new ≡ claims.old ++ claim_of_own self.now.written.now.source id.0) }
    {
        if id.0 == self.written.entry().0 {
            Ok(())
        } else {
            claims.claim_id(self.written, id)
        }
    }

    /// Adds the claims of its parameters.
    fn claim_params(&self, params: &[(Id, Id)], claims: &mut ClaimList) -> Result<(), Memory>
        ensures { OnOk result (claims.new ≡ claims.old ++ flat_map (claim_param self.now.written.now.source) params.now) }
    {
        for (id, _) in params {
            claims.claim_id(self.written, *id)?;
        }
        Ok(())
    }

    /// Adds the claim of a result, where it has a variable.
    fn claim_named(&self, inst: &Inst, claims: &mut ClaimList) -> Result<(), Memory>
        ensures { OnOk result (claims.new ≡ claims.old ++ claim_result self.now.written.now.source (P.plan self.now.plan.now) inst.now) }
    {
        if self.plan.is_named(inst.result) {
            claims.claim_id(self.written, Id(inst.result))
        } else {
            Ok(())
        }
    }

    fn claim_insts(&self, insts: &[Inst], claims: &mut ClaimList) -> Result<(), Memory>
        ensures { OnOk result (claims.new ≡ claims.old ++ flat_map (claim_result self.now.written.now.source (P.plan self.now.plan.now)) insts.now) }
    {
        for inst in insts {
            self.claim_named(inst, claims)?;
        }
        Ok(())
    }

    fn claim_blocks(&self, blocks: &[Block], claims: &mut ClaimList) -> Result<(), Memory>
        ensures { OnOk result (claims.new ≡ claims.old ++ flat_map (claim_result self.now.written.now.source (P.plan self.now.plan.now)) (flat_map (λ b. b.insts) blocks.now)) }
    {
        for block in blocks {
            self.claim_insts(block.insts.as_slice(), claims)?;
        }
        Ok(())
    }

    fn claim_parts(&self, function: &Function, claims: &mut ClaimList) -> Result<(), Memory>
        ensures { OnOk result (claims.new ≡ claims.old ++ claim_all self.now.written.now.source (P.plan self.now.plan.now) function.now) }
    {
        self.claim_own(function.id, claims)?;
        self.claim_params(function.params.as_slice(), claims)?;
        self.claim_blocks(function.blocks.as_slice(), claims)?;
        Ok(())
    }

    /// Adds the claims of the function: its own, its parameters, and the results that have variables.
    pub fn claim(&self, claims: &mut ClaimList) -> Result<(), Memory>
        ensures { OnOk result (claims.new ≡ claims.old ++ claims_of_function self.now.written.now.source (P.plan self.now.plan.now)) }
    {
        self.claim_parts(self.plan.function(), claims)?;
        Ok(())
    }
}

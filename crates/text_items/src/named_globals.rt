// The claims of the names of globals.
ghost use Rattle.std.specs.Prelude.{◌≡◌, ◌<◌, ◌^◌, ◌++◌, ◌∷◌, ◌||◌, ◌&&◌, [], ℕ, IfOk, OnOk, flat_map, length, map};
ghost use Rattle.std.specs.List.{All, enumerate_from};
ghost use Rattle.std.specs.BTreeSet.{contains};
ghost use Rattle.std.specs.Ordering.{nat_cmp};
ghost use Rattle.text_rules.specs.Printed.{is_written_variable};
ghost use Rattle.text_rules.specs.Claims.{claim_id as claim_of_id, has_block, is_written_block, claim_members as claims_of_members, claim_variable as claims_of_variable, claim_global as claims_of_global};
ghost use Rattle.text_items.specs.Claimed.{claim_member as claim_of_member};
ghost use Rattle.few_law.specs.Short.{HasFewArgs};

use crate::Written;
use crate::list::ClaimList;
use crate::numbers::counted;
use buffer_layout::block_of;
use name_alloc::Key;
use spv_module::{Id, Inst};
use spv_ops::Op;
use spv_words::Memory;
use std::alloc::{AllocError, Global};
use std::collections::BTreeSet;

/// Adds the struct of a variable's block, where it is written.
fn add_block(structs: &mut BTreeSet<u32>, written: &Written, inst: &Inst) -> Result<(), AllocError>
    ensures { OnOk result ((id : ℕ) → contains nat_cmp structs.new id ≡ (contains nat_cmp structs.old id || (is_written_variable written.now.reached inst.now && has_block written.now.source id inst.now))) }
{
    if !written.has_variable(inst) {
        return Ok(());
    }
    if let Some(block) = block_of(written.module(), inst) {
        structs.insert(block.result)?;
    }
    Ok(())
}

/// The structs of the blocks that are written.
fn block_structs(alloc: Global, written: &Written) -> Result<BTreeSet<u32>, Memory>
    ensures { IfOk result (λ structs. (id : ℕ) → contains nat_cmp structs id ≡ is_written_block written.now.source written.now.reached id) }
{
    let mut structs = BTreeSet::new(alloc);
    for inst in written.module().globals() {
        add_block(&mut structs, written, inst)?;
    }
    Ok(structs)
}

impl ClaimList {
    /// Adds the claim of an id.
    #[inline(always)]
    pub fn claim_id(&mut self, written: &Written, id: Id) -> Result<(), Memory>
        ensures { OnOk result (self.new ≡ self.old ++ claim_of_id written.now.source id.0) }
    {
        self.add(Key::Id(id), written.decor().name(id))
    }

    /// Adds the claim of a member of a struct, by its number and the id of its type.
    fn claim_member(
        &mut self,
        written: &Written,
        inst: &Inst,
        k: usize,
        ty: u32,
    ) -> Result<(), Memory>
        requires { k < 2 ^ 32 }
        ensures { OnOk result (self.new ≡ self.old ++ claim_of_member written.now.source inst.now (k, ty) ∷ []) }
    {
        let id = Id(inst.result);
        let number = counted(k);
        let name = written.decor().member_name(id, number);
        self.add(Key::Member(id, number), name)?;
        Ok(())
    }

    fn claim_each(&mut self, written: &Written, inst: &Inst, types: &[u32]) -> Result<(), Memory>
        requires { length types.now < 2 ^ 32 }
        ensures { OnOk result (self.new ≡ self.old ++ map (claim_of_member written.now.source inst.now) (enumerate_from 0 types.now)) }
    {
        for (k, ty) in types.iter().enumerate() {
            self.claim_member(written, inst, k, *ty)?;
        }
        Ok(())
    }

    fn claim_members(&mut self, written: &Written, inst: &Inst) -> Result<(), Memory>
        requires { HasFewArgs inst.now }
        ensures { OnOk result (self.new ≡ self.old ++ claims_of_members written.now.source inst.now) }
    {
        self.claim_each(written, inst, inst.args.as_slice())?;
        Ok(())
    }

    /// Adds the claims of a variable: its own name, and that of its block, which is by the block's struct.
    fn claim_variable(&mut self, written: &Written, inst: &Inst) -> Result<(), Memory>
        ensures { OnOk result (self.new ≡ self.old ++ claims_of_variable written.now.source inst.now) }
    {
        let id = Id(inst.result);
        self.claim_id(written, id)?;
        match block_of(written.module(), inst) {
            None => Ok(()),
            Some(block) => {
                let struct_id = Id(block.result);
                let name = written.decor().name(struct_id);
                self.add(Key::Block(id, struct_id), name)
            }
        }
    }

    /// Adds the claims of a global that is written.
    fn claim_global(
        &mut self,
        written: &Written,
        blocks: &BTreeSet<u32>,
        inst: &Inst,
    ) -> Result<(), Memory>
        requires args { HasFewArgs inst.now }
        requires blocks { (id : ℕ) → contains nat_cmp blocks.now id ≡ is_written_block written.now.source written.now.reached id }
        ensures { OnOk result (self.new ≡ self.old ++ claims_of_global written.now.source written.now.reached inst.now) }
    {
        if inst.op == Op::TypeStruct {
            // its name, where it is written, and its members, where it or a block of it is
            if written.has_struct(inst) {
                self.claim_id(written, Id(inst.result))?;
                self.claim_members(written, inst)
            } else if blocks.contains(&inst.result) {
                self.claim_members(written, inst)
            } else {
                Ok(())
            }
        } else if written.has_constant(inst) {
            self.claim_id(written, Id(inst.result))
        } else if written.has_variable(inst) {
            self.claim_variable(written, inst)
        } else {
            Ok(())
        }
    }

    /// Adds the claims of the globals that are written, in their order.
    pub fn claim_globals(&mut self, written: &Written) -> Result<(), Memory>
        requires { All HasFewArgs written.now.source.of.globals }
        ensures { OnOk result (self.new ≡ self.old ++ flat_map (claims_of_global written.now.source written.now.reached) written.now.source.of.globals) }
    {
        let blocks = block_structs(self.alloc(), written)?;
        for inst in written.module().globals() {
            self.claim_global(written, &blocks, inst)?;
        }
        Ok(())
    }
}

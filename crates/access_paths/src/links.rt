// The chains of a function that have indexes, each with the one before it on its way.
ghost use Rattle.std.specs.Prelude.{◌≡◌, ◌∷◌, [], true, IfOk, OnOk, length};
ghost use Rattle.std.specs.List.{All};
ghost use Rattle.spv_ops.specs.Groups.{is_chain as is_chain_op};
ghost use Rattle.few_law.specs.Short.{HasFewArgs, IsShort};
ghost use Rattle.access_paths.specs.Links.{AreBack, AreLinked, AreWays, HaveMore, IsExtended, IsIn, known_in};

use crate::indexes::few_indexes;
use crate::link::Link;
use spv_index::{Locals, pointee_of};
use spv_module::{Inst, Module};
use spv_words::Memory;
use std::alloc::{AllocError, Global};
use std::collections::BTreeMap;

/// A pointer: from what it leads, and the last link on its way.
#[derive(Clone, Copy)]
pub struct Known {
    pub base: u32,
    pub last: Option<usize>,
}

/// The links of a function, and what is known of the pointers that chains make.
#[derive(Drop)]
pub struct Links<'a> {
    pub links: Vec<Link<'a>>,
    pub known: BTreeMap<u32, Known>,
}

/// The pointer to which a link leads from a known one. A link without indexes leads nowhere further,
/// and is not kept, so that no way is longer than its steps.
fn extend<'a>(links: &mut Vec<Link<'a>>, link: Link<'a>, base: u32) -> Result<Known, AllocError>
    requires back { AreBack links.old.items }
    requires before { IsIn (length links.old.items) link.before }
    ensures { IfOk result (IsExtended link.entry base links.old.items links.new.items) }
{
    if link.indexes.is_empty() {
        return Ok(Known {
            base,
            last: link.before,
        });
    }
    let last = Some(links.len());
    links.push(link)?;
    Ok(Known { base, last })
}

impl<'a> Links<'a> {
    /// What is known of a pointer: it is where its path begins if no chain makes it.
    pub fn get(&self, pointer: u32) -> Known
        ensures { result ≡ known_in self.now pointer }
    {
        match self.known.get(&pointer) {
            Some(known) => *known,
            None => Known {
                base: pointer,
                last: None,
            },
        }
    }

    /// Adds a chain that stands in the block at a place.
    fn add(
        &mut self,
        module: &Module,
        locals: &Locals,
        stands: usize,
        inst: &'a Inst,
    ) -> Result<(), AllocError>
        requires linked { AreLinked self.old }
        requires chain { is_chain_op inst.now.op ≡ true }
        requires few { HasFewArgs inst.now }
        ensures { OnOk result (HaveMore «module».now.globals locals.now stands (inst.now ∷ []) self.old self.new) }
    {
        let base = inst.operand(0);
        let known = self.get(base);
        let link = Link {
            chain: inst.result,
            stands,
            indexes: few_indexes(inst),
            from: pointee_of(module, locals, base),
            before: known.last,
        };
        let reached = extend(&mut self.links, link, known.base)?;
        self.known.insert(inst.result, reached)?;
        Ok(())
    }

    /// Adds the chains among the instructions of the block at a place.
    fn add_block(
        &mut self,
        module: &Module,
        locals: &Locals,
        stands: usize,
        insts: &'a [Inst],
    ) -> Result<(), AllocError>
        requires linked { AreLinked self.old }
        requires few { All HasFewArgs insts.now }
        ensures { OnOk result (HaveMore «module».now.globals locals.now stands insts.now self.old self.new) }
    {
        for inst in insts {
            if inst.op.is_chain() {
                self.add(module, locals, stands, inst)?;
            }
        }
        Ok(())
    }

    /// The links of a function.
    pub fn of(alloc: Global, module: &Module, locals: &Locals<'a>) -> Result<Links<'a>, Memory>
        requires { IsShort locals.now }
        ensures { IfOk result (AreWays «module».now.globals locals.now) }
    {
        let mut links = Links {
            links: Vec::new(alloc),
            known: BTreeMap::new(alloc),
        };
        for (stands, block) in locals.function().blocks.as_slice().iter().enumerate() {
            links.add_block(module, locals, stands, block.insts.as_slice())?;
        }
        Ok(links)
    }
}

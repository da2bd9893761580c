// The indexes of a chain, and the steps that they make.
ghost use Rattle.std.specs.Prelude.{◌≡◌, ◌<◌, ◌^◌, ◌++◌, IfOk, OnOk, length, map, option_and_then};
ghost use Rattle.few_law.specs.Short.{HasFewArgs};
ghost use Rattle.access_paths.specs.Ways.{is_constant_index as is_constant_index_of, indexes as indexes_of, captured_indexes as captured_indexes_of, member as member_of, step as step_of};
ghost use Rattle.access_paths.specs.Links.{spot, link_steps};

use crate::Step;
use crate::link::Link;
use spv_index::{behind_first, constant_word, is_struct, next_type};
use spv_module::{Id, Inst, Module};
use spv_words::Memory;
use std::alloc::Global;

/// Whether an index is a constant of the module, and so the same wherever it is read (SPIR-V 1.6,
/// section 2.2.1): a constant, a specialization constant, or an OpUndef outside functions.
#[inline(always)]
pub fn is_constant_index(module: &Module, index: Id) -> bool
    ensures { result ≡ is_constant_index_of «module».now.globals index.0 }
{
    match module.global(index) {
        Some(inst) => inst.op.is_constant(),
        None => false,
    }
}

/// The indexes of a chain, which are few.
pub(crate) fn few_indexes(chain: &Inst) -> &[u32]
    requires { HasFewArgs chain.now }
    ensures indexes { result.now ≡ indexes_of chain.now }
    ensures few { length result.now < 2 ^ 32 }
{
    behind_first(chain)
}

/// The indexes of a chain that are no constants, each with its number among the indexes, counted
/// from 0. There is an error only for want of memory.
pub fn captured_indexes(
    alloc: Global,
    module: &Module,
    chain: &Inst,
) -> Result<Vec<(u32, Id)>, Memory>
    requires { HasFewArgs chain.now }
    ensures { IfOk result (λ list. map (λ n. (n.0, n.1.0)) list.items ≡ captured_indexes_of «module».now.globals chain.now) }
{
    let mut list = Vec::new(alloc);
    for (number, index) in few_indexes(chain).iter().enumerate() {
        if !is_constant_index(module, Id(*index)) {
            list.push((number as u32, Id(*index)))?;
        }
    }
    Ok(list)
}

/// The member of a struct type that an index names by an OpConstant.
fn member(module: &Module, index: u32, ty: u32) -> Option<u32>
    ensures { result ≡ member_of «module».now.globals index ty }
{
    if is_struct(module, ty) {
        constant_word(module, index)
    } else {
        None
    }
}

fn member_in(module: &Module, index: u32, ty: Option<u32>) -> Option<u32>
    ensures { result ≡ option_and_then (member_of «module».now.globals index) ty }
{
    match ty {
        None => None,
        Some(ty) => member(module, index, ty),
    }
}

/// The step that an index of a link makes from a type, where the path is printed in the block at a
/// place.
fn step(
    module: &Module,
    link: &Link,
    printed: usize,
    number: u32,
    index: u32,
    ty: Option<u32>,
) -> Step
    ensures { result ≡ step_of «module».now.globals (spot printed link.now) number index ty }
{
    match member_in(module, index, ty) {
        Some(member) => Step::Member(member),
        None => {
            if is_constant_index(module, Id(index)) || link.stands == printed {
                Step::Index(Id(index))
            } else {
                Step::Captured(Id(link.chain), number)
            }
        }
    }
}

/// Adds the steps of a link, where the path is printed in the block at a place.
pub fn add_steps(
    steps: &mut Vec<Step>,
    module: &Module,
    link: &Link,
    printed: usize,
) -> Result<(), Memory>
    ensures { OnOk result (steps.new.items ≡ steps.old.items ++ link_steps «module».now.globals printed link.now) }
{
    let mut ty = link.from;
    for (number, index) in link.indexes.iter().enumerate() {
        steps.push(step(module, link, printed, number as u32, *index, ty))?;
        ty = next_type(module, *index, ty);
    }
    Ok(())
}

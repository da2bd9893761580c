// The flags that the text of a function needs, asked by block.
ghost use Rattle.std.specs.Prelude.{◌≡◌, ◌==◌, ◌||◌, ℕ, IfOk, OnOk, false, slice_index_or};
ghost use Rattle.function_plan.specs.Orders.{is_among};
ghost use Rattle.function_plan.specs.Flagged.{has_again, has_leave, has_fell};

use std::alloc::{AllocError, Global};
use switch_ladder::FlagPlan;

/// The loops that need the flags `again` and `leave`, and the case targets that need `fell`: a mark for each block, up to the last
/// that needs the flag.
#[derive(Drop)]
pub struct FlagSets {
    again: Vec<bool>,
    leave: Vec<bool>,
    fell: Vec<bool>,
}

/// Marks a block.
fn mark(marks: &mut Vec<bool>, block: usize) -> Result<(), AllocError>
    ensures { OnOk result ((b : ℕ) → slice_index_or marks.new.items b false ≡ (slice_index_or marks.old.items b false || block == b)) }
{
    while marks.len() <= block {
        marks.push(false)?;
    }
    marks[block] = true;
    Ok(())
}

/// A mark for each of these blocks.
#[inline(always)]
fn marks_of(alloc: Global, blocks: &[usize]) -> Result<Vec<bool>, AllocError>
    ensures { IfOk result (λ marks. (b : ℕ) → slice_index_or marks.items b false ≡ is_among blocks.now b) }
{
    let mut marks = Vec::new(alloc);
    for block in blocks {
        mark(&mut marks, *block)?;
    }
    Ok(marks)
}

/// Whether a block has a mark.
fn is_marked(marks: &[bool], block: usize) -> bool
    ensures { result ≡ slice_index_or marks.now block false }
{
    marks.get(block).copied().unwrap_or(false)
}

impl FlagSets {
    /// The flags of a plan.
    pub fn of(alloc: Global, plan: &FlagPlan) -> Result<FlagSets, AllocError>
        ensures again { IfOk result (λ flags. (b : ℕ) → has_again flags b ≡ is_among plan.now.again.items b) }
        ensures leave { IfOk result (λ flags. (b : ℕ) → has_leave flags b ≡ is_among plan.now.leave.items b) }
        ensures fell { IfOk result (λ flags. (b : ℕ) → has_fell flags b ≡ is_among plan.now.fell.items b) }
    {
        let again = marks_of(alloc, plan.again.as_slice())?;
        let leave = marks_of(alloc, plan.leave.as_slice())?;
        let fell = marks_of(alloc, plan.fell.as_slice())?;
        Ok(FlagSets { again, leave, fell })
    }
}

/// Whether a loop needs the flag `again`.
pub fn again_at(flags: &FlagSets, block: usize) -> bool
    ensures { result ≡ has_again flags.now block }
{
    is_marked(&flags.again, block)
}

/// Whether a loop needs the flag `leave`.
pub fn leave_at(flags: &FlagSets, block: usize) -> bool
    ensures { result ≡ has_leave flags.now block }
{
    is_marked(&flags.leave, block)
}

/// Whether a case target needs the flag `fell`.
pub fn fell_at(flags: &FlagSets, block: usize) -> bool
    ensures { result ≡ has_fell flags.now block }
{
    is_marked(&flags.fell, block)
}

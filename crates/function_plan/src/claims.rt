// The names that a function claims.
ghost use Rattle.std.specs.Prelude.{◌≡◌, IfOk, map, min};
ghost use Rattle.std.specs.List.{list_any};
ghost use Rattle.few_law.specs.Short.{HasFewArgs};
ghost use Rattle.hoist_plan.specs.Kept.{is_carried_in};
ghost use Rattle.phi_copies.specs.Sequence.{is_save as is_save_move};
ghost use Rattle.function_plan.specs.Planned.{spares_in, captured_numbers, number_in};
ghost use Rattle.function_plan.specs.Spares.{saves_any as saves_any_of, has_saves_to};
ghost use Rattle.function_plan.specs.Claimed.{claimed_by};
ghost use Rattle.function_plan.specs.Targets.{targets_in};

use crate::flag_sets::{again_at, fell_at, leave_at};
use crate::named::is_captured;
use crate::nodes::targets;
use crate::once::each_once;
use crate::plan::FunctionPlan;
use access_paths::captured_indexes;
use hoist_plan::Naming;
use phi_copies::Move;
use spv_module::{Function, Id, Inst, Module};
use spv_words::Memory;
use std::alloc::{AllocError, Global};
use text_rules::FunctionClaims;

fn is_save(step: &Move) -> bool
    ensures { result ≡ is_save_move step.now }
{
    matches!(step, Move::Save(_, _))
}

/// A number, or the greatest word.
fn capped(number: usize) -> u32
    ensures { result ≡ min number 4294967295 }
{
    if number < 4294967295 {
        number as u32
    } else {
        4294967295
    }
}

/// How many moves save a variable in a spare, counted up to the greatest word.
fn spares(moves: &[Move]) -> u32
    ensures { result ≡ spares_in moves.now }
{
    capped(moves.iter().filter(|step| is_save(step)).count())
}

/// The numbers of indexes.
fn numbers_of(alloc: Global, indexes: &[(u32, Id)]) -> Result<Vec<u32>, AllocError>
    ensures { IfOk result (λ numbers. numbers.items ≡ map number_in indexes.now) }
{
    let mut numbers = Vec::new(alloc);
    for index in indexes {
        numbers.push(index.0)?;
    }
    Ok(numbers)
}

/// The numbers of the indexes of a chain that other blocks need.
fn captured(
    alloc: Global,
    module: &Module,
    naming: &Naming,
    inst: &Inst,
) -> Result<Vec<u32>, Memory>
    requires { HasFewArgs inst.now }
    ensures { IfOk result (λ numbers. numbers.items ≡ captured_numbers «module».now.globals (is_carried_in naming.now) inst.now) }
{
    if !is_captured(naming, inst) {
        return Ok(Vec::new(alloc));
    }
    let indexes = captured_indexes(alloc, module, inst)?;
    Ok(numbers_of(alloc, &indexes)?)
}

/// Whether moves save a variable in a spare.
fn saves_any(moves: &[Move]) -> bool
    ensures { result ≡ saves_any_of moves.now }
{
    spares(moves) != 0
}

/// Whether the moves of an edge save a variable in a spare.
fn saves_to(plan: &FunctionPlan, from: usize, to: usize) -> bool
    ensures { result ≡ has_saves_to plan.now from to }
{
    saves_any(plan.moves_of(from, to))
}

/// Whether the moves of an edge that leaves a block save a variable in a spare.
fn has_saves(plan: &FunctionPlan, block: usize) -> bool
    ensures { result ≡ list_any (has_saves_to plan.now block) (targets_in plan.now.nodes.items block) }
{
    let targets = targets(plan.nodes.as_slice(), block);
    targets.iter().any(|target| saves_to(plan, block, *target))
}

impl FunctionClaims for FunctionPlan<'_> {
    ghost plan = { claimed_by };

    fn function(&self) -> &Function {
        self.locals.function()
    }

    fn is_named(&self, id: u32) -> bool {
        self.named.has(id)
    }

    fn again(&self, block: usize) -> bool {
        again_at(&self.flags, block)
    }

    fn leave(&self, block: usize) -> bool {
        leave_at(&self.flags, block)
    }

    fn fell(&self, block: usize) -> bool {
        fell_at(&self.flags, block)
    }

    fn has_captured(&self, inst: &Inst) -> bool {
        is_captured(&self.naming, inst)
    }

    fn captured(&self, alloc: Global, inst: &Inst) -> Result<Vec<u32>, Memory> {
        captured(alloc, self.source, &self.naming, inst)
    }

    fn targets(&self, alloc: Global, block: usize) -> Result<Vec<usize>, Memory> {
        Ok(each_once(alloc, targets(self.nodes.as_slice(), block))?)
    }

    fn has_spares(&self, block: usize) -> bool {
        has_saves(self, block)
    }

    fn spares(&self, from: usize, to: usize) -> u32 {
        spares(self.moves_of(from, to))
    }
}

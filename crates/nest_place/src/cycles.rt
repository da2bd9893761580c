// Cycles of falls.
ghost use Rattle.std.specs.Prelude.{◌≡◌, ◌<◌, length, true, MatchBool, IfOk, OnOk, IfErr};
ghost use Rattle.spv_words.specs.declared.rule.Rule.TheVariants.{K11};
ghost use Rattle.structure_rules.specs.Structure.{fall_links as fall_links_of};
ghost use Rattle.structure_rules.specs.Graph.{nth};
ghost use Rattle.block_graph.specs.Within.{AreWithin};
ghost use Rattle.nest_place.specs.Checks.{IsUnbroken, IsBroken};
ghost use Rattle.nest_place.specs.Links.{IsTable};
ghost use Rattle.nest_place.specs.Nests.{AllInside};
ghost use Rattle.nest_place.specs.Cycles.{entry as entry_of, Returns, AreInverse, AreHeights, FallsOnCycle, SomeCyclic};

use crate::nest::Nest;
use crate::refusal::refused;
use spv_words::{Fault, Rule};
use std::alloc::{AllocError, Global};

/// What the table has for a block.
pub fn entry(table: &[Option<usize>], block: usize) -> Option<usize>
    ensures { result ≡ entry_of table.now block }
{
    table.get(block).copied().flatten()
}

/// Gives a height to a case target that falls into none, and to those from which falls lead to it.
#[tactic(auto, using(crate::proofs::Turning::climb_rules))]
fn climb(heights: &mut [Option<usize>], next: &[Option<usize>], last: &[Option<usize>], tail: usize)
    requires inverse { AreInverse next.now last.now }
    requires heights { AreHeights next.now heights.old }
    ensures { AreHeights next.now heights.new }
{
    if entry(next, tail).is_some() {
        return;
    }
    let mut at = tail;
    for height in 0..heights.len() {
        if at >= heights.len() || heights[at].is_some() {
            return;
        }
        heights[at] = Some(height);
        match entry(last, at) {
            None => return,
            Some(before) => at = before,
        }
    }
}

/// Heights for the case targets on no cycle, each above that of what its case falls into.
#[tactic(auto, using(crate::proofs::Turning::height_rules))]
pub fn heights(
    alloc: Global,
    next: &[Option<usize>],
    last: &[Option<usize>],
) -> Result<Vec<Option<usize>>, AllocError>
    requires { AreInverse next.now last.now }
    ensures { IfOk result (λ heights. AreHeights next.now heights.items) }
{
    let mut heights = vec![in alloc; None; next.len()]?;
    for tail in 0..next.len() {
        climb(&mut heights, next, last, tail);
    }
    Ok(heights)
}

/// Whether falls lead from a case target back to it.
#[tactic(auto, using(crate::proofs::Turning::return_rules))]
fn returns(next: &[Option<usize>], from: usize) -> bool
    ensures { MatchBool result (Returns next.now from) (Returns next.now from → ⊥) }
{
    let mut at = from;
    for turn in 0..next.len() {
        match entry(next, at) {
            None => return false,
            Some(to) if to == from => return true,
            Some(to) => at = to,
        }
    }
    false
}

/// Whether a case target is on a cycle of falls. One that has a height is not.
#[tactic(auto, using(crate::proofs::Turning::never_returns))]
fn is_on_cycle(next: &[Option<usize>], heights: &[Option<usize>], from: usize) -> bool
    requires { AreHeights next.now heights.now }
    ensures { MatchBool result (Returns next.now from) (Returns next.now from → ⊥) }
{
    match entry(heights, from) {
        None => returns(next, from),
        Some(_) => false,
    }
}

/// Whether an edge falls from a case target on a cycle.
#[tactic(auto, using(crate::proofs::Turning::falls_rules))]
fn falls_on_cycle(
    nest: &Nest,
    block: usize,
    to: usize,
    next: &[Option<usize>],
    heights: &[Option<usize>],
) -> bool
    requires inside { block < length nest.now }
    requires reached { (nth nest.now block).reached ≡ true }
    requires target { to < length nest.now }
    requires heights { AreHeights next.now heights.now }
    ensures { MatchBool result (FallsOnCycle nest.now next.now block to) (FallsOnCycle nest.now next.now block to → ⊥) }
{
    match nest.falls_from(block, to) {
        None => false,
        Some(from) => is_on_cycle(next, heights, from),
    }
}

/// Whether an edge to one of these blocks falls from a case target on a cycle.
fn is_cyclic(
    nest: &Nest,
    block: usize,
    targets: &[usize],
    next: &[Option<usize>],
    heights: &[Option<usize>],
) -> bool
    requires inside { block < length nest.now }
    requires reached { (nth nest.now block).reached ≡ true }
    requires targets { AllInside (length nest.now) targets.now }
    requires heights { AreHeights next.now heights.now }
    ensures { MatchBool result (SomeCyclic nest.now next.now block targets.now) (SomeCyclic nest.now next.now block targets.now → ⊥) }
{
    for target in targets {
        if falls_on_cycle(nest, block, *target, next, heights) {
            return true;
        }
    }
    false
}

/// Rule K11: falls form no cycle.
#[tactic(auto, using(crate::proofs::Turning::cycle_rules))]
pub fn check_cycles(
    nest: &Nest,
    next: &[Option<usize>],
    heights: &[Option<usize>],
) -> Result<(), Fault>
    requires within { AreWithin nest.now }
    requires table { IsTable (fall_links_of nest.now) next.now }
    requires sized { length next.now ≡ length nest.now }
    requires heights { AreHeights next.now heights.now }
    ensures passes { OnOk result (IsUnbroken nest.now K11) }
    ensures refused { IfErr result (IsBroken nest.now K11) }
{
    for (block, node) in nest.nodes().iter().enumerate() {
        if node.reached && is_cyclic(nest, block, node.targets.as_slice(), next, heights) {
            return Err(refused(Rule::K11, node.exit_at));
        }
    }
    Ok(())
}

// The flags that loops and case targets need.
ghost use Rattle.std.specs.Prelude.{◌≡◌, ◌<◌, ◌==◌, ◌&&◌, ◌||◌, ℕ, true, length, is_some, IfOk, OnOk};
ghost use Rattle.std.specs.BTreeSet.{contains};
ghost use Rattle.std.specs.List.{list_any};
ghost use Rattle.std.specs.List.Sorted.{IsSorted};
ghost use Rattle.std.specs.Option.{option_and_then};
ghost use Rattle.std.specs.Ordering.{nat_cmp};
ghost use Rattle.structure_rules.specs.Graph.{graph, nth, edges, leads_to, is_value};
ghost use Rattle.structure_rules.specs.EdgeKinds.{loop_header as loop_header_of, is_break as is_break_edge};
ghost use Rattle.switch_ladder.specs.Ladder.{fallen_from};
ghost use Rattle.switch_ladder.specs.Flags.{blocks_that, needs_again as needs_again_at, left_loop as left_loop_at, leaves, needs_leave, needs_fell as needs_fell_at};

use crate::ladder::add_if;
use nest_place::{EdgeKind, Part, Places};
use spv_module::Function;
use spv_words::Memory;
use std::alloc::{AllocError, Global};
use std::collections::BTreeSet;
use structure_recover::{Region, continue_block};

/// The flags that the text of a function needs, since GLSL jumps out of the innermost statement alone (GLSL 4.60,
/// section 6.4). `again` has the headers of the loops whose continue target is another block, `leave` those of the loops
/// that are left through a switch, and `fell` the case targets that are fallen into and have a phi. Each list has the
/// blocks by their indexes, in the order of the function.
#[derive(Debug, Drop)]
pub struct FlagPlan {
    pub again: Vec<usize>,
    pub leave: Vec<usize>,
    pub fell: Vec<usize>,
}

/// Whether the block heads a loop whose continue target is reached and is another block.
fn needs_again(places: &Places, block: usize) -> bool
    requires { block < length places.now }
    ensures { result ≡ needs_again_at places.now block }
{
    places.reached(block) && continue_block(places, block).is_some()
}

/// The header of a loop.
fn loop_header(part: Option<Part>) -> Option<usize>
    ensures { result ≡ option_and_then loop_header_of part }
{
    match part? {
        Part::Loop(header) | Part::Cont(header) => Some(header),
        Part::If(_) | Part::Case(_, _) => None,
    }
}

/// Whether an edge leaves the nearest loop.
fn is_break(places: &Places, from: usize, to: usize) -> bool
    requires reached { (nth places.now from).reached ≡ true }
    requires leads { leads_to to (nth places.now from) ≡ true }
    ensures { result ≡ is_break_edge places.now from to }
{
    matches!(places.edge(from, to), EdgeKind::Break)
}

/// The loop that an edge leaves, where a switch stands between.
fn left_loop(places: &Places, from: usize, to: usize) -> Option<usize>
    requires reached { (nth places.now from).reached ≡ true }
    requires leads { leads_to to (nth places.now from) ≡ true }
    ensures { result ≡ left_loop_at places.now from to }
{
    if places.innermost_switch(from).is_some() && is_break(places, from, to) {
        loop_header(places.nearest_loop(from))
    } else {
        None
    }
}

/// Adds a block, if there is one.
#[inline(always)]
fn add(blocks: &mut BTreeSet<usize>, block: Option<usize>) -> Result<(), AllocError>
    ensures { OnOk result ((q : ℕ) → contains nat_cmp blocks.new q ≡ (contains nat_cmp blocks.old q || is_value q block)) }
{
    if let Some(block) = block {
        blocks.insert(block)?;
    }
    Ok(())
}

/// The blocks to which edges lead from a block, if it is reached.
fn edges_of(places: &Places, block: usize) -> &[usize]
    requires { block < length places.now }
    ensures { result.now ≡ edges (nth places.now block) }
{
    if places.reached(block) {
        places.nodes()[block].targets.as_slice()
    } else {
        &[]
    }
}

/// Adds the loops that the edges of a block leave through a switch.
#[tactic(auto, using(crate::proofs::Left::edge_rules))]
fn add_left(loops: &mut BTreeSet<usize>, places: &Places, block: usize) -> Result<(), AllocError>
    requires { block < length places.now }
    ensures { OnOk result ((q : ℕ) → contains nat_cmp loops.new q ≡ (contains nat_cmp loops.old q || leaves places.now q block)) }
{
    for target in edges_of(places, block) {
        add(loops, left_loop(places, block, *target))?;
    }
    Ok(())
}

/// The loops that are left through a switch.
fn left_loops(alloc: Global, places: &Places) -> Result<BTreeSet<usize>, AllocError>
    ensures { IfOk result (λ loops. (q : ℕ) → contains nat_cmp loops q ≡ needs_leave places.now q) }
{
    let mut loops = BTreeSet::new(alloc);
    for block in 0..places.nodes().len() {
        add_left(&mut loops, places, block)?;
    }
    Ok(loops)
}

/// The blocks in the order in which they stand in the function.
fn sorted(alloc: Global, blocks: &[usize]) -> Result<Vec<usize>, AllocError>
    ensures up { IfOk result (λ sorted. IsSorted nat_cmp sorted.items) }
    ensures same { IfOk result (λ sorted. (q : ℕ) → list_any (λ b. b == q) sorted.items ≡ list_any (λ b. b == q) blocks.now) }
{
    let mut sorted = Vec::from_slice(alloc, blocks)?;
    sorted.sort_unstable();
    Ok(sorted)
}

/// Whether the block is among these, which stand in the order of the function.
fn is_among(sorted: &[usize], block: usize) -> bool
    requires { IsSorted nat_cmp sorted.now }
    ensures { result ≡ list_any (λ b. b == block) sorted.now }
{
    sorted.binary_search(&block).is_ok()
}

/// Whether the block is a case target that is fallen into, and is among those that have a phi.
fn needs_fell(places: &Places, phis: &[usize], block: usize) -> bool
    requires { IsSorted nat_cmp phis.now }
    ensures { result ≡ (is_some (fallen_from places.now block) && list_any (λ b. b == block) phis.now) }
{
    places.fallen_from(block).is_some() && is_among(phis, block)
}

/// The flags that a function needs, where these are its places, the tree of its control flow, and its blocks with a
/// live phi. There is an error only where there is no memory.
pub fn flags(
    alloc: Global,
    f: &Function,
    places: &Places,
    _region: &Region,
    phi_blocks: &[usize],
) -> Result<FlagPlan, Memory>
    requires { places.now ≡ graph f.now }
    ensures again { IfOk result (λ plan. plan.again.items ≡ blocks_that (needs_again_at (graph f.now)) (graph f.now)) }
    ensures leave { IfOk result (λ plan. plan.leave.items ≡ blocks_that (needs_leave (graph f.now)) (graph f.now)) }
    ensures fell { IfOk result (λ plan. plan.fell.items ≡ blocks_that (needs_fell_at (graph f.now) phi_blocks.now) (graph f.now)) }
{
    let left = left_loops(alloc, places)?;
    let phis = sorted(alloc, phi_blocks)?;
    let mut plan = FlagPlan {
        again: Vec::new(alloc),
        leave: Vec::new(alloc),
        fell: Vec::new(alloc),
    };
    for block in 0..places.nodes().len() {
        add_if(&mut plan.again, block, needs_again(places, block))?;
        add_if(&mut plan.leave, block, left.contains(&block))?;
        add_if(&mut plan.fell, block, needs_fell(places, &phis, block))?;
    }
    Ok(plan)
}

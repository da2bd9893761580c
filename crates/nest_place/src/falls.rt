// Falls from one case construct into another.
ghost use Rattle.std.specs.Prelude.{◌≡◌, ◌<◌, ◌++◌, length, true, Some, IfOk, OnOk, IfErr};
ghost use Rattle.std.specs.List.{filter_map};
ghost use Rattle.spv_words.specs.declared.rule.Rule.TheVariants.{K9, K10, K11};
ghost use Rattle.structure_rules.specs.Graph.{edges, nth};
ghost use Rattle.structure_rules.specs.Structure.{BrokenIn, IsRightIn, fall_link, fall_links as fall_links_of, structure_rules};
ghost use Rattle.spv_words.specs.Breaks.{NoRuleBroken};
ghost use Rattle.block_graph.specs.Within.{AreWithin};
ghost use Rattle.nest_place.specs.Checks.{IsUnbroken, IsBroken, IsFineBefore};
ghost use Rattle.nest_place.specs.Links.{IsTable, IsSingle, turned_links};
ghost use Rattle.nest_place.specs.Nests.{AllInside};
ghost use Rattle.nest_place.specs.Spots.{IsGrounded};

use crate::cycles::{check_cycles, heights};
use crate::links::{Link, table_of};
use crate::nest::Nest;
use spv_words::{Fault, Rule};
use std::alloc::{AllocError, Global};

/// Adds the falls among the edges to these blocks: the case target in whose construct they begin, with
/// the one into which they fall.
#[tactic(auto, using(crate::proofs::Falling::add_rules))]
fn add_falls(
    links: &mut Vec<Link>,
    nest: &Nest,
    block: usize,
    targets: &[usize],
) -> Result<(), AllocError>
    requires inside { block < length nest.now }
    requires reached { (nth nest.now block).reached ≡ true }
    requires targets { AllInside (length nest.now) targets.now }
    ensures { OnOk result (links.new.items ≡ links.old.items ++ filter_map (fall_link nest.now block) targets.now) }
{
    for target in targets {
        if let Some(from) = nest.falls_from(block, *target) {
            links.push((from, *target))?;
        }
    }
    Ok(())
}

/// Adds the falls from a block.
#[tactic(auto, using(crate::proofs::Falling::block_rules))]
fn add_block(links: &mut Vec<Link>, nest: &Nest, block: usize) -> Result<(), AllocError>
    requires within { AreWithin nest.now }
    requires inside { block < length nest.now }
    ensures { OnOk result (links.new.items ≡ links.old.items ++ filter_map (fall_link nest.now block) (edges (nth nest.now block))) }
{
    let node = &nest.nodes()[block];
    if !node.reached {
        return Ok(());
    }
    add_falls(links, nest, block, node.targets.as_slice())
}

/// The falls from reached blocks.
#[tactic(auto, using(crate::proofs::Each::each_rules), unfolding(structure_rules::specs::Structure::fall_links))]
fn fall_links(alloc: Global, nest: &Nest) -> Result<Vec<Link>, AllocError>
    requires { AreWithin nest.now }
    ensures { IfOk result (λ links. links.items ≡ fall_links_of nest.now) }
{
    let mut links = Vec::new(alloc);
    for block in 0..nest.nodes().len() {
        add_block(&mut links, nest, block)?;
    }
    Ok(links)
}

/// For each case target the one into which it falls. It refuses by rule K9: a case target falls into
/// two others.
#[tactic(auto, using(crate::proofs::Falling::next_rules))]
fn next_table(alloc: Global, nest: &Nest, links: &[Link]) -> Result<Vec<Option<usize>>, Fault>
    requires links { links.now ≡ fall_links_of nest.now }
    requires within { AreWithin nest.now }
    requires grounded { IsGrounded nest.now }
    ensures table { IfOk result (λ table. IsTable (fall_links_of nest.now) table.items) }
    ensures sized { IfOk result (λ table. length table.items ≡ length nest.now) }
    ensures single { OnOk result (IsSingle (fall_links_of nest.now)) }
    ensures passes { OnOk result (IsUnbroken nest.now K9) }
    ensures refused { IfErr result (IsBroken nest.now K9) }
{
    let nodes = nest.nodes();
    match table_of(alloc, nodes.len(), links) {
        Ok(table) => Ok(table),
        Err(why) => Err(why.at_block(nodes, Rule::K9)),
    }
}

/// The links the other way round.
fn turned(alloc: Global, links: &[Link]) -> Result<Vec<Link>, AllocError>
    ensures { IfOk result (λ turned. turned.items ≡ turned_links links.now) }
{
    links
        .iter()
        .map(|(block, other)| (*other, *block))
        .collect(alloc)
}

/// For each case target the one that falls into it. It refuses by rule K10: a case target is fallen
/// into from two cases.
#[tactic(auto, using(crate::proofs::Falling::last_rules))]
fn last_table(alloc: Global, nest: &Nest, links: &[Link]) -> Result<Vec<Option<usize>>, Fault>
    requires links { links.now ≡ fall_links_of nest.now }
    requires within { AreWithin nest.now }
    requires grounded { IsGrounded nest.now }
    ensures table { IfOk result (λ table. IsTable (turned_links (fall_links_of nest.now)) table.items) }
    ensures passes { OnOk result (IsUnbroken nest.now K10) }
    ensures refused { IfErr result (IsBroken nest.now K10) }
{
    let nodes = nest.nodes();
    let turned = turned(alloc, links)?;
    match table_of(alloc, nodes.len(), &turned) {
        Ok(table) => Ok(table),
        Err(why) => Err(why.at_block(nodes, Rule::K10)),
    }
}

/// For each case target the one into which it falls, and the one that falls into it; nothing where none
/// falls.
#[derive(Drop)]
pub struct Falls {
    pub next: Vec<Option<usize>>,
    pub last: Vec<Option<usize>>,
}

/// The falls between case targets. It refuses by rules K9 to K11: a case target falls into two others,
/// is fallen into from two cases, or falls form a cycle.
pub fn check_falls(alloc: Global, nest: &Nest) -> Result<Falls, Fault>
    requires within { AreWithin nest.now }
    requires grounded { IsGrounded nest.now }
    requires earlier { IsFineBefore nest.now K9 }
    ensures next { IfOk result (λ falls. IsTable (fall_links_of nest.now) falls.next.items) }
    ensures last { IfOk result (λ falls. IsTable (turned_links (fall_links_of nest.now)) falls.last.items) }
    ensures passes { OnOk result (NoRuleBroken (BrokenIn nest.now) structure_rules) }
    ensures refused { IfErr result (IsRightIn nest.now) }
{
    let links = fall_links(alloc, nest)?;
    if links.is_empty() {
        return Ok(Falls {
            next: Vec::new(alloc),
            last: Vec::new(alloc),
        });
    }
    let next = next_table(alloc, nest, &links)?;
    let last = last_table(alloc, nest, &links)?;
    let heights = heights(alloc, &next, &last)?;
    check_cycles(nest, &next, &heights)?;
    Ok(Falls { next, last })
}

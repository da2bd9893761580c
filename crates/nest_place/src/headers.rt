// The blocks that merge instructions name, and their headers.
ghost use Rattle.std.specs.Prelude.{◌≡◌, ◌==◌, ◌||◌, ◌++◌, OnOk, IfOk, IfErr};
ghost use Rattle.spv_words.specs.declared.rule.Rule.TheVariants.{K3};
ghost use Rattle.structure_rules.specs.Graph.{names, is_value, merge_named};
ghost use Rattle.structure_rules.specs.Nesting.{linked, name_links as name_links_of, header_of};
ghost use Rattle.structure_rules.specs.Structure.{names_twice};
ghost use Rattle.block_graph.specs.Within.{AreWithin};
ghost use Rattle.nest_place.specs.Links.{IsSingle, IsTable};
ghost use Rattle.nest_place.specs.Checks.{IsUnbroken, IsBroken};
ghost use Rattle.nest_place.specs.Steps.{NoneNamesItself};

use crate::links::{Clash, Link, NoTable, short_table_of};
use crate::refusal::refused;
use spv_words::{Fault, Rule};
use std::alloc::{AllocError, Global};
use std::marker::Model;
use structure_rules::{Merge, Node};

/// The headers of a graph's merge blocks and continue targets. Contracts see the graph.
#[derive(Drop)]
pub struct Headers<'a> {
    nodes: &'a [Node],
    namers: Vec<Option<usize>>,
}

impl<'a> Model for Headers<'a> {
    ghost use Rattle.nest_place.specs.Views.{Graph};
    ghost use Rattle.nest_place.specs.Steps.{AreNamers};

    ghost Value = { Graph };

    ghost view = { λ h. h.nodes.now };

    ghost invariant = { λ h. AreNamers h.nodes.now h.namers.items };
}

/// Adds a link to another block for each of these.
pub fn add_links(links: &mut Vec<Link>, blocks: &[usize], other: usize) -> Result<(), AllocError>
    ensures { OnOk result (links.new.items ≡ links.old.items ++ linked blocks.now other) }
{
    for block in blocks {
        links.push((*block, other))?;
    }
    Ok(())
}

/// Adds a link to the header for each block that it names.
fn add_names(links: &mut Vec<Link>, node: &Node, header: usize) -> Result<(), AllocError>
    ensures { OnOk result (links.new.items ≡ links.old.items ++ linked (names node.now) header) }
{
    if !node.reached {
        return Ok(());
    }
    match node.merge {
        Merge::Absent => Ok(()),
        Merge::Selection(merge) => add_links(links, &[merge], header),
        Merge::Loop(merge, target) => add_links(links, &[merge, target], header),
    }
}

/// Each block that a merge instruction names, with the header.
#[tactic(auto, using(crate::proofs::Each::each_rules), unfolding(structure_rules::specs::Nesting::name_links))]
fn name_links(alloc: Global, nodes: &[Node]) -> Result<Vec<Link>, AllocError>
    ensures { IfOk result (λ links. links.items ≡ name_links_of nodes.now) }
{
    let mut links = Vec::new(alloc);
    for (header, node) in nodes.iter().enumerate() {
        add_names(&mut links, node, header)?;
    }
    Ok(links)
}

/// Whether the merge instruction of this header names the header as its merge block, or one block
/// twice.
fn names_itself(header: usize, merge: Merge) -> bool
    ensures { result ≡ (is_value header (merge_named merge) || names_twice merge) }
{
    match merge {
        Merge::Absent => false,
        Merge::Selection(merge) => merge == header,
        Merge::Loop(merge, target) => merge == header || merge == target,
    }
}

/// The part of rule K3 that is about a merge instruction alone.
#[tactic(auto, using(crate::proofs::Naming::itself_rules))]
fn check_itself(nodes: &[Node]) -> Result<(), Fault>
    ensures passes { OnOk result (NoneNamesItself nodes.now) }
    ensures refused { IfErr result (IsBroken nodes.now K3) }
{
    for (header, node) in nodes.iter().enumerate() {
        if node.reached && names_itself(header, node.merge) {
            return Err(refused(Rule::K3, node.merge_at));
        }
    }
    Ok(())
}

/// The table of the headers that name each block.
#[tactic(auto, using(crate::proofs::Naming::namer_rules))]
fn namers(alloc: Global, nodes: &[Node]) -> Result<Vec<Option<usize>>, Fault>
    requires { AreWithin nodes.now }
    ensures table { IfOk result (λ table. IsTable (name_links_of nodes.now) table.items) }
    ensures single { OnOk result (IsSingle (name_links_of nodes.now)) }
    ensures refused { IfErr result (IsBroken nodes.now K3) }
{
    let links = name_links(alloc, nodes)?;
    match short_table_of(alloc, nodes.len(), &links) {
        Ok(table) => Ok(table),
        Err(NoTable::Memory) => Err(Fault::Memory),
        Err(NoTable::Clash(clash)) => Err(refused(Rule::K3, nodes[clash.second].merge_at)),
    }
}

impl<'a> Headers<'a> {
    /// The headers of a graph. It refuses by rule K3: a merge instruction names its own block as its
    /// merge block, the same block twice, or a block that another names.
    pub fn of(alloc: Global, nodes: &'a [Node]) -> Result<Headers<'a>, Fault>
        requires { AreWithin nodes.now }
        ensures headers { IfOk result (λ headers. headers ≡ nodes.now) }
        ensures passes { OnOk result (IsUnbroken nodes.now K3) }
        ensures single { OnOk result (IsSingle (name_links_of nodes.now)) }
        ensures refused { IfErr result (IsBroken nodes.now K3) }
    {
        check_itself(nodes)?;
        Ok(Headers {
            nodes,
            namers: namers(alloc, nodes)?,
        })
    }

    /// The graph.
    pub fn nodes(&self) -> &'a [Node]
        ensures { result.now ≡ self.now }
    {
        self.nodes
    }

    /// The header of a merge block or of a continue target that is not its own header.
    pub fn header(&self, block: usize) -> Option<usize>
        ensures { result ≡ header_of self.now block }
    {
        let header = self.namers.get(block).copied().flatten()?;
        if header == block { None } else { Some(header) }
    }
}

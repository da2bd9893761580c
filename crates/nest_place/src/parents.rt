// The parents of blocks: their headers, switches and predecessors.
ghost use Rattle.std.specs.Prelude.{◌≡◌, OnOk, IfOk, IfErr};
ghost use Rattle.spv_words.specs.declared.rule.Rule.TheVariants.{K4, K5};
ghost use Rattle.structure_rules.specs.Graph.{edges as edges_of};
ghost use Rattle.structure_rules.specs.Nesting.{linked, header_of, switch_of, case_targets as case_targets_of, case_links as case_links_of, later_targets as later_targets_of, entry_links as entry_links_of, role as role_of, named_role as named_role_of, parent_of};
ghost use Rattle.nest_place.specs.Links.{IsSingle, IsTable};
ghost use Rattle.nest_place.specs.Checks.{IsUnbroken, IsBroken};
ghost use Rattle.nest_place.specs.Steps.{IsFormed, AreParentLinks, AreRoles, NoneIsOrphan};

use crate::forms::is_switch;
use crate::headers::{Headers, add_links};
use crate::kinds::merges_to;
use crate::links::{Link, short_table_of};
use crate::refusal::refused;
use spv_words::{Fault, Refusal, Rule};
use std::alloc::{AllocError, Global};
use std::marker::Model;
use structure_rules::{Node, Role};

/// The headers of a graph, and the switches of its case targets. Contracts see the graph.
#[derive(Drop)]
pub struct Cases<'a> {
    headers: Headers<'a>,
    switches: Vec<Option<usize>>,
}

impl<'a> Model for Cases<'a> {
    ghost use Rattle.nest_place.specs.Views.{Graph};
    ghost use Rattle.nest_place.specs.Steps.{AreSwitches};

    ghost Value = { Graph };

    ghost view = { λ c. c.headers };

    ghost invariant = { λ c. AreSwitches c.headers c.switches.items };
}

/// The blocks to which edges lead from a block: none where it is not reached.
fn edges(node: &Node) -> &[usize]
    ensures { result.now ≡ edges_of node.now }
{
    if node.reached {
        node.targets.as_slice()
    } else {
        &[]
    }
}

/// The targets of a reached OpSwitch that no header names.
fn case_targets(alloc: Global, headers: &Headers, node: &Node) -> Result<Vec<usize>, AllocError>
    ensures { IfOk result (λ targets. targets.items ≡ case_targets_of headers.now node.now) }
{
    if is_switch(node.exit) {
        edges(node)
            .iter()
            .copied()
            .filter(|target| headers.header(*target).is_none())
            .collect(alloc)
    } else {
        Ok(Vec::new(alloc))
    }
}

/// Each case target, with its switch.
#[tactic(auto, using(crate::proofs::Each::each_rules), unfolding(structure_rules::specs::Nesting::case_links))]
fn case_links(alloc: Global, headers: &Headers) -> Result<Vec<Link>, AllocError>
    ensures { IfOk result (λ links. links.items ≡ case_links_of headers.now) }
{
    let mut links = Vec::new(alloc);
    for (switch, node) in headers.nodes().iter().enumerate() {
        let targets = case_targets(alloc, headers, node)?;
        add_links(&mut links, &targets, switch)?;
    }
    Ok(links)
}

/// The table of these links to parents, where no block is linked to two: rule K4 for these links.
#[tactic(auto, using(crate::proofs::Parenthood::table_rules))]
fn parent_table(alloc: Global, nodes: &[Node], links: &[Link]) -> Result<Vec<Option<usize>>, Fault>
    requires { AreParentLinks nodes.now links.now }
    ensures table { IfOk result (λ table. IsTable links.now table.items) }
    ensures single { OnOk result (IsSingle links.now) }
    ensures refused { IfErr result (IsBroken nodes.now K4) }
{
    match short_table_of(alloc, nodes.len(), links) {
        Ok(table) => Ok(table),
        Err(why) => Err(why.at_block(nodes, Rule::K4)),
    }
}

impl<'a> Cases<'a> {
    /// The case targets of a graph. It refuses by rule K4: a case target of two switches.
    fn of(alloc: Global, headers: Headers<'a>) -> Result<Cases<'a>, Fault>
        requires { IsFormed headers }
        ensures cases { IfOk result (λ cases. cases ≡ headers.entry) }
        ensures single { OnOk result (IsSingle (case_links_of headers.entry)) }
        ensures refused { IfErr result (IsBroken headers.entry K4) }
    {
        let links = case_links(alloc, &headers)?;
        let switches = parent_table(alloc, headers.nodes(), &links)?;
        Ok(Cases { headers, switches })
    }

    /// The graph.
    fn nodes(&self) -> &'a [Node]
        ensures { result.now ≡ self.now }
    {
        self.headers.nodes()
    }

    fn header(&self, block: usize) -> Option<usize>
        ensures { result ≡ header_of self.now block }
    {
        self.headers.header(block)
    }

    /// The switch of a case target.
    fn switch(&self, block: usize) -> Option<usize>
        ensures { result ≡ switch_of self.now block }
    {
        self.switches.get(block).copied().flatten()
    }
}

/// The targets behind a reached block that no header names and that are no case targets.
fn later_targets(
    alloc: Global,
    cases: &Cases,
    block: usize,
    node: &Node,
) -> Result<Vec<usize>, AllocError>
    ensures { IfOk result (λ targets. targets.items ≡ later_targets_of cases.now block node.now) }
{
    edges(node)
        .iter()
        .copied()
        .filter(|target| {
            block < *target && cases.header(*target).is_none() && cases.switch(*target).is_none()
        })
        .collect(alloc)
}

/// Each other block, with each predecessor before it.
#[tactic(auto, using(crate::proofs::Each::each_rules), unfolding(structure_rules::specs::Nesting::entry_links))]
fn entry_links(alloc: Global, cases: &Cases) -> Result<Vec<Link>, AllocError>
    ensures { IfOk result (λ links. links.items ≡ entry_links_of cases.now) }
{
    let mut links = Vec::new(alloc);
    for (block, node) in cases.nodes().iter().enumerate() {
        let targets = later_targets(alloc, cases, block, node)?;
        add_links(&mut links, &targets, block)?;
    }
    Ok(links)
}

/// The table of the predecessors before blocks that no header names and that are no case targets.
fn entry_table(alloc: Global, cases: &Cases) -> Result<Vec<Option<usize>>, Fault>
    requires { IsFormed cases.now }
    ensures table { IfOk result (λ table. IsTable (entry_links_of cases.now) table.items) }
    ensures single { OnOk result (IsSingle (entry_links_of cases.now)) }
    ensures refused { IfErr result (IsBroken cases.now K4) }
{
    let links = entry_links(alloc, cases)?;
    parent_table(alloc, cases.nodes(), &links)
}

/// How a header names a block.
fn named_role(nodes: &[Node], block: usize, header: usize) -> Role
    ensures { result ≡ named_role_of nodes.now block header }
{
    if merges_to(nodes, block, Some(header)) {
        Role::Merge(header)
    } else {
        Role::Continue(header)
    }
}

/// What a block is to its parent.
#[tactic(auto, unfolding(structure_rules::specs::Nesting::role))]
fn role(cases: &Cases, entries: &[Option<usize>], block: usize) -> Role
    requires { IsTable (entry_links_of cases.now) entries.now }
    ensures { result ≡ role_of cases.now block }
{
    if let Some(header) = cases.header(block) {
        named_role(cases.nodes(), block, header)
    } else if let Some(switch) = cases.switch(block) {
        Role::Case(switch)
    } else if let Some(entry) = entries.get(block).copied().flatten() {
        Role::Inside(entry)
    } else {
        Role::First
    }
}

/// The role of each block.
fn all_roles(
    alloc: Global,
    cases: &Cases,
    entries: &[Option<usize>],
) -> Result<Vec<Role>, AllocError>
    requires { IsTable (entry_links_of cases.now) entries.now }
    ensures { IfOk result (λ roles. AreRoles cases.now roles.items) }
{
    let count = cases.nodes().len();
    let mut roles = Vec::with_capacity(alloc, count)?;
    for block in 0..count {
        roles.push(role(cases, entries, block))?;
    }
    Ok(roles)
}

/// The part of rule K4 that is about blocks without a parent.
#[tactic(auto, using(crate::proofs::Parenthood::orphan_rules))]
fn check_orphans(nodes: &[Node], roles: &[Role]) -> Result<(), Fault>
    requires { AreRoles nodes.now roles.now }
    ensures passes { OnOk result (NoneIsOrphan nodes.now) }
    ensures refused { IfErr result (IsBroken nodes.now K4) }
{
    for (block, node) in nodes.iter().enumerate() {
        if let Role::First = roles[block]
            && node.reached
            && block != 0
        {
            return Err(Fault::Refused(Refusal {
                rule: Rule::K4,
                at: node.at,
            }));
        }
    }
    Ok(())
}

pub fn parent(role: Role) -> Option<usize>
    ensures { result ≡ parent_of role }
{
    match role {
        Role::First => None,
        Role::Merge(block) | Role::Continue(block) | Role::Case(block) | Role::Inside(block) => {
            Some(block)
        }
    }
}

/// Rule K5: each block stands after its parent.
#[tactic(auto, using(crate::proofs::Parenthood::order_rules))]
pub fn check_order(nodes: &[Node], roles: &[Role]) -> Result<(), Fault>
    requires { AreRoles nodes.now roles.now }
    ensures passes { OnOk result (IsUnbroken nodes.now K5) }
    ensures refused { IfErr result (IsBroken nodes.now K5) }
{
    for (block, node) in nodes.iter().enumerate() {
        if !node.reached {
            continue;
        }
        if let Some(parent) = parent(roles[block])
            && block <= parent
        {
            return Err(refused(Rule::K5, node.at));
        }
    }
    Ok(())
}

/// What each block is to its parent. It refuses by rule K4: a block other than the first has not exactly
/// one parent.
pub fn roles(alloc: Global, headers: Headers) -> Result<Vec<Role>, Fault>
    requires { IsFormed headers }
    ensures roles { IfOk result (λ roles. AreRoles headers.entry roles.items) }
    ensures passes { OnOk result (IsUnbroken headers.entry K4) }
    ensures refused { IfErr result (IsBroken headers.entry K4) }
{
    let nodes = headers.nodes();
    let cases = Cases::of(alloc, headers)?;
    let entries = entry_table(alloc, &cases)?;
    let roles = all_roles(alloc, &cases, &entries)?;
    check_orphans(nodes, &roles)?;
    Ok(roles)
}

// Relations between blocks, as lists of links.
ghost use Rattle.std.specs.Prelude.{◌≡◌, ◌<◌, length, None, IfOk, OnOk, IfErr};
ghost use Rattle.structure_rules.specs.Graph.{nth};
ghost use Rattle.nest_place.specs.Links.{AreWithin, IsTable, IsSingle, IsRightEnd};
ghost use Rattle.nest_place.specs.Checks.{fault_by};

use crate::refusal::refused;
use spv_words::{Fault, Rule};
use std::alloc::{AllocError, Global};
use structure_rules::Node;

/// A block, and another to which it is related.
pub type Link = (usize, usize);

/// One block is related to two others.
#[derive(Clone, Copy, Debug, PartialEq, Eq)]
pub struct Clash {
    pub block: usize,
    pub first: usize,
    pub second: usize,
}

/// Why links make no table.
#[derive(Clone, Copy, Debug, PartialEq, Eq)]
pub enum NoTable {
    Clash(Clash),
    Memory,
}

impl From<AllocError> for NoTable {
    ghost use Rattle.nest_place.specs.declared.links.NoTable.TheVariants.{Memory};

    ghost from_gives = { λ _ e. e ≡ Memory };

    fn from(_: AllocError) -> Self {
        NoTable::Memory
    }
}

/// The word at which a block stands.
fn word_of(nodes: &[Node], block: usize) -> u32
    ensures { result ≡ (nth nodes.now block).at }
{
    nodes.get(block).map_or(0, |node| node.at)
}

impl NoTable {
    /// The refusal by a rule at the block that is related to two others.
    pub fn at_block(self, nodes: &[Node], rule: Rule) -> Fault
        ensures { result ≡ fault_by nodes.now rule self }
    {
        match self {
            NoTable::Memory => Fault::Memory,
            NoTable::Clash(clash) => refused(rule, word_of(nodes, clash.block)),
        }
    }
}

/// For each of `count` blocks the one to which the links relate it, where no block is related to two.
#[tactic(auto, using(crate::proofs::LinkLemmas::table_rules))]
pub fn table_of(alloc: Global, count: usize, links: &[Link]) -> Result<Vec<Option<usize>>, NoTable>
    requires { AreWithin count links.now }
    ensures table { IfOk result (λ table. IsTable links.now table.items) }
    ensures sized { IfOk result (λ table. length table.items ≡ count) }
    ensures single { OnOk result (IsSingle links.now) }
    ensures clash { IfErr result (IsRightEnd links.now) }
{
    let mut table = vec![in alloc; None; count]?;
    for (block, other) in links {
        match table[*block] {
            None => table[*block] = Some(*other),
            Some(first) if first == *other => {}
            Some(first) => {
                return Err(NoTable::Clash(Clash {
                    block: *block,
                    first,
                    second: *other,
                }));
            }
        }
    }
    Ok(table)
}

/// The same, with no entries where there are no links.
pub fn short_table_of(
    alloc: Global,
    count: usize,
    links: &[Link],
) -> Result<Vec<Option<usize>>, NoTable>
    requires { AreWithin count links.now }
    ensures table { IfOk result (λ table. IsTable links.now table.items) }
    ensures single { OnOk result (IsSingle links.now) }
    ensures clash { IfErr result (IsRightEnd links.now) }
{
    if links.is_empty() {
        return Ok(Vec::new(alloc));
    }
    table_of(alloc, count, links)
}

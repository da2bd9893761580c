// Chains of case targets that fall through.
ghost use Rattle.std.specs.Prelude.{◌≡◌, ◌++◌, ◌∷◌, [], true, length, map, filter, if◌then◌else◌, IfOk, OnOk};
ghost use Rattle.structure_rules.specs.Graph.{graph, nth, leads_to};
ghost use Rattle.structure_rules.specs.Structure.{fall_links};
ghost use Rattle.structure_recover.specs.Arms.{AreTargets};
ghost use Rattle.switch_ladder.specs.Ladder.{items_of, begins_chain as begins_chain_at, chain_of, chains_of as chains_at};

use nest_place::{EdgeKind, Places};
use spv_module::Function;
use spv_words::Memory;
use std::alloc::{AllocError, Global};
use structure_recover::targets_of;

/// Whether a switch enters the case target, and no case falls into it.
#[tactic(auto, using(crate::proofs::Chained::begin_rules))]
fn begins_chain(places: &Places, head: usize, target: usize) -> bool
    requires reached { (nth places.now head).reached ≡ true }
    requires leads { leads_to target (nth places.now head) ≡ true }
    ensures { result ≡ begins_chain_at places.now head target }
{
    match places.edge(head, target) {
        EdgeKind::Enter => places.fallen_from(target).is_none(),
        _ => false,
    }
}

/// The case target, followed by the one into which it falls, and so on.
#[tactic(auto, using(crate::proofs::Chained::chain_rules))]
fn chain(alloc: Global, places: &Places, first: usize) -> Result<Vec<usize>, AllocError>
    ensures { IfOk result (λ chain. chain.items ≡ chain_of (fall_links places.now) (length places.now) first) }
{
    let mut chain = Vec::new(alloc);
    let mut at = first;
    for turn in 0..places.nodes().len() {
        chain.push(at)?;
        match places.falls_into(at) {
            None => return Ok(chain),
            Some(next) => at = next,
        }
    }
    Ok(chain)
}

/// Adds a block that passes.
pub fn add_if(blocks: &mut Vec<usize>, block: usize, passes: bool) -> Result<(), AllocError>
    ensures { OnOk result (blocks.new.items ≡ blocks.old.items ++ (if passes then block ∷ [] else [])) }
{
    if passes {
        blocks.push(block)?;
    }
    Ok(())
}

/// The case targets of a switch into which no case falls.
fn starts(
    alloc: Global,
    places: &Places,
    head: usize,
    targets: &[usize],
) -> Result<Vec<usize>, AllocError>
    requires reached { (nth places.now head).reached ≡ true }
    requires targets { AreTargets places.now head targets.now }
    ensures { IfOk result (λ starts. starts.items ≡ filter (begins_chain_at places.now head) targets.now) }
{
    let mut starts = Vec::new(alloc);
    for target in targets {
        let begins = begins_chain(places, head, *target);
        add_if(&mut starts, *target, begins)?;
    }
    Ok(starts)
}

/// The chains of a switch, where these are its targets.
pub fn chains_among(
    alloc: Global,
    places: &Places,
    header: usize,
    targets: &[usize],
) -> Result<Vec<Vec<usize>>, Memory>
    requires reached { (nth places.now header).reached ≡ true }
    requires targets { AreTargets places.now header targets.now }
    ensures { IfOk result (λ chains. map items_of chains.items ≡ chains_at places.now header) }
{
    let starts = starts(alloc, places, header, targets)?;
    let mut chains = Vec::new(alloc);
    for start in &starts {
        chains.push(chain(alloc, places, *start)?)?;
    }
    Ok(chains)
}

/// The case targets of a switch, each followed by the one into which its construct falls
/// through (GLSL 4.60, section 6.2). The chains come in the order in which their first targets stand in
/// the function.
pub fn chains(
    alloc: Global,
    _f: &Function,
    places: &Places,
    header: usize,
) -> Result<Vec<Vec<usize>>, Memory>
    requires graph { places.now ≡ graph _f.now }
    requires reached { (nth places.now header).reached ≡ true }
    ensures chains { IfOk result (λ chains. map items_of chains.items ≡ chains_at places.now header) }
{
    let targets = targets_of(alloc, places, header)?;
    chains_among(alloc, places, header, &targets)
}

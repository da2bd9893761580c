// The moves of the edges into a block, by the blocks from which these come.
ghost use Rattle.std.specs.Prelude.{◌≡◌, ◌==◌, ℕ, Some, None, IfOk, OnOk, find, if◌then◌else◌};
ghost use Rattle.std.specs.Option.{option_copied};
ghost use Rattle.std.specs.BTreeMap.{get};
ghost use Rattle.std.specs.Ordering.{nat_cmp};
ghost use Rattle.function_plan.specs.Moved.{items_at, or_moves, is_from, first_from, moves_from};

use phi_copies::Move;
use spv_words::Memory;
use std::alloc::{AllocError, Global};
use std::collections::BTreeMap;

// So many are looked through one after another.
const FEW: usize = 8;

/// The moves of the edges into a block, by the blocks from which these come: of a few edges in a list, in which the first of a
/// block counts, and else in a tree.
#[derive(Drop)]
pub enum Moves {
    Few(Vec<(usize, Vec<Move>)>),
    Many(BTreeMap<usize, Vec<Move>>),
}

/// Puts the moves of the edge from a block, where it has none.
fn put_first(
    tree: &mut BTreeMap<usize, Vec<Move>>,
    from: usize,
    own: Vec<Move>,
) -> Result<(), AllocError>
    ensures { OnOk result ((b : ℕ) → get nat_cmp tree.new b ≡ or_moves (get nat_cmp tree.old b) (if from == b then Some own else None)) }
{
    if tree.contains_key(&from) {
        return Ok(());
    }
    tree.insert(from, own)?;
    Ok(())
}

/// The first moves of each block in a list, as a tree.
fn tree_of(
    alloc: Global,
    list: Vec<(usize, Vec<Move>)>,
) -> Result<BTreeMap<usize, Vec<Move>>, AllocError>
    ensures { IfOk result (λ tree. (b : ℕ) → get nat_cmp tree b ≡ first_from list.items b) }
{
    let mut tree = BTreeMap::new(alloc);
    for edge in list {
        put_first(&mut tree, edge.0, edge.1)?;
    }
    Ok(tree)
}

/// The first edge from a block in a list.
fn first_edge(list: &[(usize, Vec<Move>)], from: usize) -> Option<&(usize, Vec<Move>)>
    ensures { option_copied result ≡ find (is_from from) list.now }
{
    list.iter().find(|edge| edge.0 == from)
}

/// The first moves of a block in a list.
fn first_in(list: &[(usize, Vec<Move>)], from: usize) -> &[Move]
    ensures { result.now ≡ items_at (first_from list.now from) }
{
    match first_edge(list, from) {
        Some(edge) => edge.1.as_slice(),
        None => &[],
    }
}

/// The moves of a block in a tree.
fn in_tree(tree: &BTreeMap<usize, Vec<Move>>, from: usize) -> &[Move]
    ensures { result.now ≡ items_at (get nat_cmp tree.now from) }
{
    match tree.get(&from) {
        Some(moves) => moves.as_slice(),
        None => &[],
    }
}

impl Moves {
    /// The moves of a list, in which the first of a block counts. There is an error only for want of memory.
    pub fn of(alloc: Global, list: Vec<(usize, Vec<Move>)>) -> Result<Moves, Memory>
        ensures { IfOk result (λ moves. (b : ℕ) → moves_from moves b ≡ first_from list.items b) }
    {
        if list.len() <= FEW {
            return Ok(Moves::Few(list));
        }
        Ok(Moves::Many(tree_of(alloc, list)?))
    }

    /// The moves of the edge from a block.
    pub fn from(&self, from: usize) -> &[Move]
        ensures { result.now ≡ items_at (moves_from self.now from) }
    {
        match self {
            Moves::Few(list) => first_in(list.as_slice(), from),
            Moves::Many(tree) => in_tree(tree, from),
        }
    }
}

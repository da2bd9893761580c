// Which pair gives a variable its value, and which variables have spares.
ghost use Rattle.std.specs.Prelude.{◌≡◌, IfOk, OnOk, length};
ghost use Rattle.std.specs.BTreeMap.{get};
ghost use Rattle.std.specs.Ordering.{nat_cmp};
ghost use Rattle.phi_copies.specs.Sequence.{move_of as move_by};
ghost use Rattle.phi_copies.specs.Kept.{ArePlaces, AreNarrow, source_place as source_place_by};

use crate::moves::{Move, Src, Var};
use spv_words::Memory;
use std::alloc::Global;
use std::collections::BTreeMap;

/// The places of the pairs, by the numbers of their targets.
pub fn places(alloc: Global, pairs: &[(Var, Src)]) -> Result<BTreeMap<u32, usize>, Memory>
    ensures places { IfOk result (λ m. ArePlaces pairs.now (length pairs.now) (get nat_cmp m)) }
    ensures narrow { OnOk result (AreNarrow pairs.now (length pairs.now)) }
{
    let mut places = BTreeMap::new(alloc);
    for (i, pair) in pairs.iter().enumerate() {
        places.insert(pair.0.0, i)?;
    }
    Ok(places)
}

/// The place of the pair that gives a source its value, unless a spare stands for it.
pub fn source_place(
    places: &BTreeMap<u32, usize>,
    spares: &BTreeMap<u32, u32>,
    source: Src,
) -> Option<usize>
    ensures { result ≡ source_place_by (get nat_cmp places.now) (get nat_cmp spares.now) source }
{
    match source {
        Src::Var(v) => match spares.get(&v.0).copied() {
            Some(_) => None,
            None => places.get(&v.0).copied(),
        },
        Src::Constant(_) => None,
    }
}

/// The move that makes a copy.
pub fn move_of(spares: &BTreeMap<u32, u32>, target: Var, source: Src) -> Move
    ensures { result ≡ move_by (target, source) (get nat_cmp spares.now) }
{
    match source {
        Src::Var(v) => match spares.get(&v.0).copied() {
            Some(spare) => Move::Restore(target, spare),
            None => Move::Set(target, source),
        },
        Src::Constant(_) => Move::Set(target, source),
    }
}

// The moves, while they are listed.
ghost use Rattle.std.specs.Prelude.{◌≡◌, ◌<◌, ◌+◌, true, IfOk, OnOk};
ghost use Rattle.std.specs.BTreeSet.{contains, btree_set_len, IsLowerBound};
ghost use Rattle.std.specs.Ordering.{nat_cmp};
ghost use Rattle.phi_copies.specs.Sequence.{HaveOwnTargets};
ghost use Rattle.phi_copies.specs.Listed.{IsWork};

use crate::counts::{all_places, reader_counts, release, unread_places};
use crate::moves::{Move, Src, Var};
use crate::places::{move_of, places, source_place};
use spv_words::Memory;
use std::alloc::Global;
use std::collections::{BTreeMap, BTreeSet};

/// The moves so far; which pairs are left, and how many of these read each target; the pairs that
/// are ready; and the spares.
#[derive(Drop)]
pub struct Work {
    places: BTreeMap<u32, usize>,
    counts: Vec<usize>,
    left: BTreeSet<usize>,
    ready: BTreeSet<usize>,
    spares: BTreeMap<u32, u32>,
    saves: usize,
    pub moves: Vec<Move>,
}

impl Work {
    /// No move yet.
    pub fn new(alloc: Global, pairs: &[(Var, Src)]) -> Result<Work, Memory>
        requires { HaveOwnTargets pairs.now }
        ensures { IfOk result (IsWork pairs.now) }
    {
        let places = places(alloc, pairs)?;
        let spares = BTreeMap::new(alloc);
        let counts = reader_counts(alloc, pairs, &places, &spares)?;
        Ok(Work {
            places,
            left: all_places(alloc, pairs.len())?,
            ready: unread_places(alloc, &counts)?,
            counts,
            spares,
            saves: 0,
            moves: Vec::new(alloc),
        })
    }

    /// Saves the target of the first pair that is left, where none is ready.
    fn save(&mut self, pairs: &[(Var, Src)], first: usize) -> Result<(), Memory>
        requires own { HaveOwnTargets pairs.now }
        requires work { IsWork pairs.now self.old }
        requires stuck { btree_set_len self.old.ready ≡ 0 }
        requires left { contains nat_cmp self.old.left first ≡ true }
        requires least { IsLowerBound nat_cmp self.old.left first }
        ensures work { OnOk result (IsWork pairs.now self.new) }
        ensures left { OnOk result (btree_set_len self.new.left ≡ btree_set_len self.old.left) }
        ensures ready { OnOk result (btree_set_len self.new.ready ≡ 1) }
    {
        let target = pairs[first].0;
        let spare = self.saves as u32;
        self.moves.push(Move::Save(spare, target))?;
        self.spares.insert(target.0, spare)?;
        self.saves += 1;
        self.counts[first] = 0;
        self.ready.insert(first)?;
        Ok(())
    }

    /// Copies the first pair that is ready.
    fn copy(&mut self, pairs: &[(Var, Src)]) -> Result<(), Memory>
        requires own { HaveOwnTargets pairs.now }
        requires work { IsWork pairs.now self.old }
        requires some { 0 < btree_set_len self.old.ready }
        ensures work { OnOk result (IsWork pairs.now self.new) }
        ensures left { OnOk result (btree_set_len self.new.left + 1 ≡ btree_set_len self.old.left) }
    {
        let Some(next) = self.ready.pop_first() else {
            return Ok(());
        };
        self.left.remove(&next);
        let (target, source) = pairs[next];
        self.moves.push(move_of(&self.spares, target, source))?;
        let place = source_place(&self.places, &self.spares, source);
        release(place, &mut self.counts, &mut self.ready)?;
        Ok(())
    }

    /// Lists all moves.
    pub fn list(&mut self, pairs: &[(Var, Src)]) -> Result<(), Memory>
        requires own { HaveOwnTargets pairs.now }
        requires work { IsWork pairs.now self.old }
        ensures work { OnOk result (IsWork pairs.now self.new) }
        ensures whole { OnOk result (btree_set_len self.new.left ≡ 0) }
    {
        while let Some(first) = self.left.first().copied() {
            if self.ready.is_empty() {
                self.save(pairs, first)?;
            } else {
                self.copy(pairs)?;
            }
        }
        Ok(())
    }
}

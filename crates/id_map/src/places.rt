// A map from ids to places in a list: a slot for each id of a range, and a tree for all others.
ghost use Rattle.std.specs.Prelude.{◌≡◌, ◌==◌, ℕ, IfOk, OnOk, is_some, Some, None, if◌then◌else◌};
ghost use Rattle.std.specs.BTreeMap.{get};
ghost use Rattle.std.specs.Ordering.{nat_cmp};
ghost use Rattle.id_map.specs.Entries.{id_place};

use crate::range::{Span, most_slots, slot};
use std::alloc::{AllocError, Global};
use std::collections::BTreeMap;

/// What a slot holds whose id has no place, or one that is no such word.
const NONE: u32 = u32::MAX;

/// A place for each of some ids. It is a map as `IdMap` is, but that a slot takes four bytes: nearly all places are words.
#[derive(Drop)]
pub struct PlaceMap {
    least: u32,
    slots: Vec<u32>,
    others: BTreeMap<u32, usize>,
}

impl PlaceMap {
    /// A map without entries, with slots for about these ids: at most some 16 for each. There is an error only for want of memory.
    pub fn for_ids(alloc: Global, ids: &[u32]) -> Result<PlaceMap, AllocError>
        ensures { IfOk result (λ map. (id : ℕ) → id_place map id ≡ None) }
    {
        PlaceMap::spanning(alloc, Span::of(ids))
    }

    /// A map without entries, with slots for the ids of a span: at most some 16 for each. There is an error only for want of memory.
    pub fn spanning(alloc: Global, span: Span) -> Result<PlaceMap, AllocError>
        ensures { IfOk result (λ map. (id : ℕ) → id_place map id ≡ None) }
    {
        let (least, count) = span.slots();
        PlaceMap::with_slots(alloc, least, count)
    }

    /// A map without entries, with slots for the ids below a bound: at most some 16 for each of so many ids. There is an error only
    /// for want of memory.
    pub fn below(alloc: Global, bound: u32, count: usize) -> Result<PlaceMap, AllocError>
        ensures { IfOk result (λ map. (id : ℕ) → id_place map id ≡ None) }
    {
        PlaceMap::with_slots(alloc, 0, most_slots(count).min(bound as usize))
    }

    /// A map without entries, with so many slots from an id on.
    fn with_slots(alloc: Global, least: u32, count: usize) -> Result<PlaceMap, AllocError>
        ensures { IfOk result (λ map. (id : ℕ) → id_place map id ≡ None) }
    {
        Ok(PlaceMap {
            least,
            slots: vec![in alloc; NONE; count]?,
            others: BTreeMap::new(alloc),
        })
    }

    /// The place of an id that stands in the tree.
    fn other(&self, id: u32) -> Option<usize>
        ensures { result ≡ get nat_cmp self.now.others id }
    {
        self.others.get(&id).copied()
    }

    /// The place of an id.
    #[inline(always)]
    pub fn get(&self, id: u32) -> Option<usize>
        ensures { result ≡ id_place self.now id }
    {
        match slot(self.least, self.slots.len(), id) {
            Some(k) if self.slots[k] != NONE => Some(self.slots[k] as usize),
            _ => self.other(id),
        }
    }

    /// Whether an id has a place.
    #[inline(always)]
    pub fn has(&self, id: u32) -> bool
        ensures { result ≡ is_some (id_place self.now id) }
    {
        self.get(id).is_some()
    }

    /// Gives an id a place in the tree.
    fn put_other(&mut self, id: u32, place: usize) -> Result<(), AllocError>
        ensures least { OnOk result (self.new.least ≡ self.old.least) }
        ensures slots { OnOk result (self.new.slots ≡ self.old.slots) }
        ensures others { OnOk result ((other : ℕ) → get nat_cmp self.new.others other ≡ (if id == other then Some place else get nat_cmp self.old.others other)) }
    {
        self.others.insert(id, place)?;
        Ok(())
    }

    /// Gives an id a place, instead of the one that it had. There is an error only for want of memory.
    #[inline(always)]
    pub fn insert(&mut self, id: u32, place: usize) -> Result<(), AllocError>
        ensures { OnOk result ((other : ℕ) → id_place self.new other ≡ (if id == other then Some place else id_place self.old other)) }
    {
        match slot(self.least, self.slots.len(), id) {
            Some(k) if place < NONE as usize => {
                self.slots[k] = place as u32;
                Ok(())
            }
            Some(k) => {
                self.slots[k] = NONE;
                self.put_other(id, place)?;
                Ok(())
            }
            None => self.put_other(id, place),
        }
    }

    /// Takes the place of an id out of the tree.
    #[inline(always)]
    fn drop_other(&mut self, id: u32)
        ensures least { self.new.least ≡ self.old.least }
        ensures slots { self.new.slots ≡ self.old.slots }
        ensures others { (other : ℕ) → get nat_cmp self.new.others other ≡ (if id == other then None else get nat_cmp self.old.others other) }
    {
        self.others.remove(&id);
    }

    /// Takes the place of an id away.
    pub fn remove(&mut self, id: u32)
        ensures { (other : ℕ) → id_place self.new other ≡ (if id == other then None else id_place self.old other) }
    {
        match slot(self.least, self.slots.len(), id) {
            Some(k) => {
                self.slots[k] = NONE;
                self.drop_other(id);
            }
            None => self.drop_other(id),
        }
    }
}

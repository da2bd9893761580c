// A map from ids to values: a slot for each id of a range, and a tree for all others.
ghost use Rattle.std.specs.Prelude.{◌≡◌, ◌==◌, ◌<◌, ℕ, IfOk, OnOk, Some, None, is_some, if◌then◌else◌};
ghost use Rattle.std.specs.BTreeMap.{get};
ghost use Rattle.id_map.specs.Entries.{entry_in};

use crate::range::{Span, most_slots, slot};
use std::alloc::{AllocError, Global};
use std::collections::BTreeMap;

/// A value for each of some ids. The ids of a function lie close together, so each id of a range has a slot, which is found at
/// once; what is given to an id outside of the range stands in a tree.
#[derive(Drop)]
pub struct IdMap<V> {
    least: u32,
    slots: Vec<Option<V>>,
    others: BTreeMap<u32, V>,
}

impl<V: Copy> IdMap<V> {
    /// A map without entries, with slots for about these ids: at most some 16 for each. There is an error only for want of memory.
    pub fn for_ids(alloc: Global, ids: &[u32]) -> Result<IdMap<V>, AllocError>
        ensures { IfOk result (λ map. (id : ℕ) → entry_in map id ≡ None) }
    {
        IdMap::spanning(alloc, Span::of(ids))
    }

    /// A map without entries, with slots for the ids of a span: at most some 16 for each. There is an error only for want of memory.
    pub fn spanning(alloc: Global, span: Span) -> Result<IdMap<V>, AllocError>
        ensures { IfOk result (λ map. (id : ℕ) → entry_in map id ≡ None) }
    {
        let (least, count) = span.slots();
        IdMap::with_slots(alloc, least, count)
    }

    /// A map without entries, with slots for the ids below a bound: at most some 16 for each of so many ids. There is an error only
    /// for want of memory.
    pub fn below(alloc: Global, bound: u32, count: usize) -> Result<IdMap<V>, AllocError>
        ensures { IfOk result (λ map. (id : ℕ) → entry_in map id ≡ None) }
    {
        IdMap::with_slots(alloc, 0, most_slots(count).min(bound as usize))
    }

    /// A map without entries, with so many slots from an id on.
    fn with_slots(alloc: Global, least: u32, count: usize) -> Result<IdMap<V>, AllocError>
        ensures { IfOk result (λ map. (id : ℕ) → entry_in map id ≡ None) }
    {
        Ok(IdMap {
            least,
            slots: vec![in alloc; None; count]?,
            others: BTreeMap::new(alloc),
        })
    }

    /// The value of an id.
    #[inline(always)]
    pub fn get(&self, id: u32) -> Option<V>
        ensures { result ≡ entry_in self.now id }
    {
        match slot(self.least, self.slots.len(), id) {
            Some(k) => self.slots[k],
            None => self.others.get(&id).copied(),
        }
    }

    /// Whether an id has a value.
    #[inline(always)]
    pub fn has(&self, id: u32) -> bool
        ensures { result ≡ is_some (entry_in self.now id) }
    {
        self.get(id).is_some()
    }

    /// Gives an id a value, in place of the one that it had. There is an error only for want of memory.
    #[inline(always)]
    pub fn insert(&mut self, id: u32, value: V) -> Result<(), AllocError>
        ensures { OnOk result ((other : ℕ) → entry_in self.new other ≡ (if id == other then Some value else entry_in self.old other)) }
    {
        match slot(self.least, self.slots.len(), id) {
            Some(k) => self.slots[k] = Some(value),
            None => {
                self.others.insert(id, value)?;
            }
        }
        Ok(())
    }

    /// Takes the value of an id away.
    pub fn remove(&mut self, id: u32)
        ensures { (other : ℕ) → entry_in self.new other ≡ (if id == other then None else entry_in self.old other) }
    {
        match slot(self.least, self.slots.len(), id) {
            Some(k) => self.slots[k] = None,
            None => {
                self.others.remove(&id);
            }
        }
    }
}

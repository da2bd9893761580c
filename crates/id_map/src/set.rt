// A set of ids.
ghost use Rattle.std.specs.Prelude.{◌≡◌, ◌==◌, ◌||◌, ℕ, IfOk, OnOk, false};
ghost use Rattle.id_map.specs.Entries.{is_in};

use crate::{IdMap, Span};
use std::alloc::{AllocError, Global};

/// A set of ids.
#[derive(Drop)]
pub struct IdSet {
    marks: IdMap<()>,
}

impl IdSet {
    /// The empty set, with slots for the ids of a span: at most some 16 for each. There is an error only for want of memory.
    pub fn spanning(alloc: Global, span: Span) -> Result<IdSet, AllocError>
        ensures { IfOk result (λ set. (id : ℕ) → is_in set id ≡ false) }
    {
        Ok(IdSet {
            marks: IdMap::spanning(alloc, span)?,
        })
    }

    /// The empty set, with slots for the ids below a bound: at most some 16 for each of so many ids. There is an error only for want
    /// of memory.
    pub fn below(alloc: Global, bound: u32, count: usize) -> Result<IdSet, AllocError>
        ensures { IfOk result (λ set. (id : ℕ) → is_in set id ≡ false) }
    {
        Ok(IdSet {
            marks: IdMap::below(alloc, bound, count)?,
        })
    }

    /// Whether an id is in the set.
    #[inline(always)]
    pub fn has(&self, id: u32) -> bool
        ensures { result ≡ is_in self.now id }
    {
        self.marks.has(id)
    }

    /// Puts an id into the set. There is an error only for want of memory.
    #[inline(always)]
    pub fn insert(&mut self, id: u32) -> Result<(), AllocError>
        ensures { OnOk result ((other : ℕ) → is_in self.new other ≡ (is_in self.old other || (id == other))) }
    {
        self.marks.insert(id, ())?;
        Ok(())
    }
}

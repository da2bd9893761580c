// Where the names of keys stand.
ghost use Rattle.std.specs.Prelude.{◌≡◌, None, Some, IfOk, OnOk, if◌then◌else◌};
ghost use Rattle.name_alloc.specs.declared.claims.Key.{Key};
ghost use Rattle.name_alloc.specs.declared.claims.Key.TheVariants.{Id as IdOf};
ghost use Rattle.name_alloc.specs.Keys.{same_key};
ghost use Rattle.name_alloc.specs.Places.{place_in};

use crate::claims::{Claim, Key};
use id_map::{PlaceMap, Span};
use spv_module::Id;
use spv_words::Memory;
use std::alloc::Global;
use std::collections::HashMap;

/// The place of each key's name among the names. Most keys are ids, whose places are found at once.
#[derive(Drop)]
pub struct Places {
    ids: PlaceMap,
    others: HashMap<Key, usize>,
}

/// The ids that are claimed.
fn span(claims: &[Claim]) -> Span {
    let mut span = Span::new();
    for claimed in claims {
        if let Key::Id(id) = claimed.key {
            span.add(id.0);
        }
    }
    span
}

impl Places {
    /// No places, with slots for those of the ids that are claimed.
    pub fn for_claims(alloc: Global, claims: &[Claim]) -> Result<Places, Memory>
        ensures { IfOk result (λ places. (key : Key) → place_in places key ≡ None) }
    {
        Ok(Places {
            ids: PlaceMap::spanning(alloc, span(claims))?,
            others: HashMap::new(alloc),
        })
    }

    /// The place of an id's name.
    pub fn of_id(&self, id: Id) -> Option<usize>
        ensures { result ≡ place_in self.now (IdOf id) }
    {
        self.ids.get(id.0)
    }

    /// The place of a key's name.
    #[inline(always)]
    pub fn of(&self, key: Key) -> Option<usize>
        ensures { result ≡ place_in self.now key }
    {
        match key {
            Key::Id(id) => self.of_id(id),
            _ => self.others.get(&key).copied(),
        }
    }

    /// Gives a key's name a place, instead of the one that it had.
    pub fn put(&mut self, key: Key, place: usize) -> Result<(), Memory>
        ensures { OnOk result ((other : Key) → place_in self.new other ≡ (if same_key key other then Some place else place_in self.old other)) }
    {
        match key {
            Key::Id(id) => self.ids.insert(id.0, place)?,
            _ => {
                self.others.insert(key, place)?;
            }
        }
        Ok(())
    }
}

// The memory of a dispatch.
ghost use Rattle.std.specs.Prelude.{ℕ, ◌≡◌, ◌<◌, [], length, IfOk, OnOk};
ghost use Rattle.dispatch_semantics.specs.Store.{found_at, put as put_by, home as home_of};
ghost use Rattle.traces.specs.Events.{Location};
ghost use Rattle.group_items.specs.Events.{location_of};
ghost use Rattle.group_items.specs.Memory.{stored, word_among, put_among};

use crate::event::LeafPlace;
use spv_words::Memory;
use std::alloc::Global;
use std::collections::BTreeMap;

/// The words of a memory by their places, with 0 elsewhere. Places in the memory of a workgroup stand there once for each
/// workgroup.
#[derive(Drop)]
pub struct Store {
    maps: Vec<BTreeMap<LeafPlace, u32>>,
}

/// The map that has a place: that of the workgroup, or the first one for what all workgroups see.
fn home(place: &LeafPlace, group: usize) -> usize
    ensures { result ≡ home_of group (location_of place.now) }
{
    match place {
        LeafPlace::Shared(_, _) => group,
        _ => 0,
    }
}

fn word_in(words: &BTreeMap<LeafPlace, u32>, place: &LeafPlace) -> u32
    ensures { result ≡ word_among words.now.entries (location_of place.now) }
{
    words.get(place).copied().unwrap_or(0)
}

fn put_in(words: &mut BTreeMap<LeafPlace, u32>, place: LeafPlace, word: u32) -> Result<(), Memory>
    ensures { OnOk result ((at : Location) → word_among words.new.entries at ≡ put_among (location_of place) word (word_among words.old.entries) at) }
{
    words.insert(place, word)?;
    Ok(())
}

fn empty(alloc: Global) -> BTreeMap<LeafPlace, u32>
    ensures { result.entries ≡ [] }
{
    BTreeMap::new(alloc)
}

impl Store {
    /// A memory of 0 alone, for so many workgroups.
    pub fn new(alloc: Global, groups: usize) -> Result<Store, Memory>
        ensures rooms { IfOk result (λ store. length store.maps.items ≡ groups) }
        ensures zero { IfOk result (λ store. (group : ℕ) (at : Location) → stored store.maps.items group at ≡ 0) }
    {
        let mut maps = Vec::with_capacity(alloc, groups)?;
        for turn in 0..groups {
            maps.push(empty(alloc))?;
        }
        Ok(Store { maps })
    }

    /// The word that an invocation of this workgroup finds at a place.
    pub fn word(&self, group: usize, place: &LeafPlace) -> u32
        ensures { result ≡ found_at (stored self.now.maps.items) group (location_of place.now) }
    {
        match self.maps.get(home(place, group)) {
            None => 0,
            Some(words) => word_in(words, place),
        }
    }

    /// Puts the word of an invocation of this workgroup at a place.
    pub fn put(
        &mut self,
        alloc: Global,
        group: usize,
        place: &LeafPlace,
        word: u32,
    ) -> Result<(), Memory>
        requires { group < length self.old.maps.items }
        ensures put { OnOk result (stored self.new.maps.items ≡ put_by group (location_of place.now) word (stored self.old.maps.items)) }
        ensures rooms { length self.new.maps.items ≡ length self.old.maps.items }
    {
        let place_home = home(place, group);
        put_in(&mut self.maps[place_home], place.clone_in(alloc)?, word)?;
        Ok(())
    }
}

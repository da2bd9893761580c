// Where a value is mentioned.
ghost use Rattle.std.specs.Prelude.{◌≡◌, IfOk, length};
ghost use Rattle.hoist_plan.specs.Kept.{places_in};

use std::alloc::{AllocError, Global};
use use_chains::SlotPlace;

/// Where the linked slots of an id stand, in text order. Most ids are mentioned once, and need no list.
#[derive(Drop)]
pub enum Mentioned {
    Once(SlotPlace),
    Listed(Vec<SlotPlace>),
}

impl Mentioned {
    /// These places.
    pub fn of(alloc: Global, places: &[SlotPlace]) -> Result<Mentioned, AllocError>
        ensures { IfOk result (λ mentioned. places_in mentioned ≡ places.now) }
    {
        match places {
            [at] => Ok(Mentioned::Once(*at)),
            _ => {
                let listed = places.iter().copied().collect::<Vec<SlotPlace>>(alloc)?;
                Ok(Mentioned::Listed(listed))
            }
        }
    }

    /// The places.
    pub fn as_slice(&self) -> &[SlotPlace]
        ensures { result.now ≡ places_in self.now }
    {
        match self {
            Mentioned::Once(at) => std::slice::from_ref(at),
            Mentioned::Listed(places) => places.as_slice(),
        }
    }

    /// How many they are.
    pub fn len(&self) -> usize
        ensures { result ≡ length (places_in self.now) }
    {
        match self {
            Mentioned::Once(_) => 1,
            Mentioned::Listed(places) => places.len(),
        }
    }
}

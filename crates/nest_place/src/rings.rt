// The lists of constructs round blocks, while blocks are placed.
ghost use Rattle.std.specs.Prelude.{◌≡◌, ◌<◌, ◌++◌, ◌∷◌, [], length, IfOk, OnOk, MatchOption};
ghost use Rattle.nest_place.specs.Spots.{list_at};
ghost use Rattle.nest_place.specs.Rings.{IsRing};

use std::alloc::{AllocError, Global};
use std::marker::Model;
use structure_rules::Part;

/// A construct, and the place of the list of those round it.
#[derive(Clone, Copy, Debug)]
pub struct Ring {
    pub part: Part,
    pub around: usize,
}

/// Lists of constructs, from inside out: the empty one, and for each ring its construct and those round
/// it. Contracts see the lists.
#[derive(Drop)]
pub struct Rings {
    rings: Vec<Ring>,
}

impl Model for Rings {
    ghost use Rattle.std.specs.Prelude.{[], ◌∷◌};
    ghost use Rattle.nest_place.specs.Views.{Lists};
    ghost use Rattle.nest_place.specs.Rings.{grown, AreInward};

    ghost Value = { Lists };

    ghost view = { λ r. grown ([] ∷ []) r.rings.items };

    ghost invariant = { λ r. AreInward 1 r.rings.items };
}

impl Rings {
    /// The empty list alone.
    pub fn none(alloc: Global) -> Rings
        ensures { result ≡ [] ∷ [] }
    {
        Rings {
            rings: Vec::new(alloc),
        }
    }

    /// The number of lists.
    pub fn len(&self) -> usize
        ensures { result ≡ length self.now }
    {
        1 + self.rings.len()
    }

    /// Adds the list at a place with one more construct inside.
    pub fn add(&mut self, part: Part, around: usize) -> Result<usize, AllocError>
        requires { around < length self.old }
        ensures place { IfOk result (λ place. place ≡ length self.old) }
        ensures lists { OnOk result (self.new ≡ self.old ++ (part ∷ list_at self.old around) ∷ []) }
    {
        self.rings.push(Ring { part, around })?;
        Ok(self.rings.len())
    }

    /// The ring of the list at a place. The first list is empty, and has none.
    pub fn ring(&self, place: usize) -> Option<Ring>
        requires { place < length self.now }
        ensures { MatchOption result (list_at self.now place ≡ []) (IsRing self.now place) }
    {
        if place == 0 {
            None
        } else {
            Some(self.rings[place - 1])
        }
    }
}

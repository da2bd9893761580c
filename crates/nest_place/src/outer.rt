// The lists of constructs round blocks.
ghost use Rattle.std.specs.Prelude.{◌≡◌, ◌<◌, ◌+◌, ◌++◌, length, IfOk, OnOk};
ghost use Rattle.nest_place.specs.Spots.{list_at};
ghost use Rattle.nest_place.specs.Shared.{IsLonger, IsBounds, IsWhole, AreBounds};

use crate::rings::Rings;
use std::alloc::{AllocError, Global};
use std::marker::Model;
use structure_rules::Part;

/// Where the constructs of a list lie.
#[derive(Clone, Copy, Debug)]
struct Bounds {
    start: usize,
    end: usize,
}

/// Where nothing lies.
const EMPTY: Bounds = Bounds { start: 0, end: 0 };

/// Lists of constructs, from inside out. Where a list is the end of another, they share its constructs.
/// Contracts see the lists.
#[derive(Drop)]
pub struct Constructs {
    parts: Vec<Part>,
    bounds: Vec<Bounds>,
}

impl Model for Constructs {
    ghost use Rattle.std.specs.Prelude.{map};
    ghost use Rattle.nest_place.specs.Views.{Lists};
    ghost use Rattle.nest_place.specs.Shared.{AreInside, list_in};

    ghost Value = { Lists };

    ghost view = { λ c. map (list_in c.parts.items) c.bounds.items };

    ghost invariant = { λ c. AreInside c.parts.items c.bounds.items };
}

/// Adds the constructs of the list at a place.
fn add_list(parts: &mut Vec<Part>, rings: &Rings, place: usize) -> Result<(), AllocError>
    requires { place < length rings.now }
    ensures { OnOk result (parts.new.items ≡ parts.old.items ++ list_at rings.now place) }
{
    let mut at = place;
    while let Some(ring) = rings.ring(at) {
        parts.push(ring.part)?;
        at = ring.around;
    }
    Ok(())
}

/// Where the list at a place lies. One that lies nowhere yet is added.
#[tactic(auto, using(crate::proofs::Sharing::whole_rules))]
fn whole_list(
    parts: &mut Vec<Part>,
    own: Bounds,
    rings: &Rings,
    place: usize,
) -> Result<Bounds, AllocError>
    requires place { place < length rings.now }
    requires own { IsBounds rings.now (place + 1) parts.old.items place own }
    ensures kept { OnOk result (IsLonger parts.old.items parts.new.items) }
    ensures own { IfOk result (IsWhole rings.now parts.new.items place) }
{
    if own.start < own.end {
        return Ok(own);
    }
    let start = parts.len();
    add_list(parts, rings, place)?;
    let end = parts.len();
    Ok(Bounds { start, end })
}

/// Makes the list at a place, and with it the list round its first construct, which is its end.
#[tactic(auto, using(crate::proofs::Sharing::bounds_empty))]
fn make_list(
    parts: &mut Vec<Part>,
    bounds: &mut Vec<Bounds>,
    rings: &Rings,
    place: usize,
) -> Result<(), AllocError>
    requires place { place < length rings.now }
    requires bounds { AreBounds rings.now (place + 1) parts.old.items bounds.old.items }
    ensures { OnOk result (AreBounds rings.now place parts.new.items bounds.new.items) }
{
    match rings.ring(place) {
        None => Ok(()),
        Some(ring) => {
            let own = whole_list(parts, bounds[place], rings, place)?;
            bounds[place] = own;
            bounds[ring.around] = Bounds {
                start: own.start + 1,
                end: own.end,
            };
            Ok(())
        }
    }
}

impl Constructs {
    /// The lists that rings make.
    #[tactic(auto, using(crate::proofs::Sharing::lists_rules))]
    pub fn of(alloc: Global, rings: &Rings) -> Result<Constructs, AllocError>
        ensures { IfOk result (λ lists. lists ≡ rings.now) }
    {
        // There is at least one for each ring.
        let mut parts = Vec::with_capacity(alloc, rings.len())?;
        let mut bounds = vec![in alloc; EMPTY; rings.len()]?;
        // From the last one back, as a ring names an earlier list.
        for place in (0..rings.len()).rev() {
            make_list(&mut parts, &mut bounds, rings, place)?;
        }
        Ok(Constructs { parts, bounds })
    }

    /// The list at a place.
    #[inline(always)]
    pub fn at(&self, place: usize) -> &[Part]
        requires { place < length self.now }
        ensures { result.now ≡ list_at self.now place }
    {
        let own = self.bounds[place];
        &self.parts[own.start..own.end]
    }
}

// The names of claims in their order.
ghost use Rattle.std.specs.Prelude.{◌≡◌, ◌++◌, false, List, IfOk, OnOk, is_some};
ghost use Rattle.glsl_ast.specs.View.{name_text};
ghost use Rattle.name_alloc.specs.declared.claims.Claim.{Claim};
ghost use Rattle.name_alloc.specs.declared.claims.Key.{Key};
ghost use Rattle.name_alloc.specs.Naming.{name_of, claim_name, is_claimed};
ghost use Rattle.name_alloc.specs.Law.{AreNames};
ghost use Rattle.name_alloc.specs.Given.{taken_of, AreSkipping, IsHeldOut, IsNamed};
ghost use Rattle.name_alloc.specs.Lookup.{name_in};

use crate::base::base;
use crate::claims::{Claim, Names, space_of};
use crate::places::Places;
use crate::space::{Members, Space, Spaces, claim};
use glsl_ast::Name;
use spv_words::Memory;
use std::alloc::Global;
use std::collections::BTreeMap;

/// The space of a struct's members.
fn held_in(alloc: Global, members: &mut Members, block: u32) -> Space
    ensures { IsHeldOut members.old block result members.new }
{
    match members.remove(&block) {
        None => Space::new(alloc),
        Some(held) => held,
    }
}

/// Takes the name of a claim in its space, and gives it.
fn name_claim(alloc: Global, spaces: &mut Spaces, claimed: &Claim) -> Result<Name, Memory>
    requires { AreSkipping spaces.old }
    ensures named { OnOk result (IsNamed spaces.old spaces.new claimed.now (claim_name (taken_of spaces.old) claimed.now)) }
    ensures name { IfOk result (λ name. name_text name ≡ claim_name (taken_of spaces.old) claimed.now) }
{
    let base = base(alloc, claimed.key, &claimed.given)?;
    match space_of(claimed.key) {
        None => claim(alloc, &mut spaces.text, base),
        Some(block) => {
            let mut held = held_in(alloc, &mut spaces.members, block);
            let name = claim(alloc, &mut held, base)?;
            spaces.members.insert(block, held)?;
            Ok(name)
        }
    }
}

/// Names the claims in their order. A name that is taken in its space gets `_` and the least number
/// from 2 on that is free; where a key is claimed twice, it has the later name. (GLSL 4.60, section
/// 3.7.)
///
/// A key has a name exactly where it is claimed, and later claims of other keys do not change it. No
/// two names of one space are the same. Each is a word that GLSL leaves free, but for the `main` of
/// `Key::Main`. It fails by want of memory alone.
#[tactic(auto, unfolding(crate::specs::Lookup::name_in))]
pub fn names(alloc: Global, claims: &[Claim]) -> Result<Names, Memory>
    ensures names { IfOk result (λ names. (key : Key) → name_in names key ≡ name_of claims.now key) }
    ensures claimed { IfOk result (λ names. (key : Key) → is_some (name_in names key) ≡ is_claimed claims.now key) }
    ensures laws { IfOk result (λ names. AreNames (name_in names)) }
    ensures kept { IfOk result (λ names. (done more : List Claim) (key : Key) → claims.now ≡ done ++ more → is_claimed more key ≡ false → name_in names key ≡ name_of done key) }
{
    let mut spaces = Spaces {
        text: Space::with_capacity(alloc, claims.len())?,
        members: BTreeMap::new(alloc),
    };
    let mut names = Vec::with_capacity(alloc, claims.len())?;
    let mut places = Places::for_claims(alloc, claims)?;
    for claimed in claims {
        places.put(claimed.key, names.len())?;
        names.push(name_claim(alloc, &mut spaces, claimed)?)?;
    }
    Ok(Names { names, places })
}

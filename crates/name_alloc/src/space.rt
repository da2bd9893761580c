// The names that are taken in each space.
ghost use Rattle.std.specs.Prelude.{◌≡◌, ◌-◌, ◌≤◌, IfOk, OnOk};
ghost use Rattle.glsl_ast.specs.View.{name_text};
ghost use Rattle.name_alloc.specs.Naming.{numbered as with_number, first_free};
ghost use Rattle.name_alloc.specs.Taken.{number_at, is_held, claimed_name, IsPut, IsSkipping, IsClaimed};

use glsl_ast::Name;
use spv_words::Memory;
use std::alloc::Global;
use std::collections::{BTreeMap, HashMap};

/// The names of a space, and for each the number that is tried first when it is claimed again. A name is never given back,
/// so the numbers below that one stay taken.
pub type Space = HashMap<Name, usize>;

/// The names that are taken among the members of each struct.
pub type Members = BTreeMap<u32, Space>;

/// The names that are taken: in the whole text, and of the members of each struct.
#[derive(Drop)]
pub struct Spaces {
    pub text: Space,
    pub members: Members,
}

/// The base with a number.
#[tactic(auto, unfolding(crate::specs::Naming::numbered))]
fn numbered(alloc: Global, base: &str, number: usize) -> Result<Name, Memory>
    ensures { IfOk result (λ name. name_text name ≡ with_number base.now number) }
{
    Ok(Name::from_string(format!(in alloc; "{base}_{number}")?)?)
}

/// The first number from `start` on with which the base is free, at most `last`.
fn free_number(
    alloc: Global,
    space: &Space,
    base: &str,
    start: usize,
    last: usize,
) -> Result<usize, Memory>
    requires { start ≤ last }
    ensures within { IfOk result (λ n. n ≤ last) }
    ensures first { IfOk result (λ n. n ≡ first_free (λ k. is_held space.now (with_number base.now k)) (last - start) start) }
{
    let mut number = start;
    while number < last && space.contains_key(&numbered(alloc, base, number)?) {
        number += 1;
    }
    Ok(number)
}

/// Takes a name, with the number that is tried first behind it, and gives the number that was there, if the name was taken.
#[inline(always)]
fn put(space: &mut Space, name: Name, number: usize) -> Result<Option<usize>, Memory>
    ensures was { IfOk result (λ was. was ≡ number_at space.old (name_text name)) }
    ensures puts { OnOk result (IsPut space.old space.new (name_text name) number) }
{
    Ok(space.insert(name, number)?)
}

/// Takes the base, or the base with the first free number, and gives the name.
#[inline(always)]
pub fn claim(alloc: Global, space: &mut Space, base: Name) -> Result<Name, Memory>
    requires { IsSkipping space.old }
    ensures claimed { OnOk result (IsClaimed space.old space.new (name_text base) (claimed_name space.old (name_text base))) }
    ensures name { IfOk result (λ name. name_text name ≡ claimed_name space.old (name_text base)) }
{
    let last = space.len() + 2;
    let own = base.shared()?;
    match put(space, base, 2)? {
        None => Ok(own),
        Some(start) => {
            let number = free_number(alloc, space, own.as_str(), start, last)?;
            let name = numbered(alloc, own.as_str(), number)?;
            put(space, name.shared()?, 2)?;
            put(space, own, number + 1)?;
            Ok(name)
        }
    }
}

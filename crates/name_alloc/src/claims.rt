// Claims of names, and the names that they get.
ghost use Rattle.std.specs.Prelude.{◌≡◌, option_map};
ghost use Rattle.glsl_ast.specs.View.{name_text};
ghost use Rattle.name_alloc.specs.Lookup.{name_in};
ghost use Rattle.name_alloc.specs.declared.claims.Key.TheVariants.{Id as IdOf};
ghost use Rattle.name_alloc.specs.Naming.{space_of as space_of_key};

use crate::places::Places;
use glsl_ast::Name;
use spv_module::Id;
use std::hash::{Hash, Hasher};

/// What has a name in the text.
#[derive(Clone, Copy, Debug, PartialEq, Eq)]
pub enum Key {
    /// The function of the entry point.
    Main,
    /// The value, constant, variable, function or struct of an id.
    Id(Id),
    /// The block of a variable, with the struct of its type.
    Block(Id, Id),
    /// A member of a struct, by its number.
    Member(Id, u32),
    /// The flag of a loop header that tells the first turn from the others.
    Again(Id),
    /// The flag of a loop header by which a switch leaves the loop.
    Leave(Id),
    /// The flag of a case target that is fallen into.
    Fell(Id),
    /// An index of an access chain, by its number, where it is kept for other blocks.
    Captured(Id, u32),
    /// A variable for the copies of an edge, by its number.
    Spare(Id, Id, u32),
}

// An id has no hash of its own. The kind is left out, as only a few keys share their numbers.
impl Hash for Key {
    ghost use Rattle.std.proofs.Common.{rules};
    ghost use Rattle.std.specs.Cmp.Rules.{hashing};
    ghost use Rattle.name_alloc.specs.Keys.{hashed};

    ghost hash_input = { hashed };

    ghost respects_eq = { Prim.search (hashing, rules) };

    fn hash<H: Hasher>(&self, state: &mut H) {
        match *self {
            Key::Main => {}
            Key::Id(id) | Key::Again(id) | Key::Leave(id) | Key::Fell(id) => id.0.hash(state),
            Key::Block(variable, block) => {
                variable.0.hash(state);
                block.0.hash(state);
            }
            Key::Member(id, number) | Key::Captured(id, number) => {
                id.0.hash(state);
                number.hash(state);
            }
            Key::Spare(from, to, number) => {
                from.0.hash(state);
                to.0.hash(state);
                number.hash(state);
            }
        }
    }
}

/// A key and the name that the module gives it (SPIR-V 1.6, `OpName` and `OpMemberName`).
#[derive(Drop)]
pub struct Claim {
    pub key: Key,
    pub given: Option<Vec<u8>>,
}

/// The struct in whose space the name of a key is, where it is that of a member.
pub(crate) fn space_of(key: Key) -> Option<u32>
    ensures { result ≡ space_of_key key }
{
    match key {
        Key::Member(block, _) => Some(block.0),
        _ => None,
    }
}

/// The names of keys in the order of their claims, and where each key's name stands.
#[derive(Drop)]
pub struct Names {
    pub(crate) names: Vec<Name>,
    pub(crate) places: Places,
}

impl Names {
    /// The name of a key: `None` exactly where the key was not claimed.
    #[inline(always)]
    pub fn of(&self, key: Key) -> Option<&Name>
        ensures { option_map (λ name. name_text name.now) result ≡ name_in self.now key }
    {
        match key {
            Key::Id(id) => self.of_id(id),
            _ => self.of_other(key),
        }
    }

    /// The name of an id: most names that are asked for.
    #[inline(always)]
    #[tactic(auto, unfolding(crate::specs::Lookup::name_in))]
    fn of_id(&self, id: Id) -> Option<&Name>
        ensures { option_map (λ name. name_text name.now) result ≡ name_in self.now (IdOf id) }
    {
        self.names.get(self.places.of_id(id)?)
    }

    /// The name of any key.
    #[inline(never)]
    #[tactic(auto, unfolding(crate::specs::Lookup::name_in))]
    fn of_other(&self, key: Key) -> Option<&Name>
        ensures { option_map (λ name. name_text name.now) result ≡ name_in self.now key }
    {
        self.names.get(self.places.of(key)?)
    }
}

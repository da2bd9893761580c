// The list of claims, as it grows.
ghost use Rattle.std.specs.Prelude.{◌≡◌, ◌++◌, ◌∷◌, [], IfOk, OnOk, option_map};
ghost use Rattle.text_rules.specs.Claims.{when};
ghost use Rattle.text_items.specs.View.{claims_of};

use name_alloc::{Claim, Key};
use spv_words::Memory;
use std::alloc::{AllocError, Global};
use std::marker::Model;

/// Claims of names, in their order. Contracts see the plain claims that they stand for.
#[derive(Drop)]
pub struct ClaimList {
    claims: Vec<Claim>,
}

impl Model for ClaimList {
    ghost use Rattle.std.specs.Prelude.{List};
    ghost use Rattle.text_rules.specs.Claims.{Claim as PlainClaim};

    ghost Value = { List PlainClaim };

    ghost use Rattle.text_items.specs.View.{claims_of};

    ghost view = { λ c. claims_of c.claims.items };
}

/// A name that a module gives, as bytes of their own.
fn given(alloc: Global, name: Option<&[u8]>) -> Result<Option<Vec<u8>>, Memory>
    ensures { IfOk result (λ g. option_map (λ v. v.items) g ≡ option_map (λ n. n.now) name.entry) }
{
    match name {
        None => Ok(None),
        Some(name) => Ok(Some(Vec::from_slice(alloc, name)?)),
    }
}

impl ClaimList {
    /// No claims, with room for so many.
    pub fn with_capacity(alloc: Global, capacity: usize) -> Result<ClaimList, AllocError>
        ensures { IfOk result (λ list. list ≡ []) }
    {
        let claims = Vec::with_capacity(alloc, capacity)?;
        Ok(ClaimList { claims })
    }

    pub fn into_claims(self) -> Vec<Claim>
        ensures { claims_of result.items ≡ self }
    {
        let ClaimList { claims } = self;
        claims
    }

    pub fn alloc(&self) -> Global {
        *self.claims.allocator()
    }

    /// Adds the claim of a key, with the name that the module gives it.
    #[inline(always)]
    pub fn add(&mut self, key: Key, name: Option<&[u8]>) -> Result<(), Memory>
        ensures { OnOk result (self.new ≡ self.old ++ (key, option_map (λ n. n.now) name.entry) ∷ []) }
    {
        let given = given(self.alloc(), name)?;
        self.claims.push(Claim { key, given })?;
        Ok(())
    }

    /// Adds the claim of a key that the module gives no name, where there is one.
    pub fn add_flag(&mut self, is_needed: bool, key: Key) -> Result<(), Memory>
        ensures { OnOk result (self.new ≡ self.old ++ when is_needed key) }
    {
        if is_needed {
            self.claims.push(Claim { key, given: None })?;
        }
        Ok(())
    }
}

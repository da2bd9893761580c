// What specialization constants are given.
ghost use Rattle.std.specs.Prelude.{◌≡◌, ℕ, IfOk};
ghost use Rattle.std.specs.BTreeMap.{get};
ghost use Rattle.std.specs.Ordering.{nat_cmp};
ghost use Rattle.profile_rules.specs.Constants.{word_given as word_given_by, given_to};

use profile_rules::Given;
use spv_words::Memory;
use std::alloc::Global;
use std::collections::BTreeMap;

/// The word of an override.
pub fn word_given(given: Given) -> u32
    ensures { result ≡ word_given_by given }
{
    match given {
        Given::Decimal(n) | Given::Hex(n) => n,
        Given::Negative(n) => 0u32.wrapping_sub(n),
    }
}

/// What each SpecId is given: by the first override of it.
pub fn givens(alloc: Global, pairs: &[(u32, Given)]) -> Result<BTreeMap<u32, Given>, Memory>
    ensures { IfOk result (λ map. (id : ℕ) → get nat_cmp map id ≡ given_to pairs.now id) }
{
    let mut map = BTreeMap::new(alloc);
    for pair in pairs {
        if !map.contains_key(&pair.0) {
            map.insert(pair.0, pair.1)?;
        }
    }
    Ok(map)
}

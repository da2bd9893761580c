// What overrides give, as a specialization.
ghost use Rattle.std.specs.Prelude.{◌≡◌, ℕ, IfOk};
ghost use Rattle.std.specs.BTreeMap.{get};
ghost use Rattle.std.specs.Ordering.{nat_cmp};
ghost use Rattle.run_module.specs.Runs.{given_words};

use constant_values::Special;
use profile_rules::Given;
use spec_constants::word_given;
use spv_words::Memory;
use std::alloc::Global;
use std::collections::BTreeMap;

/// The word that each SpecId is given: by the first override of it.
pub fn words_given(alloc: Global, pairs: &[(u32, Given)]) -> Result<Special, Memory>
    ensures { IfOk result (λ special. (id : ℕ) → get nat_cmp special id ≡ given_words pairs.now id) }
{
    let mut special = BTreeMap::new(alloc);
    // the first of several is put last
    for k in (0..pairs.len()).rev() {
        special.insert(pairs[k].0, word_given(pairs[k].1))?;
    }
    Ok(special)
}

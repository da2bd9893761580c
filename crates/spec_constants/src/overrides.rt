// The overrides on a command line.
ghost use Rattle.std.specs.Prelude.{◌≡◌, Some, IfOk, IfErr, map};
ghost use Rattle.op_semantics.specs.Component.{each_one};
ghost use Rattle.profile_rules.specs.Overrides.{override_of, repeats as has_repeat, overrides_of};
ghost use Rattle.spec_constants.specs.Unparsed.{IsUnread, IsCause};

use crate::numerals::override_in;
use profile_rules::Given;
use spv_words::Memory;
use std::alloc::{AllocFailed, Global};
use std::collections::BTreeSet;

/// The values that specialization constants are given, by their SpecIds, no SpecId twice where
/// `parse` made it.
#[derive(Drop)]
pub struct Overrides {
    pub pairs: Vec<(u32, Given)>,
}

/// Why there are no overrides: the words are none, or for want of memory.
#[derive(Clone, Copy, Debug, PartialEq, Eq)]
pub enum Unparsed {
    Usage,
    Memory,
}

impl<T: Drop> From<AllocFailed<T>> for Unparsed {
    ghost use Rattle.spec_constants.specs.declared.overrides.Unparsed.TheVariants.{Memory as OutOfMemory};

    ghost from_gives = { λ _ e. e ≡ OutOfMemory };

    fn from(_: AllocFailed<T>) -> Unparsed {
        Unparsed::Memory
    }
}

impl From<Memory> for Unparsed {
    ghost use Rattle.spec_constants.specs.declared.overrides.Unparsed.TheVariants.{Memory as OutOfMemory};

    ghost from_gives = { λ _ e. e ≡ OutOfMemory };

    fn from(_: Memory) -> Unparsed {
        Unparsed::Memory
    }
}

/// The overrides that the words are, in order.
fn pairs_of(alloc: Global, words: &[&str]) -> Result<Vec<(u32, Given)>, Unparsed>
    ensures read { IfOk result (λ pairs. each_one override_of (map (λ w. w.now) words.now) ≡ Some pairs.items) }
    ensures usage { IfErr result (IsUnread (map (λ w. w.now) words.now)) }
{
    let mut pairs = Vec::new(alloc);
    for word in words {
        match override_in(word.as_bytes()) {
            None => return Err(Unparsed::Usage),
            Some(pair) => pairs.push(pair)?,
        }
    }
    Ok(pairs)
}

/// Whether an id comes twice.
#[tactic(auto, using(crate::proofs::Repeats::repeat_rules))]
fn repeats(alloc: Global, pairs: &[(u32, Given)]) -> Result<bool, Memory>
    ensures { IfOk result (λ twice. twice ≡ has_repeat pairs.now) }
{
    let mut seen = BTreeSet::new(alloc);
    for pair in pairs {
        if !seen.insert(pair.0)? {
            return Ok(true);
        }
    }
    Ok(false)
}

impl Overrides {
    /// The overrides that these words of a command line are: each is `ID=VALUE`, where ID is a
    /// decimal number without leading zeros up to 4294967295, and VALUE is such a number, or `-` and
    /// one from 1 to 2147483648, or `0x` and one to eight hexadecimal digits. `Unparsed::Usage` comes
    /// exactly where a word is none of that, or an ID comes twice.
    pub fn parse(alloc: Global, words: &[&str]) -> Result<Overrides, Unparsed>
        ensures read { IfOk result (λ overrides. overrides_of (map (λ w. w.now) words.now) ≡ Some overrides.pairs.items) }
        ensures usage { IfErr result (IsCause (map (λ w. w.now) words.now)) }
    {
        let pairs = pairs_of(alloc, words)?;
        if repeats(alloc, &pairs)? {
            return Err(Unparsed::Usage);
        }
        Ok(Overrides { pairs })
    }
}

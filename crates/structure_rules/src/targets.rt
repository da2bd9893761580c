// The blocks to which a terminator leads.
ghost use Rattle.std.specs.Prelude.{◌≡◌, ◌∷◌, []};

use std::marker::Model;

/// Blocks in a row. The one of OpBranch and the two of OpBranchConditional need no list.
#[derive(Drop)]
enum Held {
    One(usize),
    Two([usize; 2]),
    Listed(Vec<usize>),
}

/// The blocks to which a terminator leads, by their indexes. Contracts see the list of them.
#[derive(Drop)]
pub struct Targets {
    held: Held,
}

impl Model for Targets {
    ghost use Rattle.std.specs.Prelude.{ℕ, List};
    ghost use Rattle.structure_rules.specs.Held.{held_list};

    ghost Value = { List ℕ };

    ghost view = { λ t. held_list t.held };
}

impl Targets {
    /// A single block.
    pub fn one(block: usize) -> Targets
        ensures { result ≡ block ∷ [] }
    {
        Targets {
            held: Held::One(block),
        }
    }

    /// Two blocks.
    pub fn two(block: usize, other: usize) -> Targets
        ensures { result ≡ block ∷ other ∷ [] }
    {
        Targets {
            held: Held::Two([block, other]),
        }
    }

    /// Blocks in the order of a list.
    pub fn listed(blocks: Vec<usize>) -> Targets
        ensures { result ≡ blocks.items }
    {
        Targets {
            held: Held::Listed(blocks),
        }
    }

    /// The blocks.
    #[inline(always)]
    pub fn as_slice(&self) -> &[usize]
        ensures { result.now ≡ self.now }
    {
        match &self.held {
            Held::One(block) => std::slice::from_ref(block),
            Held::Two(blocks) => blocks,
            Held::Listed(blocks) => blocks.as_slice(),
        }
    }
}

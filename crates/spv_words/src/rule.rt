// Why a module is not translated: a rule that it breaks, a limit that it passes, or memory.
ghost use Rattle.std.specs.Prelude.{◌≡◌};
ghost use Rattle.spv_words.specs.declared.rule.Fault.TheVariants.{Memory};
ghost use Rattle.spv_words.specs.Rule.{letter_of, number_of, name_of};
ghost use Rattle.spv_words.specs.Limit.{limit_number, limit_name};

use out_of_memory::Memory;
use std::alloc::{AllocError, AllocFailed};

/// A rule of the profile.
///
/// W: the words; X: the entry point and the overrides; P: the module's instructions, and what it
/// declares; T: the types of operands; L: the layout of blocks; M: memory; A: atomics and barriers;
/// K: structured control flow.
#[derive(Clone, Copy, Debug, PartialEq, Eq)]
pub enum Rule {
    W1,
    W2,
    W3,
    W4,
    W5,
    W6,
    W7,
    W8,
    W9,
    X1,
    X2,
    X3,
    X4,
    P1,
    P2,
    P3,
    P4,
    P5,
    P6,
    P7,
    P8,
    P9,
    P10,
    P11,
    P12,
    P13,
    P14,
    P15,
    P16,
    P17,
    P18,
    P19,
    P20,
    T1,
    T2,
    T3,
    T4,
    T5,
    T6,
    T7,
    T8,
    T9,
    T10,
    T11,
    T12,
    T13,
    T14,
    T15,
    T16,
    T17,
    T18,
    T19,
    T20,
    T21,
    T22,
    T23,
    T24,
    T25,
    L1,
    L2,
    L3,
    L4,
    L5,
    L6,
    L7,
    M1,
    M2,
    M3,
    M4,
    M5,
    M6,
    A1,
    A2,
    A3,
    A4,
    A5,
    K1,
    K2,
    K3,
    K4,
    K5,
    K6,
    K7,
    K8,
    K9,
    K10,
    K11,
}

impl Rule {
    /// The letter of the rule's group.
    pub fn letter(&self) -> u8
        ensures { result ≡ letter_of self.now }
    {
        self.name().0
    }

    /// The rule's number in its group.
    pub fn number(&self) -> u8
        ensures { result ≡ number_of self.now }
    {
        self.name().1
    }

    fn name(&self) -> (u8, u8)
        ensures { result ≡ name_of self.now }
    {
        match self {
            Rule::W1 => (b'W', 1),
            Rule::W2 => (b'W', 2),
            Rule::W3 => (b'W', 3),
            Rule::W4 => (b'W', 4),
            Rule::W5 => (b'W', 5),
            Rule::W6 => (b'W', 6),
            Rule::W7 => (b'W', 7),
            Rule::W8 => (b'W', 8),
            Rule::W9 => (b'W', 9),
            Rule::X1 => (b'X', 1),
            Rule::X2 => (b'X', 2),
            Rule::X3 => (b'X', 3),
            Rule::X4 => (b'X', 4),
            Rule::P1 => (b'P', 1),
            Rule::P2 => (b'P', 2),
            Rule::P3 => (b'P', 3),
            Rule::P4 => (b'P', 4),
            Rule::P5 => (b'P', 5),
            Rule::P6 => (b'P', 6),
            Rule::P7 => (b'P', 7),
            Rule::P8 => (b'P', 8),
            Rule::P9 => (b'P', 9),
            Rule::P10 => (b'P', 10),
            Rule::P11 => (b'P', 11),
            Rule::P12 => (b'P', 12),
            Rule::P13 => (b'P', 13),
            Rule::P14 => (b'P', 14),
            Rule::P15 => (b'P', 15),
            Rule::P16 => (b'P', 16),
            Rule::P17 => (b'P', 17),
            Rule::P18 => (b'P', 18),
            Rule::P19 => (b'P', 19),
            Rule::P20 => (b'P', 20),
            Rule::T1 => (b'T', 1),
            Rule::T2 => (b'T', 2),
            Rule::T3 => (b'T', 3),
            Rule::T4 => (b'T', 4),
            Rule::T5 => (b'T', 5),
            Rule::T6 => (b'T', 6),
            Rule::T7 => (b'T', 7),
            Rule::T8 => (b'T', 8),
            Rule::T9 => (b'T', 9),
            Rule::T10 => (b'T', 10),
            Rule::T11 => (b'T', 11),
            Rule::T12 => (b'T', 12),
            Rule::T13 => (b'T', 13),
            Rule::T14 => (b'T', 14),
            Rule::T15 => (b'T', 15),
            Rule::T16 => (b'T', 16),
            Rule::T17 => (b'T', 17),
            Rule::T18 => (b'T', 18),
            Rule::T19 => (b'T', 19),
            Rule::T20 => (b'T', 20),
            Rule::T21 => (b'T', 21),
            Rule::T22 => (b'T', 22),
            Rule::T23 => (b'T', 23),
            Rule::T24 => (b'T', 24),
            Rule::T25 => (b'T', 25),
            Rule::L1 => (b'L', 1),
            Rule::L2 => (b'L', 2),
            Rule::L3 => (b'L', 3),
            Rule::L4 => (b'L', 4),
            Rule::L5 => (b'L', 5),
            Rule::L6 => (b'L', 6),
            Rule::L7 => (b'L', 7),
            Rule::M1 => (b'M', 1),
            Rule::M2 => (b'M', 2),
            Rule::M3 => (b'M', 3),
            Rule::M4 => (b'M', 4),
            Rule::M5 => (b'M', 5),
            Rule::M6 => (b'M', 6),
            Rule::A1 => (b'A', 1),
            Rule::A2 => (b'A', 2),
            Rule::A3 => (b'A', 3),
            Rule::A4 => (b'A', 4),
            Rule::A5 => (b'A', 5),
            Rule::K1 => (b'K', 1),
            Rule::K2 => (b'K', 2),
            Rule::K3 => (b'K', 3),
            Rule::K4 => (b'K', 4),
            Rule::K5 => (b'K', 5),
            Rule::K6 => (b'K', 6),
            Rule::K7 => (b'K', 7),
            Rule::K8 => (b'K', 8),
            Rule::K9 => (b'K', 9),
            Rule::K10 => (b'K', 10),
            Rule::K11 => (b'K', 11),
        }
    }
}

/// A rule, and the word at which it is broken.
#[derive(Clone, Copy, Debug, PartialEq, Eq)]
pub struct Refusal {
    pub rule: Rule,
    pub at: u32,
}

/// A quantity that has a largest number.
#[derive(Clone, Copy, Debug, PartialEq, Eq)]
pub enum Limit {
    Bytes,
    Bound,
    Depth,
    Types,
    Parts,
    Calls,
    Leaves,
}

impl Limit {
    /// The largest number that is taken.
    pub fn number(&self) -> u32
        ensures { result ≡ limit_number self.now }
    {
        match self {
            Limit::Bytes => 4194304,
            Limit::Bound => 262144,
            Limit::Depth => 127,
            Limit::Types => 15,
            Limit::Parts => 16384,
            Limit::Calls => 64,
            Limit::Leaves => 262144,
        }
    }

    /// The quantity's name.
    pub fn name(&self) -> &'static str
        ensures { result.now ≡ limit_name self.now }
    {
        match self {
            Limit::Bytes => "bytes",
            Limit::Bound => "bound",
            Limit::Depth => "depth",
            Limit::Types => "types",
            Limit::Parts => "parts",
            Limit::Calls => "calls",
            Limit::Leaves => "leaves",
        }
    }
}

/// Why there is no answer.
#[derive(Clone, Copy, Debug, PartialEq, Eq)]
pub enum Fault {
    Refused(Refusal),
    Limit(Limit),
    Memory,
}

impl From<AllocError> for Fault {
    ghost from_gives = { λ _ e. e ≡ Memory };

    fn from(_: AllocError) -> Fault {
        Fault::Memory
    }
}

impl<T: Drop> From<AllocFailed<T>> for Fault {
    ghost from_gives = { λ _ e. e ≡ Memory };

    fn from(_: AllocFailed<T>) -> Fault {
        Fault::Memory
    }
}

impl From<Memory> for Fault {
    ghost from_gives = { λ _ e. e ≡ Memory };

    fn from(_: Memory) -> Fault {
        Fault::Memory
    }
}

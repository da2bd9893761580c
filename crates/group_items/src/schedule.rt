// How a dispatch ends.
ghost use Rattle.std.specs.Prelude.{◌≡◌};

use spv_words::Memory;
use std::alloc::AllocFailed;

/// How a dispatch ends: a round had no move, and each invocation has ended and could move on, or one may not; the run of an
/// invocation has no meaning before its next event; or it is not run far enough to have one.
#[derive(Clone, Copy, Debug, PartialEq, Eq)]
pub enum End {
    Ended,
    Waiting,
    Undefined(u32),
    Cut(u32),
}

/// Why a dispatch was not run to its end: it has too many invocations, too many events, or there was no memory.
#[derive(Clone, Copy, Debug, PartialEq, Eq)]
pub enum Stop {
    Invocations,
    Events,
    Memory,
}

/// How many events and scalars of them a dispatch has at most.
pub const MOST_EVENTS: usize = 1048576;

/// How many invocations a dispatch has at most.
pub const MOST_INVOCATIONS: usize = 1024;

impl From<Memory> for Stop {
    ghost use Rattle.group_items.specs.declared.schedule.Stop.TheVariants.{Memory as OutOfMemory};

    ghost from_gives = { λ _ e. e ≡ OutOfMemory };

    fn from(_: Memory) -> Stop {
        Stop::Memory
    }
}

impl<T: Drop> From<AllocFailed<T>> for Stop {
    ghost use Rattle.group_items.specs.declared.schedule.Stop.TheVariants.{Memory as OutOfMemory};

    ghost from_gives = { λ _ e. e ≡ OutOfMemory };

    fn from(_: AllocFailed<T>) -> Stop {
        Stop::Memory
    }
}

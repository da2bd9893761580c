// Places in memory, and what one invocation does to memory that others see.
ghost use Rattle.std.specs.Prelude.{◌≡◌, IfOk};
ghost use Rattle.group_items.specs.Events.{location_of};

use spv_words::Memory;
use std::alloc::Global;

/// Where a scalar lies: in a buffer by its descriptor set, its binding and the number of its first byte; in the push constants by
/// that number; in the memory of a workgroup by the number of the variable and the indexes that lead to the scalar (SPIR-V 1.6,
/// section 3.20, "DescriptorSet", "Binding", "Offset").
#[derive(PartialEq, Eq, PartialOrd, Ord, Debug, Drop)]
pub enum LeafPlace {
    Buffer(u32, u32, u64),
    Push(u64),
    Shared(u32, Vec<u32>),
}

impl LeafPlace {
    /// The same place again. There is an error only where there is no memory for it.
    pub fn clone_in(&self, alloc: Global) -> Result<LeafPlace, Memory>
        ensures { IfOk result (λ place. location_of place ≡ location_of self.now) }
    {
        Ok(match self {
            LeafPlace::Buffer(set, binding, byte) => LeafPlace::Buffer(*set, *binding, *byte),
            LeafPlace::Push(byte) => LeafPlace::Push(*byte),
            LeafPlace::Shared(variable, path) => LeafPlace::Shared(*variable, copied(alloc, path)?),
        })
    }
}

fn copied(alloc: Global, numbers: &[u32]) -> Result<Vec<u32>, Memory>
    ensures { IfOk result (λ list. list.items ≡ numbers.now) }
{
    let mut list = Vec::with_capacity(alloc, numbers.len())?;
    list.extend_from_slice(numbers)?;
    Ok(list)
}

/// The atomic operations (SPIR-V 1.6, section "Atomic Instructions"; GLSL 4.60, section 8.11).
#[derive(Clone, Copy, Debug, PartialEq, Eq)]
pub enum RmwKind {
    Add,
    SMin,
    UMin,
    SMax,
    UMax,
    And,
    Or,
    Xor,
    Exchange,
    CompSwap,
}

/// What an invocation does to memory that others see: a read has its places and the words that were found, a write the words
/// that are put, an atomic its operands (of a comparison the comparator first) and the word that was found. The other three
/// are the barriers (SPIR-V 1.6, OpMemoryBarrier, OpControlBarrier).
#[derive(Drop)]
pub enum Event {
    Read(Vec<LeafPlace>, Vec<u32>),
    Write(Vec<LeafPlace>, Vec<u32>),
    Rmw(RmwKind, LeafPlace, Vec<u32>, u32),
    MemBuffer,
    MemShared,
    Control,
}

/// Why a run pauses: it made an event; it asks for the words of one, which has none yet, or 0 as the word that an atomic
/// found; it has ended; it has no meaning any more; its steps or turns are used up.
#[derive(Drop)]
pub enum Pause {
    Made(Event),
    Asks(Event),
    Ended,
    Undefined,
    Cut,
}

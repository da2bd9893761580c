// OpMemoryBarrier and OpControlBarrier.
ghost use Rattle.std.specs.Prelude.{◌≡◌, ◌++◌, ◌∷◌, [], IfOk, map};
ghost use Rattle.traces.specs.Events as trace;
ghost use Rattle.group_items.specs.Events.{event_of};
ghost use Rattle.module_semantics.specs.Steps.{memory_barriers as memory_barriers_of};

use group_items::Event;
use spv_words::Memory;
use std::alloc::Global;

/// Memory Semantics (SPIR-V 1.6, section 3.25).
const UNIFORM_MEMORY: u32 = 0x40;

const WORKGROUP_MEMORY: u32 = 0x100;

/// The barriers on memory that these semantics name: of buffers, and of workgroup memory.
pub fn memory_barriers(alloc: Global, semantics: u32) -> Result<Vec<Event>, Memory>
    ensures { IfOk result (λ events. map event_of events.items ≡ memory_barriers_of semantics) }
{
    let mut events = Vec::new(alloc);
    if semantics & UNIFORM_MEMORY != 0 {
        events.push(Event::MemBuffer)?;
    }
    if semantics & WORKGROUP_MEMORY != 0 {
        events.push(Event::MemShared)?;
    }
    Ok(events)
}

/// The events of a control barrier: those of its semantics on memory, and then its own.
pub fn control_barrier(alloc: Global, semantics: u32) -> Result<Vec<Event>, Memory>
    ensures { IfOk result (λ events. map event_of events.items ≡ memory_barriers_of semantics ++ trace.control_barrier ∷ []) }
{
    let mut events = memory_barriers(alloc, semantics)?;
    events.push(Event::Control)?;
    Ok(events)
}

// OpMemoryBarrier and OpControlBarrier.
ghost use Rattle.std.specs.Prelude.{◌≡◌, ◌+◌, ◌<◌, ◌^◌, IfOk, OnErr, map};
ghost use Rattle.group_items.specs.Events.{event_of};
ghost use Rattle.run_acts.specs.About.{ForEach, IsStepOf, IsStill};
ghost use Rattle.run_memory.specs.Barriers.{barrier_events, barrier_by, semantics_place};

use crate::made::make;
use crate::operands::word_at;
use group_items::Event;
use run_acts::Site;
use run_state::Conf;
use spv_words::Memory;
use std::alloc::Global;
use step_events::{control_barrier, memory_barriers};
use step_run::Step;

/// A barrier of memory, or of control too.
#[derive(Clone, Copy, Debug)]
pub enum Barrier {
    Memory,
    Control,
}

/// Which operand has the semantics.
fn place_of(barrier: Barrier) -> usize
    ensures { result ≡ semantics_place barrier }
{
    match barrier {
        Barrier::Memory => 1,
        Barrier::Control => 2,
    }
}

/// The events of a barrier with these semantics.
fn events_of(alloc: Global, barrier: Barrier, semantics: u32) -> Result<Vec<Event>, Memory>
    ensures { IfOk result (λ events. map event_of events.items ≡ barrier_events barrier semantics) }
{
    match barrier {
        Barrier::Memory => memory_barriers(alloc, semantics),
        Barrier::Control => control_barrier(alloc, semantics),
    }
}

/// OpMemoryBarrier: the barriers on memory that its semantics name; OpControlBarrier: the same, and then its own (SPIR-V 1.6, section
/// "Barrier Instructions"). There is an error only for want of memory, and it leaves all as it was.
pub fn barrier_step(site: &Site, barrier: Barrier, conf: &mut Conf) -> Result<Step, Memory>
    requires room { conf.old.top.at + 1 < 2 ^ 64 }
    ensures step { ForEach site.now.map.now (λ s. IfOk result (IsStepOf (barrier_by barrier) s conf.old conf.new site.now.inst.now)) }
    ensures err { OnErr result (IsStill site.now.map.now conf.old conf.new) }
{
    match word_at(site.map, &conf.top.ids, site.inst, place_of(barrier)) {
        None => Ok(Step::Fails),
        Some(semantics) => {
            let events = events_of(site.alloc, barrier, semantics)?;
            Ok(make(conf, events))
        }
    }
}

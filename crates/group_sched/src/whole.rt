// Dispatches.
ghost use Rattle.std.specs.Prelude.{◌≡◌, ◌<◌, ◌≤◌, ◌*◌, IfOk, IsErrOf, IsTrue};
ghost use Rattle.std.specs.BTreeMap.{get};
ghost use Rattle.std.specs.Ordering.{nat_cmp};
ghost use Rattle.dispatch_semantics.specs.Grid.{product};
ghost use Rattle.group_items.specs.Events.{events_of, weight_of};
ghost use Rattle.group_items.specs.Schedule.{Setup, Comes, IsTooMuch, most_weight};
ghost use Rattle.dispatch_case.specs.Three.{triple_of};
ghost use Rattle.group_sched.specs.Sides.{AreAbove, CanStart};
ghost use Rattle.group_sched.specs.Stores.{words_in};
ghost use Rattle.dispatch_case.specs.Cases.{parts_of, is_fine};
ghost use Rattle.group_sched.specs.Start.{setup_of};

use crate::extent::{Extent, extent_of};
use crate::start::{begin, told_alike};
use dispatch_case::Case;
use group_items::{End, Event, Runner, Stop, Store, play_schedule};
use std::alloc::Global;
use std::collections::BTreeMap;

/// What a dispatch comes to: its events, each with the number of the invocation that made it, the memory behind them, and how
/// it ended.
#[derive(Drop)]
pub struct Outcome {
    pub events: Vec<(u32, Event)>,
    pub store: Store,
    pub end: End,
}

/// Runs a dispatch of a case by its schedule: the invocations that are listed first, without numbers that name none, and then
/// rounds over all, up to the first item that is neither a move nor a stay, or behind the first round of stays alone. A
/// workgroup has the size `size`, each part of which is above 0. The side has no invocation yet, and is one of runs within
/// some number of steps or turns; the steps of the case are not looked at. `Stop::Invocations` comes exactly where there are
/// more than 1024 invocations, `Stop::Events` exactly where events and their scalars, added, are more than 1048576.
pub fn dispatch<R: Runner>(
    alloc: Global,
    side: &mut R,
    dispatch_case: &Case,
    size: [u32; 3],
    special: BTreeMap<u32, u32>,
) -> Result<Outcome, Stop>
    requires fine { IsTrue (is_fine (parts_of dispatch_case.now)) }
    requires size { AreAbove (triple_of size) }
    requires takes { R.takes side.old (get nat_cmp special) }
    requires none { R.count side.old ≡ 0 }
    ensures comes { IfOk result (λ o. Comes (setup_of (parts_of dispatch_case.now) (triple_of size) (get nat_cmp special)) (R.runs side.old) dispatch_case.now.first.items (events_of o.events.items) (words_in o.store) o.end) }
    ensures few { IfOk result (λ o. product (triple_of dispatch_case.now.groups) * product (triple_of size) ≤ 1024) }
    ensures light { IfOk result (λ o. weight_of (events_of o.events.items) ≤ most_weight) }
    ensures invocations { IsErrOf result Stop.Invocations → 1024 < product (triple_of dispatch_case.now.groups) * product (triple_of size) }
    ensures events { IsErrOf result Stop.Events → IsTooMuch (setup_of (parts_of dispatch_case.now) (triple_of size) (get nat_cmp special)) (R.runs side.old) dispatch_case.now.first.items }
{
    match extent_of(dispatch_case.groups, size) {
        None => Err(Stop::Invocations),
        Some(extent) => run(alloc, side, dispatch_case, size, special, extent),
    }
}

fn run<R: Runner>(
    alloc: Global,
    side: &mut R,
    case: &Case,
    size: [u32; 3],
    special: BTreeMap<u32, u32>,
    extent: Extent,
) -> Result<Outcome, Stop>
    ghost d: { Setup }
    requires setup { d ≡ setup_of (parts_of case.now) (triple_of size) (get nat_cmp special) }
    requires start { CanStart (parts_of case.now) (triple_of size) extent }
    requires takes { R.takes side.old (get nat_cmp special) }
    requires none { R.count side.old ≡ 0 }
    ensures comes { IfOk result (λ o. Comes d (R.runs side.old) case.now.first.items (events_of o.events.items) (words_in o.store) o.end) }
    ensures light { IfOk result (λ o. weight_of (events_of o.events.items) ≤ most_weight) }
    ensures invocations { IsErrOf result Stop.Invocations → ⊥ }
    ensures events { IsErrOf result Stop.Events → IsTooMuch d (R.runs side.old) case.now.first.items }
{
    let mut inv = told_alike(alloc, case, special)?;
    let mut play = begin(alloc, side, &mut inv, case, size, extent)?;
    let end = play_schedule(alloc, side, &mut play, &case.first, extent.count)?;
    Ok(Outcome {
        events: play.events,
        store: play.store,
        end,
    })
}

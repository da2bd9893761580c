// Items of a schedule, one after another.
ghost use Rattle.std.specs.Prelude.{ℕ, ◌≡◌, ◌<◌, ◌≤◌, ◌*◌, ◌/◌, ◌∷◌, [], length, slice_index, IfOk, OnOk, IsErrOf};
ghost use Rattle.group_items.specs.Events.{events_of};
ghost use Rattle.group_items.specs.Memory.{stored};
ghost use Rattle.group_items.specs.Schedule.{Setup, Comes, IsTooMuch};
ghost use Rattle.group_items.specs.Playing.{IsAt};
ghost use Rattle.group_items.specs.Played.{end_by, waits_by, IsPlayed, TooMuchIn, RoundsEnd, RoundsTooMuch};

use crate::items::{naming, whole_round};
use crate::play::{Play, Turn, take};
use crate::runner::Runner;
use crate::schedule::{End, Stop};
use std::alloc::Global;

/// What items of a schedule come to: at one of them the schedule ends; or it goes on behind them, and where there was no move
/// an invocation waited or all have ended.
#[derive(Clone, Copy, Debug, PartialEq, Eq)]
enum Played {
    Stopped(End),
    Through { waits: bool },
}

/// How the schedule ends at an item, where it does.
fn end_at(turn: Turn, item: u32) -> Option<End>
    ensures { result ≡ end_by turn item }
{
    match turn {
        Turn::Undefined => Some(End::Undefined(item)),
        Turn::Cut => Some(End::Cut(item)),
        _ => None,
    }
}

/// Whether an invocation has waited, behind this item too.
fn waits_behind(waits: bool, turn: Turn) -> bool
    ensures { result ≡ waits_by waits turn }
{
    match turn {
        Turn::Waits => true,
        _ => waits,
    }
}

/// Plays items that name invocations, one after another.
fn play_all<R: Runner>(
    alloc: Global,
    side: &mut R,
    play: &mut Play,
    items: &[u32],
) -> Result<Played, Stop>
    ghost d: { Setup }
    requires at { IsAt d (R.at side.old) play.old }
    requires items { (k : ℕ) → k < length items.now → slice_index items.now k < d.count }
    requires begun { R.count side.old ≡ d.count }
    requires small { d.count ≤ 1024 }
    ensures played { IfOk result (IsPlayed d (R.runs side.old) (events_of play.old.events.items) items.now (events_of play.new.events.items)) }
    ensures at { OnOk result (IsAt d (R.at side.new) play.new) }
    ensures events { IsErrOf result Stop.Events → TooMuchIn d (R.runs side.old) (events_of play.old.events.items) items.now }
    ensures invocations { IsErrOf result Stop.Invocations → ⊥ }
    ensures counted { R.count side.new ≡ R.count side.old }
    ensures runs { R.runs side.new ≡ R.runs side.old }
{
    let mut waits = false;
    for item in items {
        let turn = take(alloc, side, play, *item as usize)?;
        match end_at(turn, *item) {
            None => waits = waits_behind(waits, turn),
            Some(end) => return Ok(Played::Stopped(end)),
        }
    }
    Ok(Played::Through { waits })
}

/// Plays whole rounds, to the end of the schedule.
fn rounds<R: Runner>(alloc: Global, side: &mut R, play: &mut Play) -> Result<End, Stop>
    ghost d: { Setup }
    requires at { IsAt d (R.at side.old) play.old }
    requires begun { R.count side.old ≡ d.count }
    requires small { d.count ≤ 1024 }
    ensures end { IfOk result (RoundsEnd d (R.runs side.old) (events_of play.old.events.items) (events_of play.new.events.items)) }
    ensures at { OnOk result (IsAt d (R.at side.new) play.new) }
    ensures events { IsErrOf result Stop.Events → RoundsTooMuch d (R.runs side.old) (events_of play.old.events.items) }
    ensures invocations { IsErrOf result Stop.Invocations → ⊥ }
{
    let turn = whole_round(alloc, play.passed.as_slice().len())?;
    loop {
        let weight = play.weight;
        match play_all(alloc, side, play, &turn)? {
            Played::Stopped(end) => return Ok(end),
            Played::Through { waits } => {
                if play.weight == weight {
                    return Ok(if waits { End::Waiting } else { End::Ended });
                }
            }
        }
    }
}

/// Plays the items of a list that name invocations, and then whole rounds, to the end of the schedule.
pub fn play_schedule<R: Runner>(
    alloc: Global,
    side: &mut R,
    play: &mut Play,
    first: &[u32],
    count: usize,
) -> Result<End, Stop>
    ghost d: { Setup }
    requires at { IsAt d (R.at side.old) play.old }
    requires none { play.old.events.items ≡ [] }
    requires count { count ≡ d.count }
    requires begun { R.count side.old ≡ d.count }
    requires small { d.count ≤ 1024 }
    ensures comes { IfOk result (Comes d (R.runs side.old) first.now (events_of play.new.events.items) (stored play.new.store.maps.items)) }
    ensures at { OnOk result (IsAt d (R.at side.new) play.new) }
    ensures events { IsErrOf result Stop.Events → IsTooMuch d (R.runs side.old) first.now }
    ensures invocations { IsErrOf result Stop.Invocations → ⊥ }
{
    let items = naming(alloc, first, count)?;
    match play_all(alloc, side, play, &items)? {
        Played::Stopped(end) => Ok(end),
        Played::Through { .. } => rounds(alloc, side, play),
    }
}

// One item of a schedule.
ghost use Rattle.std.specs.Prelude.{ℕ, ◌≡◌, ◌<◌, ◌≤◌, ◌+◌, ◌-◌, ◌*◌, ◌/◌, ◌∷◌, [], ◌==◌, ◌^◌, length, map, slice_index, MatchBool, MatchOption, IfOk, OnOk, IsErrOf, None};
ghost use Rattle.dispatch_semantics.specs.Store.{found_at, after, combined as combined_words, updated as updated_word, updated_by, put_all, AreWords};
ghost use Rattle.dispatch_semantics.specs.Dispatch.{controls};
ghost use Rattle.group_items.specs.Events.{operation_of, locations_of, event_of, filled, events_of, place_count};
ghost use Rattle.group_items.specs.Memory.{stored};
ghost use Rattle.group_items.specs.Sides.{with_at};
ghost use Rattle.group_items.specs.Schedule.{Setup, most_weight};
ghost use Rattle.group_items.specs.Playing.{MayMoveBy, IsAnswer, IsNextOf, behind_next, IsNoted, IsAt, IsTurn, IsTooMuchNext};

use crate::event::{Event, LeafPlace, Pause, RmwKind};
use crate::runner::Runner;
use crate::schedule::{MOST_EVENTS, Stop};
use crate::store::Store;
use op_semantics::{Binary, binary_word};
use spv_words::Memory;
use std::alloc::Global;

/// What an item of the schedule comes to.
#[derive(Clone, Copy, Debug, PartialEq, Eq)]
pub enum Turn {
    /// The invocation may not move on.
    Waits,
    /// The invocation has ended.
    Ended,
    Moves,
    Undefined,
    Cut,
}

/// The next event of an invocation, with its words, or why there is none.
#[derive(Drop)]
enum Next {
    Made(Event),
    Ended,
    Undefined,
    Cut,
}

/// A dispatch so far: how many invocations a workgroup has, how many control barriers each invocation has passed, the memory,
/// the events with the invocations that made them, and how many these and their scalars are together.
#[derive(Drop)]
pub struct Play {
    pub group: usize,
    pub passed: Vec<usize>,
    pub store: Store,
    pub events: Vec<(u32, Event)>,
    pub weight: usize,
}

/// Whether each invocation of the workgroup has passed so many barriers.
fn all_passed(passed: &[usize], group: usize, number: usize, mine: usize) -> bool
    requires { 0 < group }
    ensures { MatchBool result
        ((j : ℕ) → j < length passed.now → j / group ≡ number → mine ≤ slice_index passed.now j)
        (((j : ℕ) → j < length passed.now → j / group ≡ number → mine ≤ slice_index passed.now j) → ⊥) }
{
    for j in 0..passed.len() {
        if j / group == number && passed[j] < mine {
            return false;
        }
    }
    true
}

/// Whether an invocation may move on: each of its workgroup has passed as many barriers.
fn may_move(passed: &[usize], group: usize, who: usize) -> bool
    requires group { 0 < group }
    requires begun { who < length passed.now }
    ensures { MatchBool result (MayMoveBy passed.now group who) (MayMoveBy passed.now group who → ⊥) }
{
    let mine = passed[who];
    mine == 0 || all_passed(passed, group, who / group, mine)
}

/// The same word, of which it is said that it is one.
fn known(word: u32) -> u32
    ensures same { result ≡ word }
    ensures fits { result < 2 ^ 32 }
{
    word
}

/// What stands at places, in order.
fn found(
    alloc: Global,
    store: &Store,
    group: usize,
    places: &[LeafPlace],
) -> Result<Vec<u32>, Memory>
    ensures found { IfOk result (λ words. words.items ≡ map (found_at (stored store.now.maps.items) group) (locations_of places.now)) }
    ensures words { IfOk result (λ words. AreWords words.items) }
{
    let mut words = Vec::with_capacity(alloc, places.len())?;
    for place in places {
        let word = known(store.word(group, place));
        words.push(word)?;
    }
    Ok(words)
}

fn put_all_at(
    alloc: Global,
    store: &mut Store,
    group: usize,
    places: &[LeafPlace],
    words: &[u32],
) -> Result<(), Memory>
    requires { group < length store.old.maps.items }
    ensures put { OnOk result (stored store.new.maps.items ≡ put_all group (locations_of places.now) words.now (stored store.old.maps.items)) }
    ensures rooms { length store.new.maps.items ≡ length store.old.maps.items }
{
    for k in 0..places.len().min(words.len()) {
        store.put(alloc, group, &places[k], words[k])?;
    }
    Ok(())
}

/// What an operation leaves where it found a word.
fn combined(operation: Binary, found: u32, word: u32) -> u32
    ensures { result ≡ combined_words operation found word }
{
    binary_word(operation, found, word).unwrap_or(0)
}

fn updated_with(kind: RmwKind, found: u32, word: u32) -> u32
    ensures { result ≡ updated_by (operation_of kind) found word }
{
    match kind {
        RmwKind::Add => combined(Binary::IAdd, found, word),
        RmwKind::SMin => combined(Binary::SMin, found, word),
        RmwKind::UMin => combined(Binary::UMin, found, word),
        RmwKind::SMax => combined(Binary::SMax, found, word),
        RmwKind::UMax => combined(Binary::UMax, found, word),
        RmwKind::And => combined(Binary::BitwiseAnd, found, word),
        RmwKind::Or => combined(Binary::BitwiseOr, found, word),
        RmwKind::Xor => combined(Binary::BitwiseXor, found, word),
        RmwKind::Exchange | RmwKind::CompSwap => word,
    }
}

fn updated(kind: RmwKind, found: u32, operands: &[u32]) -> u32
    ensures { result ≡ updated_word (operation_of kind) found operands.now }
{
    match operands {
        [comparator, word] => if found == *comparator { *word } else { found },
        [word] => updated_with(kind, found, *word),
        _ => found,
    }
}

/// Changes the memory as an event does.
fn apply(alloc: Global, store: &mut Store, group: usize, event: &Event) -> Result<(), Memory>
    requires { group < length store.old.maps.items }
    ensures after { OnOk result (stored store.new.maps.items ≡ after group (event_of event.now) (stored store.old.maps.items)) }
    ensures rooms { length store.new.maps.items ≡ length store.old.maps.items }
{
    match event {
        Event::Write(places, words) => put_all_at(alloc, store, group, places, words),
        Event::Rmw(kind, place, operands, found) => store.put(
            alloc,
            group,
            place,
            updated(*kind, *found, operands),
        ),
        _ => Ok(()),
    }
}

/// How many scalars an event is of.
fn places_of(event: &Event) -> usize
    ensures { result ≡ place_count (event_of event.now) }
{
    match event {
        Event::Read(places, _) | Event::Write(places, _) => places.len(),
        Event::Rmw(_, _, _, _) => 1,
        _ => 0,
    }
}

/// The weight with an event more, if it is not too much.
fn weight_with(weight: usize, event: &Event) -> Option<usize>
    requires { weight ≤ most_weight }
    ensures { MatchOption result (most_weight < weight + (1 + place_count (event_of event.now)))
        (λ sum. (sum ≡ weight + (1 + place_count (event_of event.now))) × (sum ≤ most_weight)) }
{
    let count = places_of(event);
    if count < MOST_EVENTS - weight {
        Some(weight + 1 + count)
    } else {
        None
    }
}

/// How many control barriers an event is.
fn barriers(event: &Event) -> usize
    ensures count { result ≡ controls (event_of event.now ∷ []) }
    ensures one { result ≤ 1 }
{
    match event {
        Event::Control => 1,
        _ => 0,
    }
}

/// The words that the memory has for an access.
fn words_for(alloc: Global, store: &Store, group: usize, event: &Event) -> Result<Vec<u32>, Memory>
    ensures { IfOk result (λ words. IsAnswer (stored store.now.maps.items) group (event_of event.now) words.items) }
{
    match event {
        Event::Read(places, _) => found(alloc, store, group, places),
        Event::Rmw(_, place, _, _) => one_word(alloc, store.word(group, place)),
        _ => Ok(Vec::new(alloc)),
    }
}

fn one_word(alloc: Global, word: u32) -> Result<Vec<u32>, Memory>
    ensures is { IfOk result (λ words. words.items ≡ word ∷ []) }
    ensures fits { IfOk result (λ words. AreWords words.items) }
{
    let mut words = Vec::with_capacity(alloc, 1)?;
    words.push(word)?;
    Ok(words)
}

/// An access with the words that were found.
fn with_words(event: Event, words: Vec<u32>) -> Event
    ensures { event_of result ≡ filled (event_of event) words.items }
{
    match event {
        Event::Read(places, _) => Event::Read(places, words),
        Event::Rmw(kind, place, operands, _) => {
            let word = words.as_slice().first().copied().unwrap_or(0);
            Event::Rmw(kind, place, operands, word)
        }
        other => other,
    }
}

/// The next event of an invocation, where what it asks for is what the memory has.
fn go_on<R: Runner>(
    alloc: Global,
    side: &mut R,
    store: &Store,
    group: usize,
    who: usize,
) -> Result<Next, Memory>
    requires begun { who < R.count side.old }
    requires free { (R.at side.old who).asked ≡ None }
    ensures next { IfOk result (IsNextOf (R.runs side.old) (stored store.now.maps.items) group (R.at side.old who)) }
    ensures moved { IfOk result (λ next. R.at side.new ≡ with_at (R.at side.old) who (behind_next (R.at side.old who) next)) }
    ensures counted { R.count side.new ≡ R.count side.old }
    ensures runs { R.runs side.new ≡ R.runs side.old }
{
    match side.advance(who)? {
        Pause::Made(event) => Ok(Next::Made(event)),
        Pause::Asks(event) => {
            let words = words_for(alloc, store, group, &event)?;
            side.give(who, &words);
            Ok(Next::Made(with_words(event, words)))
        }
        Pause::Ended => Ok(Next::Ended),
        Pause::Undefined => Ok(Next::Undefined),
        Pause::Cut => Ok(Next::Cut),
    }
}

/// Notes an event of an invocation. `Stop::Events` comes exactly where it is too much.
fn note(alloc: Global, play: &mut Play, who: usize, event: Event) -> Result<(), Stop>
    requires group { 0 < play.old.group }
    requires begun { who < length play.old.passed.items }
    requires small { who < 1024 }
    requires few { slice_index play.old.passed.items who ≤ play.old.weight }
    requires light { play.old.weight ≤ most_weight }
    requires room { who / play.old.group < length play.old.store.maps.items }
    ensures noted { OnOk result (IsNoted play.old who (event_of event) play.new) }
    ensures events { IsErrOf result Stop.Events → most_weight < play.old.weight + (1 + place_count (event_of event)) }
    ensures invocations { IsErrOf result Stop.Invocations → ⊥ }
{
    let Some(weight) = weight_with(play.weight, &event) else {
        return Err(Stop::Events);
    };
    let group = who / play.group;
    apply(alloc, &mut play.store, group, &event)?;
    play.passed[who] += barriers(&event);
    play.events.push((who as u32, event))?;
    play.weight = weight;
    Ok(())
}

/// One item of the schedule. `Stop::Events` comes exactly where its event is too much.
pub fn take<R: Runner>(
    alloc: Global,
    side: &mut R,
    play: &mut Play,
    who: usize,
) -> Result<Turn, Stop>
    ghost d: { Setup }
    requires at { IsAt d (R.at side.old) play.old }
    requires who { who < d.count }
    requires begun { R.count side.old ≡ d.count }
    requires small { d.count ≤ 1024 }
    ensures turn { IfOk result (IsTurn d (R.runs side.old) (events_of play.old.events.items) who (events_of play.new.events.items)) }
    ensures at { OnOk result (IsAt d (R.at side.new) play.new) }
    ensures events { IsErrOf result Stop.Events → IsTooMuchNext d (R.runs side.old) (events_of play.old.events.items) who }
    ensures invocations { IsErrOf result Stop.Invocations → ⊥ }
    ensures counted { R.count side.new ≡ R.count side.old }
    ensures runs { R.runs side.new ≡ R.runs side.old }
{
    if !may_move(&play.passed, play.group, who) {
        return Ok(Turn::Waits);
    }
    match go_on(alloc, side, &play.store, who / play.group, who)? {
        Next::Made(event) => {
            note(alloc, play, who, event)?;
            Ok(Turn::Moves)
        }
        Next::Ended => Ok(Turn::Ended),
        Next::Undefined => Ok(Turn::Undefined),
        Next::Cut => Ok(Turn::Cut),
    }
}

// Copies of events.
ghost use Rattle.std.specs.Prelude.{◌≡◌, IfOk, IsSome, length};
ghost use Rattle.group_items.specs.Events.{event_of, access_of, filled, locations_of};
ghost use Rattle.step_run.specs.Room.{HasRoom, IsReady, Fits};

use group_items::{Event, LeafPlace};
use spv_words::Memory;
use std::alloc::Global;

fn places_in(alloc: Global, places: &[LeafPlace]) -> Result<Vec<LeafPlace>, Memory>
    ensures { IfOk result (λ list. locations_of list.items ≡ locations_of places.now) }
{
    let mut list = Vec::with_capacity(alloc, places.len())?;
    for place in places {
        list.push(place.clone_in(alloc)?)?;
    }
    Ok(list)
}

fn words_in(alloc: Global, words: &[u32]) -> Result<Vec<u32>, Memory>
    ensures { IfOk result (λ list. list.items ≡ words.now) }
{
    let mut list = Vec::with_capacity(alloc, words.len())?;
    list.extend_from_slice(words)?;
    Ok(list)
}

fn room_for(alloc: Global, count: usize) -> Result<Vec<u32>, Memory>
    ensures { IfOk result (λ list. length list.items ≡ count) }
{
    Ok(vec![in alloc; 0; count]?)
}

/// The same event again.
pub fn copied(alloc: Global, event: &Event) -> Result<Event, Memory>
    ensures { IfOk result (λ copy. event_of copy ≡ event_of event.now) }
{
    Ok(match event {
        Event::Read(places, words) => {
            Event::Read(places_in(alloc, places)?, words_in(alloc, words)?)
        }
        Event::Write(places, words) => {
            Event::Write(places_in(alloc, places)?, words_in(alloc, words)?)
        }
        Event::Rmw(kind, place, operands, found) => {
            Event::Rmw(
                *kind,
                place.clone_in(alloc)?,
                words_in(alloc, operands)?,
                *found,
            )
        }
        Event::MemBuffer => Event::MemBuffer,
        Event::MemShared => Event::MemShared,
        Event::Control => Event::Control,
    })
}

/// The same access with room for the words that it asks for.
pub fn with_room(alloc: Global, event: &Event) -> Result<Event, Memory>
    requires { IsSome (access_of (event_of event.now)) }
    ensures { IfOk result (λ room. IsReady (event_of event.now) (event_of room)) }
{
    Ok(match event {
        Event::Read(places, _) => {
            Event::Read(places_in(alloc, places)?, room_for(alloc, places.len())?)
        }
        other => copied(alloc, other)?,
    })
}

/// An access with the words that were found, for which it has room.
pub fn with_words(event: Event, words: &[u32]) -> Event
    requires room { HasRoom (event_of event) }
    requires fits { Fits (event_of event) words.now }
    ensures { event_of result ≡ filled (event_of event) words.now }
{
    match event {
        Event::Read(places, mut room) => {
            room.copy_from_slice(words);
            Event::Read(places, room)
        }
        Event::Rmw(kind, place, operands, _) => Event::Rmw(kind, place, operands, words[0]),
        other => other,
    }
}

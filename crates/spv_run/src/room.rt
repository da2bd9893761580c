// Room for the words for which a step asks.
ghost use Rattle.std.specs.Prelude.{◌≡◌, length, option_map, IfSome, IsSome, OnOk, OnErr};
ghost use Rattle.group_items.specs.Events.{event_of, access_of};
ghost use Rattle.spv_run.specs.States.{count_of, wanted as wanted_of};

use group_items::Event;
use spv_words::Memory;
use std::alloc::Global;
use step_run::Step;

/// How many words an event asks for, if it is one of an access.
fn words_of(event: &Event) -> Option<usize>
    ensures { result ≡ option_map count_of (access_of (event_of event.now)) }
{
    match event {
        Event::Read(places, _) => Some(places.len()),
        Event::Rmw(_, _, _, _) => Some(1),
        Event::Write(_, _) | Event::MemBuffer | Event::MemShared | Event::Control => None,
    }
}

/// How many words a step asks for.
fn wanted(step: &Step) -> Option<usize>
    ensures { result ≡ wanted_of step.now }
{
    match step {
        Step::Asks(event) => words_of(event),
        Step::Moves | Step::Makes(_) | Step::Stops | Step::Fails => None,
    }
}

/// Makes room for the words for which a step asks. There is an error only for want of memory, and none where it asks for nothing.
pub fn make_room(alloc: Global, words: &mut Vec<u32>, step: &Step) -> Result<(), Memory>
    ensures room { OnOk result (IfSome (wanted_of step.now) (λ count. length words.new.items ≡ count)) }
    ensures err { OnErr result (IsSome (wanted_of step.now)) }
{
    match wanted(step) {
        None => Ok(()),
        Some(count) => {
            if words.len() != count {
                *words = vec![in alloc; 0; count]?;
            }
            Ok(())
        }
    }
}

// Many invocations on one memory: what they come to by a schedule, event by event.
#![tactic(auto)]

mod event;
mod items;
mod play;
mod runner;
mod schedule;
mod sequence;
mod store;

pub use event::{Event, LeafPlace, Pause, RmwKind};
pub use play::Play;
pub use runner::{Invocation, Runner};
pub use schedule::{End, MOST_INVOCATIONS, Stop};
pub use sequence::play_schedule;
pub use store::Store;

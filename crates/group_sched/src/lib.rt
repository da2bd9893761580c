// Dispatches: what many invocations on one memory come to.
#![tactic(auto)]

mod extent;
mod start;
mod whole;

pub use dispatch_case::Case;
pub use group_items::{End, Event, Invocation, LeafPlace, Pause, RmwKind, Runner, Stop, Store};
pub use start::first_memory;
pub use whole::{Outcome, dispatch};

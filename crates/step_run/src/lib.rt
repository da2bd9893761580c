// Invocations that go on step by step from where they stand, and not again from their start.
#![tactic(auto)]

mod answer;
mod builtins;
mod copies;
mod going;
mod machine;
mod program;
mod row;
mod telling;
mod thread;
mod told;

pub use machine::Machine;
pub use program::{Program, Step};

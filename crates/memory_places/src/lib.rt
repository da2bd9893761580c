// What a run of a module asks of memory: to which types indexes lead and which of them are allowed, where the scalars of variables lie,
// what variables begin with, and which of them other invocations see.
#![tactic(auto)]

mod bases;
mod faults;
mod leaves;
mod located;
mod map;
mod mentions;
mod shared;
mod starts;
mod told;
mod types;
mod variables;

pub use map::MemoryMap;
pub use starts::{Start, as_variable, class_of};
pub use types::word_in;

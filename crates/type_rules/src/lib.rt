// The rules on the types of operands and results.
#![tactic(auto)]

mod atomics;
mod check;
mod composites;
mod dispatch;
mod edges;
mod flow;
mod index;
mod judge;
mod matching;
mod memory;
mod numbers;
mod operands;
mod parts;
mod scope;
mod select;
mod vectors;

pub use check::{check_types, sound_globals};

// The control-flow graph of a function.
#![tactic(auto)]

mod blocks;
mod graph;
mod labels;
mod reach;

pub use blocks::terminator;
pub use graph::control_flow;

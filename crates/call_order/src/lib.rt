// The order of a module's functions: callees first.
#![tactic(auto)]

mod calls;
mod cycle;
mod function_order;
mod graph;
mod queue;
mod reach;

pub use function_order::order;

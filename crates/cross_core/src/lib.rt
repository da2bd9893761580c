// The top call: carries out a command line over a source and two sinks.
#![tactic(auto)]

mod answers;
mod texts;
mod top;

pub use top::cross;

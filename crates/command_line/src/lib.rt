// The command line: what its words ask for, how a command ends and what is said of that, and the line of a summary.
#![tactic(auto)]

mod commands;
mod endings;
mod notes;
mod output;
mod summary;

pub use commands::{Action, Command, command_of};
pub use endings::{Ending, RunLimit, ending_of};
pub use notes::say;
pub use output::put;
pub use summary::summary_of;

// A module as a program: an invocation of it goes on by one instruction at a step.
#![tactic(auto)]

mod fetch;
mod kernel;
mod program;
mod room;
mod state;
mod steps;
mod taking;

pub use kernel::ModuleProgram;
pub use state::State;

/// A runner of invocations of a module, each within so many steps.
pub type Machine<'a> = step_run::Machine<ModuleProgram<'a>>;

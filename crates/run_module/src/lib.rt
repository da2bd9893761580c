// The run of a case on a module.
#![tactic(auto)]

mod given;
mod run;
mod size;

pub use run::{CaseRun, run_case};

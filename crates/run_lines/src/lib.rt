// What a run of a case says: the lines of its buffers, of how many events there were, and of how it ended.
#![tactic(auto)]

mod lines;
mod rows;
mod run;

pub use run::{run_program, run_side};

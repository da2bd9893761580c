// Steps that lead from block to block and from call to call, and the calls with which an invocation begins.
#![tactic(auto)]

mod calls;
mod edges;
mod leaving;
mod routine;
mod routines;
mod starts;
mod targets;

pub use calls::{call_step, first_frame};
pub use edges::branch_step;
pub use leaving::{merge_step, return_step, return_value_step};
pub use routine::Routine;
pub use routines::Routines;
pub use starts::{first_privates, variable_ids};

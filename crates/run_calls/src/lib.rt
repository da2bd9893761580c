// Calls of functions: what arguments are in the call, and the call that begins.
#![tactic(auto)]

mod calls;
mod returns;

pub use calls::{arguments, enter, passed};
pub use returns::give;

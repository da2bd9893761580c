// What the operands of an instruction have, where an invocation stands, and the value of an operation.
#![tactic(auto)]

mod look;
mod operation;

pub use look::{held, pointer, truth, value, values, word, words};
pub use operation::computed;

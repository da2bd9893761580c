// Steps of instructions that neither read nor write a variable: operations, chains of indexes, lengths of arrays, and variables of
// functions.
#![tactic(auto)]

mod chains;
mod operations;
mod variables;

pub use chains::chain_step;
pub use operations::operation_step;
pub use variables::{length_step, variable_step};

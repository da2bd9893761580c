//! The expression of each operation on scalars: GLSL's operators and functions, on operands that are converted to the type
//! that the operation reads them as.
#![tactic(auto)]

mod basic;
mod built_ins;
mod division;
mod instructions;
mod operands;
mod operations;
mod operators;
mod terms;

pub use basic::{BasicType, basic_type, type_name};
pub use built_ins::BuiltIn;
pub use instructions::{lower, lower_operation, operation};
pub use operands::Arg;
pub use operators::{Operator, arithmetic_operator, comparison_operator, modulo_32};
pub use terms::{convert, literal};

// The rules on the entry point, the head, variables and types of a module.
#![tactic(auto)]

mod choice;
mod context;
mod declarations;
mod elsewhere;
mod heads;
mod holders;
mod kernel;
mod refusal;
mod rows;
mod size;
mod spec_ids;
mod types;
mod uses;
mod variables;

pub use declarations::{Entry, check_declarations};

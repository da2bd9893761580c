// The statements of blocks and the expressions of values.
#![tactic(auto)]

mod atomics;
mod barriers;
mod block;
mod calls;
mod context;
mod globals;
mod insertions;
mod kinds;
mod operands;
mod places;
mod results;
mod statements;
mod steps;
mod types;
mod values;

pub use context::Context;
pub use globals::Globals;
pub use kinds::{InstKind, OperationKind};
pub use statements::reserve;

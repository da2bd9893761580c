// The plan of a function: which of its values have variables, which results have names, the tree of its control flow, the moves of
// its edges, its flags, the orders of its switches; and the names that it claims.
#![tactic(auto)]

mod claims;
mod edge_moves;
mod flag_sets;
mod moves;
mod named;
mod nodes;
mod once;
mod orders;
mod plan;
mod planning;
mod single;

pub use edge_moves::Moves;
pub use flag_sets::{FlagSets, again_at, fell_at, leave_at};
pub use named::{is_captured, is_live};
pub use nodes::target;
pub use orders::Orders;
pub use plan::FunctionPlan;

// What of a module is written before the functions of its text, and the names that the text claims.
#![tactic(auto)]

mod asked;
mod blocks;
mod calculated;
mod constants;
mod flow;
mod functions;
mod globals;
mod items;
mod list;
mod live;
mod named_globals;
mod needed;
mod numbers;
mod operands;
mod qualifiers;
mod shapes;
mod structs;
mod types;
mod variables;
mod wording;
mod written;

pub use asked::asks_live;
pub use flow::claims;
pub use globals::global_expr;
pub use items::declarations;
pub use live::Live;
pub use shapes::{pointee_at, shape_at};
pub use variables::initial;
pub use written::Written;

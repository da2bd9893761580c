// The layout of buffer blocks: where their members stand, and the rules on it.
#![tactic(auto)]

mod block;
mod decorations;
mod layouts;
mod measure;
mod members;
mod plan;
mod ruler;
mod sizes;
mod types;

pub use block::{block_of, check_block, is_block_variable, kind_of};
pub use layout_rules::Kind;
pub use plan::{BlockPlan, Layout};
pub use types::layout;

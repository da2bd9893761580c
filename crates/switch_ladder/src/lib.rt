// The chains of a switch's case targets, and the flags that structured statements need.
#![tactic(auto)]

mod ladder;
mod plan;

pub use ladder::{chains, chains_among};
pub use plan::{FlagPlan, flags};

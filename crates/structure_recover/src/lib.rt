// The tree of a function's control flow: its blocks with the constructs of which they are made.
#![tactic(auto)]

mod arms;
mod edges;
mod region;
mod trees;

pub use arms::targets_of;
pub use edges::continue_block;
pub use region::{Exit, Group, Item, Region};
pub use trees::recover;

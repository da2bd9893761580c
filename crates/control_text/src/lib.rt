// The statements of a function's control flow.
#![tactic(auto)]

mod block_text;
mod edges;
mod flags;
mod place;
mod regions;
mod switches;
mod writer;

pub use block_text::{BlockText, Edge};
pub use regions::function_text;

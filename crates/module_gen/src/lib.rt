// Modules built from their instructions.
#![tactic(auto)]

mod builder;
mod encode;
mod generated;
mod ids;
mod pieces;
mod rows;

pub use builder::Builder;
pub use generated::generate;

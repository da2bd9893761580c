//! Whether the tree of a text is in the grammar, so that its text reads back as the tree.
#![tactic(auto)]

mod expressions;
mod items;
mod names;
mod statements;
mod types;
mod unit;

pub use unit::is_in_grammar;

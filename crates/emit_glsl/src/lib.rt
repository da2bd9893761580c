// The translation of a module to the tree of its text.
#![tactic(auto)]

mod translation;

pub use translation::translate;
pub use unit_text::{Parts, Translation};

// The tree of the text of a module that was judged.
#![tactic(auto)]

mod globals;
mod heads;
mod plans;
mod unit;

pub use unit::{Parts, Translation, text_of};

//! The names of a GLSL text: each claim gets the cleaned name that the module gives it, or the first
//! with a number that is free.
#![tactic(auto)]

mod base;
mod claims;
mod naming;
mod places;
mod reserved;
mod space;

pub use claims::{Claim, Key, Names};
pub use naming::names;

// The values of a module's constants, under overrides and a specialization.
#![tactic(auto)]

mod assemble;
mod evaluate;
mod fitting;
mod inner_ops;
mod operate;
mod zeros;

pub use evaluate::{Constants, Special, resolve};

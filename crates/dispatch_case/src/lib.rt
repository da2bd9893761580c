// Cases: what a dispatch is run on, as they are written on a command line.
#![tactic(auto)]

mod case;
mod part;
mod read;

pub use case::Case;

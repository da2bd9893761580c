// The copies of an edge between blocks: parallel ones, put in sequence.
#![tactic(auto)]

mod counts;
mod moves;
mod places;
mod sequence;
mod work;

pub use moves::{Move, Src, Var};
pub use sequence::copies;

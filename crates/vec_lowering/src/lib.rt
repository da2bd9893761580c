//! The expression of each operation on vectors and composites, which is a scalar operation's on each component where GLSL has
//! none on vectors.
#![tactic(auto)]

mod components;
mod composites;
mod copies;
mod instructions;
mod names;
mod operators;

pub use components::axis_text;
pub use instructions::lower_vector;
pub use names::shape_type;
pub use operators::operator;

// The text of a function from its plan (GLSL 4.60, section 6.1).
#![tactic(auto)]

mod blocks;
mod declaration;
mod functions;
mod heads;
mod live;
mod scope;

pub use declaration::function_decl;
pub use live::add_live;

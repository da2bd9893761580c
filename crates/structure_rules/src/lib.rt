// The rules of structured control flow on a function: definitions, and the plain types that they speak of.
#![tactic(auto)]

mod graph;
mod targets;

pub use graph::{EdgeKind, Exit, Merge, Node, Part, Role};
pub use targets::Targets;

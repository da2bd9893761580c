// The constructs round the blocks of a function, the kinds of its edges, and the rules of structured
// control flow.
#![tactic(auto)]

mod cycles;
mod edges;
mod falls;
mod forms;
mod found;
mod headers;
mod judge;
mod kinds;
mod links;
mod nest;
mod outer;
mod parents;
mod refusal;
mod rings;
mod spots;

pub use found::Places;
pub use judge::{places, places_by};
pub use structure_rules::{EdgeKind, Part};

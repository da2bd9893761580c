// Maps from ids to values, and sets of ids: a slot for each id of a range, and a tree for all others.
#![tactic(auto)]

mod map;
mod places;
mod range;
mod set;

pub use map::IdMap;
pub use places::PlaceMap;
pub use range::Span;
pub use set::IdSet;

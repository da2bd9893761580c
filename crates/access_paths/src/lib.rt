// Pointers as paths: the variable or parameter from which a pointer leads, and the steps from there.
#![tactic(auto)]

mod forms;
mod indexes;
mod link;
mod links;
mod walk;

pub use forms::{Path, Step};
pub use indexes::{captured_indexes, is_constant_index};
pub use walk::{Paths, path};

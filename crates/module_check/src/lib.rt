// Whether the bytes of a module conform to the profile, and what is known of a module that does.
#![tactic(auto)]

mod bytes;
mod judges;
mod structure;

pub use bytes::{check_bytes, read_module};
pub use judges::{Conforming, check_module, judge};

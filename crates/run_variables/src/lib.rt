// The variables of an invocation that no other invocation sees: what they have, and parts of them that are replaced.
#![tactic(auto)]

mod kept;

pub use kept::{store_at, value_at};

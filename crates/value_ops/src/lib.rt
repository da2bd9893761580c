// The values of SPIR-V's operations without effect, as code; values from words and to words, and
// their parts.
#![tactic(auto)]

mod bits;
mod compose;
mod copies;
mod operate;
mod outcome;
mod parts;
mod scalars;
mod shuffle;
mod truths;
mod words;

pub use copies::{all_copied, copied};
pub use operate::op_value;
pub use parts::{inserted, part_by, put_part};
pub use words::{add_words, value_from, zero_value};

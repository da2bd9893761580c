// Small modules, how modules are read from their words, and slow streams: what the tests of several crates stand on.
#![tactic(auto)]

mod read;
mod streams;
mod words;

pub use read::{bytes_of, changed, function_of, module_of};
pub use streams::ByteByByte;
pub use words::{INCREMENT, PREFIX_SUMS, SPECIALIZED, SWITCH_IN_LOOP};

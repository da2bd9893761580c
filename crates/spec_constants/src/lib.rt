// The values of a module's constants, where specialization constants may be overridden.
#![tactic(auto)]

mod fit;
mod given_words;
mod leaves;
mod numerals;
mod overrides;

pub use fit::check_overrides;
pub use given_words::{givens, word_given};
pub use leaves::check_leaves;
pub use numerals::decimal;
pub use overrides::{Overrides, Unparsed};
pub use profile_rules::Given;

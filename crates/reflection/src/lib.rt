// The report on a module, which is judged and translated first.
#![tactic(auto)]

mod reports;

pub use reports::report;

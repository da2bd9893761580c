// The report on a module by its text: its blocks, shared variables, workgroup size and specialization constants.
#![tactic(auto)]

mod blocks;
mod constants;
mod reports;
mod sizes;
mod types;

pub use reports::report_of;

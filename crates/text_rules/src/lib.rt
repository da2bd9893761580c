// What of a module is written into its text, in which order, under which names and by which expressions:
// definitions, the plain types that they speak of, and what a plan of a function tells of its claims.
#![tactic(auto)]

mod claims;
mod readings;

pub use claims::FunctionClaims;
pub use readings::Reading;

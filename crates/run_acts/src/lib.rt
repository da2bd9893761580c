// What the steps of a program have in common: what a step is of a module's machine, with places by the numbers that the program has
// for them; where steps are made; results; variables that other invocations see.
#![tactic(auto)]

mod results;
mod site;
mod variables;

pub use results::set_result;
pub use site::Site;
pub use variables::seen;

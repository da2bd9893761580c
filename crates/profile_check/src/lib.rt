// The rules on the data of a module, and what is known of a module that breaks none of them.
#![tactic(auto)]

mod blocks;
mod checks;
mod functions;
mod layouts;

pub use checks::{Options, Profile, check_data, check_rest};
pub use declaration_check::{Entry, check_declarations};
pub use functions::locals_of;

// Which values of a function have variables, and where these are declared; which chains other blocks
// need.
#![tactic(auto)]

mod carried;
mod form;
mod forms;
mod mention;
mod mentioned;
mod naming;
mod row;
mod rows;

pub use form::Form;
pub use naming::{Naming, plan};

// The text of a unit, handed to a sink in pieces.
#![tactic(auto)]

mod end;
mod expressions;
mod items;
mod level;
mod page;
mod precedence;
mod printing;
mod statements;
mod types;

pub use end::PrintEnd;
pub use printing::print;

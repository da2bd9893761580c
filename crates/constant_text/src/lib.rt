// How the constants of a module are written where they are read, how its types are named, and the size of its workgroups.
#![tactic(auto)]

mod basics;
mod constants;
mod literals;
mod names;
mod outlines;
mod readings;
mod scalars;
mod sizes;
mod types;
mod zeros;

pub use basics::basic_shape;
pub use literals::int_literal;
pub use names::name;
pub use outlines::outline;
pub use readings::Readings;
pub use scalars::scalar_type;
pub use text_rules::Reading;

// Where an invocation of a module stands, as a program keeps it: the calls under way, what their ids have, and their variables.
#![tactic(auto)]

mod chain;
mod conf;
mod edge;
mod held;
mod leaving;

pub use chain::{based_on, forget_all};
pub use conf::{Conf, Frame, Ids, advance, forget, make_place, put, put_in_place, set};
pub use edge::{case_label, go_to, phis_of, present_label, source_from};
pub use held::{Found, Held, Root};
pub use leaving::leave;

// What instructions do to variables and to memory that others see: loads, stores, atomic instructions and barriers.
#![tactic(auto)]

mod atomics;
mod barriers;
mod kept;
mod loads;
mod made;
mod operands;
mod stores;
mod taking;
mod writes;

pub use atomics::atomic_step;
pub use barriers::{Barrier, barrier_step};
pub use loads::load_step;
pub use taking::take;
pub use writes::store_step;

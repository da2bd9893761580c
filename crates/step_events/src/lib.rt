// What single instructions do to memory that others see: the operations and operands of atomic
// instructions, and the events of barriers.
#![tactic(auto)]

mod atomics;
mod barriers;

pub use atomics::{AtomicOperands, atomic_kind, atomic_operands};
pub use barriers::{control_barrier, memory_barriers};

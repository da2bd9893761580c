// Faults of modules that meet the profile within the limits.
ghost use Rattle.memory_places.specs.Conditions.{IsMemory};

use spv_words::{Fault, Memory};

/// What a fault is where it can be nothing else.
pub fn want_of_memory(fault: Fault) -> Memory
    requires { IsMemory fault }
{
    match fault {
        Fault::Memory => Memory,
        Fault::Refused(_) | Fault::Limit(_) => unreachable!(),
    }
}

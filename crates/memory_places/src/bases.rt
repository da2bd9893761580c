// What a variable's scalars lie in.
ghost use Rattle.std.specs.Prelude.{◌≡◌, IfOk};
ghost use Rattle.group_items.specs.Events.{location_of};
ghost use Rattle.memory_places.specs.Bases.{place_in};

use group_items::LeafPlace;
use spv_words::Memory;
use std::alloc::Global;

/// A buffer by its descriptor set and its binding, the push constants, or a variable of a workgroup by its number.
#[derive(Clone, Copy, Debug, PartialEq, Eq)]
pub enum Base {
    Buffer(u32, u32),
    Push,
    Shared(u32),
}

/// The same path again.
pub fn copied(alloc: Global, path: &[u32]) -> Result<Vec<u32>, Memory>
    ensures { IfOk result (λ list. list.items ≡ path.now) }
{
    let mut list = Vec::with_capacity(alloc, path.len())?;
    list.extend_from_slice(path)?;
    Ok(list)
}

/// The place at a byte, to which a path leads. There is an error only for want of memory.
pub fn place_at(alloc: Global, base: Base, byte: u64, path: &[u32]) -> Result<LeafPlace, Memory>
    ensures { IfOk result (λ place. location_of place ≡ place_in base byte path.now) }
{
    Ok(match base {
        Base::Buffer(set, binding) => LeafPlace::Buffer(set, binding, byte),
        Base::Push => LeafPlace::Push(byte),
        Base::Shared(variable) => LeafPlace::Shared(variable, copied(alloc, path)?),
    })
}

// Where steps are made.

use memory_places::MemoryMap;
use spv_module::Inst;
use std::alloc::Global;

/// An instruction, and the memory of its module.
#[derive(Clone, Copy)]
pub struct Site<'s, 'a> {
    pub alloc: Global,
    pub map: &'s MemoryMap<'a>,
    pub inst: &'s Inst,
}

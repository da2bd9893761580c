// What is known where a block is written.
use crate::Context;
use std::alloc::Global;

/// A block of a function, by its place among the blocks, while it is written.
#[derive(Clone, Copy)]
pub struct BlockContext<'c, 'a, 'b> {
    pub context: &'c Context<'a, 'b>,
    pub alloc: Global,
    pub block: usize,
}

// By what statements are written.
use crate::block_text::BlockText;
use std::alloc::Global;

/// What is written of a function's blocks, and where there is memory for its statements.
#[derive(Clone, Copy)]
pub struct Writer<'w, B: BlockText> {
    pub alloc: Global,
    pub blocks: &'w B,
}

// The results of instructions.

use crate::mentioned::Mentioned;
use spv_ops::Op;

/// The result of an instruction: the index of its block, the opcode, its type and its id.
#[derive(Clone, Copy)]
pub struct Row {
    pub block: usize,
    pub op: Op,
    pub ty: u32,
    pub result: u32,
}

/// A result that is a chain, and where the linked slots that mention it stand, in text order.
#[derive(Drop)]
pub struct Chain {
    pub row: Row,
    pub mentions: Mentioned,
}

// Paths and their steps.
use spv_module::Id;

/// A step of a path: to member k of a struct; by the index with an id; or by the value that index k
/// of a chain, counted from 0, had where the chain stands (SPIR-V 1.6, OpAccessChain).
#[derive(Clone, Copy, Debug, PartialEq, Eq)]
pub enum Step {
    Member(u32),
    Index(Id),
    Captured(Id, u32),
}

/// A path: from a variable or a pointer parameter, step by step.
#[derive(Drop)]
pub struct Path {
    pub base: Id,
    pub steps: Vec<Step>,
}

// The opcodes that a module may have: their numbers, their words, their operands and their classes;
// the decorations.
#![tactic(auto)]

mod class;
mod decorations;
mod enumerants;
mod groups;
mod op_group;
mod opcode;
mod operands;
mod shape;

pub use class::{OpClass, OpShape};
pub use decorations::{has_literal, literals_of};
pub use enumerants::{
    AddressingModel, BuiltIn, Capability, Decoration, ExecutionMode, ExecutionModel, MemoryModel,
    Scope, StorageClass,
};
pub use op_group::{AtomicOp, OpGroup, Takes, Terminator};
pub use opcode::Op;
pub use operands::{IdWords, Operands, id_words, inner_op, is_odd};
pub use shape::shape_of;

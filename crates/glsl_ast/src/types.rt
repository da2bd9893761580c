// Types as they are spelled.
use crate::Name;

/// The name of a type: what it is an array of, and its extents, the outermost first (GLSL 4.60, section 4.1).
#[derive(Drop)]
pub struct TypeName {
    pub base: Base,
    pub extents: Vec<Extent>,
}

/// A type that is no array. A vector has 2, 3 or 4 components.
#[derive(Drop)]
pub enum Base {
    Bool,
    Int,
    Uint,
    BoolVec(u8),
    IntVec(u8),
    UintVec(u8),
    Struct(Name),
}

/// The length of an array: none, a number, a constant's name, or a component of `gl_WorkGroupSize`.
#[derive(Drop)]
pub enum Extent {
    Open,
    Number(u32),
    Name(Name),
    Size(Name),
}

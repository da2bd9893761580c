// The layouts of types and of blocks.
use layout_rules::Kind;

/// The layout of a type, in bytes: its size, its alignment, the stride of an array (0 of another
/// type) and the offsets of a struct's members (none of another type). A runtime array has size 0
/// (OpenGL 4.6, section 7.6.2.2).
#[derive(Drop)]
pub struct Layout {
    pub size: u32,
    pub align: u32,
    pub stride: u32,
    pub offsets: Vec<u32>,
}

/// The layout that a block takes, and for each of its members the layout of its type and its Offset,
/// in bytes (SPIR-V 1.6, section 3.20, Offset).
#[derive(Drop)]
pub struct BlockPlan {
    pub kind: Kind,
    pub members: Vec<Layout>,
    pub offsets: Vec<u32>,
}
